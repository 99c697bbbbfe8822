// One place of a store: where its length, its counts and its block stand, what it holds, and what is
// written there.
ghost use Rattle.std.specs.Prelude.{◌≡◌, ◌+◌, ◌*◌, ◌≤◌, ◌<◌, length};
ghost use Rattle.layout.specs.Bytes.{put_at};
ghost use Rattle.store.specs.Place.{store_size, place, count, block_in, free, holds as holds_of, recount};

use crate::PLACE;

// Where the length stands, the counts, two bytes each, and the block.
pub(crate) const LENGTH: usize = 0;

const COUNTS: usize = 2;

const WIDTH: usize = 2;

pub(crate) const BYTES: usize = 34;

// The bytes of place p, where they lie.
// Kept: a struct that knows the store's length would be two (retrieve lends it to be read, the other calls to be changed), both made of this fact.
pub(crate) fn at(store: &[u8], p: usize) -> &[u8]
    requires { (length store.now ≡ store_size) × (p < 64) }
    ensures { result.now ≡ place store.now p }
{
    &store[PLACE * p..PLACE * p + PLACE]
}

// The block, where it lies, as far as there are bytes.
pub(crate) fn block(x: &[u8]) -> &[u8]
    ensures lies { result.now ≡ block_in x.now }
    ensures short { length result.now < 65536 }
{
    let n = layout::u16_at(x, LENGTH) as usize;
    &x[BYTES.min(x.len())..(BYTES + n).min(x.len())]
}

// Whether nobody counts the block.
pub(crate) fn is_free(x: &[u8]) -> bool
    ensures { result ≡ free x.now }
{
    layout::zero_between(x, COUNTS, BYTES)
}

// Whether somebody counts the block, and it has this hash. A free place is not hashed.
pub(crate) fn holds(x: &[u8], hash: &[u8]) -> bool
    ensures { result ≡ holds_of x.now hash.now }
{
    !is_free(x) && sha256::is_hash(block(x), hash)
}

// Writes bytes over those from a place on.
// Kept: bytes and a place; a part of the store in their stead would have to be put back into what is said of the whole.
pub(crate) fn put(store: &mut [u8], at: usize, new: &[u8])
    requires { at + length new.now ≤ length store.old }
    ensures { store.new ≡ put_at store.old at new.now }
{
    layout::copy(new, &mut store[at..]);
}

// A user's count of the block at place p of a store.
#[derive(Clone, Copy)]
pub(crate) struct Count {
    pub(crate) p: usize,
    pub(crate) user: usize,
    ghost there: { (p < 64) × (user < 16) },
}

impl Count {
    // Where it stands.
    fn at(self) -> usize
        ensures { result ≡ 8226 * self.p + 2 + 2 * self.user }
    {
        PLACE * self.p + COUNTS + WIDTH * self.user
    }

    pub(crate) fn read(self, store: &[u8]) -> u16
        requires { length store.now ≡ store_size }
        ensures { result ≡ count (place store.now self.p) self.user }
    {
        layout::u16_at(store, self.at())
    }

    pub(crate) fn write(self, store: &mut [u8], n: u16)
        requires { length store.old ≡ store_size }
        ensures { store.new ≡ recount store.old self.p self.user n }
    {
        put(store, self.at(), &layout::u16_bytes(n));
    }
}
