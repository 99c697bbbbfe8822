// The server side of SUNDR's blocks: a store of 64 places in one lent buffer, in which users store
// blocks, from which anybody retrieves them by their hash, and which gives a place back when no user
// counts its block any more. Any bytes of the right length may be lent as a store; nothing is kept
// between calls. Who a user is, is not asked here: the server authenticates its users elsewhere.
#![tactic(auto)]

mod place;
mod places;

ghost use Rattle.std.specs.Prelude.{◌≡◌, ◌≤◌, ◌<◌, length};
ghost use Rattle.refusal.specs.Answer.{accepted, and_then};
ghost use Rattle.refusal.specs.Order.{tried};
ghost use Rattle.refusal.specs.Refusal.{said};
ghost use Rattle.refusal.specs.Result.{Gives, left};
ghost use Rattle.store.specs.Place.{store_size};
ghost use Rattle.store.specs.Calls.{make as make_of, store as store_of, retrieve as retrieve_of, retrieve_into};
ghost use Rattle.store.specs.Calls.{unreferenced, unreference as unreference_of, after_unreference};
ghost use Rattle.blockstore.specs.Internal.Stages.{admit_steps, counted_once, filled_free};

use place::Count;
use refusal::Refusal;

// The places of a store, the bytes of each, and of all.
const PLACES: usize = 64;

const PLACE: usize = 8226;

const SIZE: usize = 526464;

// The bytes of the longest block, and of a hash.
const BLOCK: usize = 8192;

const HASH: usize = 32;

// Makes an empty store of 526,464 lent bytes: all of them zero.
// Kept: store and user side by side, here and below, as the C interface has them.
pub fn make(store: &mut [u8]) -> Result<(), Refusal>
    ensures { Gives (make_of store.old) store.old store.new result }
{
    if store.len() != SIZE {
        return Err(Refusal::Length(0));
    }
    layout::clear(0, store);
    Ok(())
}

// The tests with which every call on a store begins, in their order: the user, the store's length and
// the call's other length, and each place's length.
fn admit(store: &[u8], user: u8, fits: bool) -> Result<(), Refusal>
    ensures { said result ≡ tried (admit_steps store.now user fits) }
{
    if 15 < user {
        return Err(Refusal::Users);
    }
    if store.len() != SIZE {
        return Err(Refusal::Length(0));
    }
    if !fits {
        return Err(Refusal::Length(0));
    }
    match places::first_unfit(store) {
        Some(p) => Err(Refusal::Malformed(p)),
        None => Ok(()),
    }
}

// One more of a user's at a place that holds the block.
fn count_one(store: &mut [u8], own: Count) -> Result<(), Refusal>
    requires { length store.old ≡ store_size }
    ensures { Gives (counted_once store.old own.p own.user) store.old store.new result }
{
    let Some(more) = own.read(store).checked_add(1) else {
        return Err(Refusal::LastReference);
    };
    own.write(store, more);
    Ok(())
}

// A block that is not held, in the lowest free place.
fn fill_free(store: &mut [u8], user: usize, block: &[u8]) -> Result<(), Refusal>
    requires { (length store.old ≡ store_size) × (user < 16) × (length block.now ≤ 8192) }
    ensures { Gives (filled_free store.old user block.now) store.old store.new result }
{
    let Some(p) = places::first_free(store) else {
        return Err(Refusal::NoPlace);
    };
    let at = PLACE * p;
    place::put(
        store,
        at + place::LENGTH,
        &layout::u16_bytes(block.len() as u16),
    );
    Count { p, user }.write(store, 1);
    place::put(store, at + place::BYTES, block);
    Ok(())
}

// Stores a block of at most 8,192 bytes for a user: counts it once more where its hash is held, and
// otherwise puts it into the lowest free place. All other bytes of the store stay.
pub fn store(store: &mut [u8], user: u8, block: &[u8]) -> Result<(), Refusal>
    ensures { Gives (store_of store.old user block.now) store.old store.new result }
{
    admit(store, user, block.len() <= BLOCK)?;
    let mut hash = [0u8; 32];
    // No block of this length is refused.
    let _ = sha256::sha256(block, &mut hash);
    match places::place_of(store, &hash) {
        Some(p) => count_one(
            store,
            Count {
                p,
                user: user as usize,
            },
        ),
        None => fill_free(store, user as usize, block),
    }
}

// Copies the block of a hash to the front of `out`, and keeps the bytes after it. Gives its length.
// The store is only read.
pub fn retrieve(store: &[u8], hash: &[u8], out: &mut [u8]) -> Result<usize, Refusal>
    ensures answers { said result ≡ and_then (retrieve_of store.now hash.now (length out.old))
        (λ b. accepted (length b)) }
    ensures leaves { out.new ≡ left (retrieve_into store.now hash.now out.old) out.old }
{
    admit(store, 0, hash.len() == HASH)?;
    let Some(p) = places::place_of(store, hash) else {
        return Err(Refusal::NotHeld);
    };
    let block = place::block(place::at(store, p));
    if out.len() < block.len() {
        return Err(Refusal::NoRoom);
    }
    Ok(layout::copy(block, out))
}

// Takes one from a user's count, or does nothing at zero. Gives how many it took.
fn uncount_one(store: &mut [u8], own: Count) -> usize
    requires { length store.old ≡ store_size }
    ensures took { result ≡ (unreferenced store.old own.p own.user).took }
    ensures after { store.new ≡ (unreferenced store.old own.p own.user).after }
{
    let Some(less) = own.read(store).checked_sub(1) else {
        return 0;
    };
    own.write(store, less);
    1
}

// Takes one from a user's count of a hash; where it is 0, nothing is done. Gives how many it took. All
// other bytes of the store stay, also those of a place that nobody counts any more.
pub fn unreference(store: &mut [u8], user: u8, hash: &[u8]) -> Result<usize, Refusal>
    ensures answers { said result ≡ and_then (unreference_of store.old user hash.now) (λ t. accepted t.took) }
    ensures leaves { store.new ≡ left (after_unreference store.old user hash.now) store.old }
{
    admit(store, user, hash.len() == HASH)?;
    let Some(p) = places::place_of(store, hash) else {
        return Err(Refusal::NotHeld);
    };
    Ok(uncount_one(
        store,
        Count {
            p,
            user: user as usize,
        },
    ))
}
