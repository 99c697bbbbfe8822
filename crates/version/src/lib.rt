// Version structures: where their parts stand, by which a record is also written. Its bytes are read and
// judged well formed, by themselves and as what a user remembers, and two structures are compared by their counts.
// No call knows anything of lists or signatures, and each takes whatever bytes or counts it is given.
#![tactic(auto)]

ghost use Rattle.std.specs.Prelude.{◌≡◌, true, ◌⊎◌, ◌-◌, ◌<◌, eqb};
ghost use Rattle.layout.specs.Bytes.{values};
ghost use Rattle.protocol.specs.Version.{size, owner as owner_of, count as count_of, own, well_formed, standing};
ghost use Rattle.protocol.specs.Check.{remembers};
ghost use Rattle.protocol.specs.Meaning.{Users};
ghost use Rattle.search.specs.Search.{every};
ghost use Rattle.version.specs.Version.{fields, count_in, standing_as};

// A record's length, and where its kind, owner, i-handle and counts stand.
pub const SIZE: usize = 98;

pub const KIND: usize = 0;

pub const OWNER: usize = 1;

pub const HANDLE: usize = 2;

pub const COUNTS: usize = 34;

// A version structure: owner, i-handle, and how many operations of each user it counts.
#[derive(Clone, Copy)]
pub struct Version {
    pub owner: u8,
    pub handle: [u8; 32],
    pub counts: [u32; 16],
}

// The owner of a record; 0 where it is too short to have one.
pub fn owner(x: &[u8]) -> u8
    ensures { result ≡ owner_of x.now }
{
    layout::byte_at(x, OWNER)
}

// The number at user v's place among the counts.
fn count_at(x: &[u8], v: usize) -> u32
    requires { v < 256 }
    ensures { result ≡ count_of x.now v }
{
    layout::u32_at(x, COUNTS + 4 * v)
}

// The version of user v in a record (the count of v): the number that stands there, with zeros for
// the bytes that the record lacks.
pub fn count(x: &[u8], v: u8) -> u32
    ensures { result ≡ count_of x.now v }
{
    count_at(x, v as usize)
}

// The owner's version number (the own count).
pub fn own_count(x: &[u8]) -> u32
    ensures { result ≡ own x.now }
{
    count(x, owner(x))
}

// The sixteen counts of a record, with zeros for the bytes that it lacks.
pub fn counts(x: &[u8]) -> [u32; 16]
    ensures { result ≡ values (count_of x.now) 0 16 }
{
    std::array::from_fn(|v| count_at(x, v))
}

// The fields of a record. Reads its first 98 bytes, and zeros where it is shorter.
#[tactic(auto, unfolding(crate::specs::Version::fields))]
pub fn read(x: &[u8]) -> Version
    ensures { result ≡ fields x.now }
{
    Version {
        owner: owner(x),
        handle: layout::bytes32(x, HANDLE),
        counts: counts(x),
    }
}

// Whether the counts of the users from `from` to 15 are all 0: whether all of their bytes are.
fn zero_from(x: &[u8], from: u8) -> bool
    ensures { result ≡ every (λ v. eqb (count_of x.now v) 0) from (16 - from) }
{
    layout::zero_between(x, COUNTS + 4 * (from as usize), SIZE)
}

// Whether the record is well formed where there are `users` users.
#[tactic(auto, unfolding(protocol::specs::Version::well_formed))]
pub fn well_formed(users: u8, x: &[u8]) -> bool
    ensures { result ≡ well_formed users x.now }
{
    layout::byte_at(x, KIND) == 1 && owner(x) < users && own_count(x) != 0 && zero_from(x, users)
}

// Whether this is the length of no structure or of one.
pub fn none_or_one(len: usize) -> bool
    ensures { (result ≡ true → (len ≡ 0) ⊎ (len ≡ size)) × ((len ≡ 0) ⊎ (len ≡ size) → result ≡ true) }
{
    len == 0 || len == SIZE
}

// Whether there is no current structure, or it is well formed and the user's own.
#[tactic(auto, unfolding(protocol::specs::Check::remembers))]
pub fn remembered(users: u8, user: u8, memory: &[u8]) -> bool
    ensures { result ≡ remembers users user memory.now }
{
    memory.is_empty() || (well_formed(users, memory) && owner(memory) == user)
}

// Whether `user` is one of `users` users, and there are 1 to 16.
pub fn is_user(users: u8, user: u8) -> bool
    ensures { (result ≡ true → Users users user) × (Users users user → result ≡ true) }
{
    users <= 16 && user < users
}

// How the counts of one structure stand to those of another: all are equal; it is strictly before; it
// is strictly after; or neither is at or before the other.
#[derive(Clone, Copy, PartialEq, Eq, Debug)]
pub enum Standing {
    Equal,
    Before,
    After,
    Apart,
}

// How the counts of x stand to those of y: the one comparison of structures, of any sixteen counts
// with any sixteen. No count ends the loop, so that the compiler compares four at a time.
pub fn compare(x: [u32; 16], y: [u32; 16]) -> Standing
    ensures { standing_as result ≡ standing (count_in x) (count_in y) }
{
    let mut at_most = true;
    let mut at_least = true;
    for v in 0..16 {
        at_most &= x[v] <= y[v];
        at_least &= y[v] <= x[v];
    }
    match (at_most, at_least) {
        (true, true) => Standing::Equal,
        (true, false) => Standing::Before,
        (false, true) => Standing::After,
        (false, false) => Standing::Apart,
    }
}
