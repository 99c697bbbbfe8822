// Refusals: why a call gives no result, the error of every call's `Result`. One variant for each number that the layouts' paper
// fixes, holding the positions that the paper names for it. What number and which positions
// a variant stands for is said once, in specs/Refusal.antt, and every contract cites that.
//
// Numbers 18 and 19 are kept for what is planned above this base.
#![tactic(auto)]

ghost use Rattle.std.specs.Prelude.{◌≡◌, ℕ};
ghost use Rattle.refusal.specs.Answer.{refused};
ghost use Rattle.refusal.specs.Refusal.{refusal, said};
ghost use Rattle.refusal.specs.Word.{word as word_of, answer_word as answer_word_of, plain_word};

// The refusals, in the order of their numbers, 1 to 17.
#[derive(Clone, Copy)]
pub enum Refusal {
    // 1: the number of users is not 1 to 16, or the user is not below it; of a block store, above 15.
    Users,
    // 2: a length is not the stated one.
    Length(usize),
    // 3: a record, the order of owners, a count, a memory file, a block, an inode or a place of a store is not well formed.
    Malformed(usize),
    // 4: a signature mark is not 1.
    Unsigned(usize),
    // 5: the own version is not the current one.
    NotCurrent,
    // 6: the own version number is the last there is.
    LastVersion,
    // 7: two version structures are not ordered.
    Unordered(usize, usize),
    // 8: a hash is not the expected one.
    WrongHash(usize),
    // 9: a path is too short or too long.
    PathLength(usize),
    // 10: the file has no such block.
    NoBlock,
    // 11: an i-number is not above the one before.
    NotAscending(usize),
    // 12: the buffer is shorter than what is to be written.
    NoRoom,
    // 13: no place of the block store is free, and one is needed.
    NoPlace,
    // 14: the user's count of the block is the last there is.
    LastReference,
    // 15: no place of the block store holds the hash.
    NotHeld,
    // 16: the own count is not one more than the remembered one.
    NotNext,
    // 17: a memory file is moved back while it is pending.
    Pending,
}

// A refusal's number and both positions.
#[derive(Clone, Copy)]
pub struct Told {
    pub number: u8,
    pub first: usize,
    pub second: usize,
}

// A line of the paper's table.
fn row(number: u8, first: usize, second: usize) -> Told
    ensures { result ≡ record { number = number; first = first; second = second } }
{
    Told {
        number,
        first,
        second,
    }
}

// The number and the positions of a refusal, as the paper's table has them.
impl From<Refusal> for Told {
    ghost from_gives = { λ r told. refusal {A = Unit} r ≡ refused told.number told.first told.second };

    fn from(r: Refusal) -> Told {
        match r {
            Refusal::Users => row(1, 0, 0),
            Refusal::Length(p) => row(2, p, 0),
            Refusal::Malformed(p) => row(3, p, 0),
            Refusal::Unsigned(p) => row(4, p, 0),
            Refusal::NotCurrent => row(5, 0, 0),
            Refusal::LastVersion => row(6, 0, 0),
            Refusal::Unordered(p, q) => row(7, p, q),
            Refusal::WrongHash(p) => row(8, p, 0),
            Refusal::PathLength(p) => row(9, p, 0),
            Refusal::NoBlock => row(10, 0, 0),
            Refusal::NotAscending(p) => row(11, p, 0),
            Refusal::NoRoom => row(12, 0, 0),
            Refusal::NoPlace => row(13, 0, 0),
            Refusal::LastReference => row(14, 0, 0),
            Refusal::NotHeld => row(15, 0, 0),
            Refusal::NotNext => row(16, 0, 0),
            Refusal::Pending => row(17, 0, 0),
        }
    }
}

// An answer as one number, for callers in C: a refusal's number, or 0, and two positions or results.
// A position is taken modulo 2^24, a second one modulo 2^32; no call has any as large.
pub fn word(number: u8, first: usize, second: usize) -> u64
    ensures { result ≡ word_of number first second }
{
    number as u64 + 256 * (first as u64 % 16777216) + 4294967296 * (second as u64 % 4294967296)
}

// A refusal as such a number.
pub fn refusal_word(r: Refusal) -> u64
    ensures { result ≡ plain_word {A = Unit} (refusal r) }
{
    let t = Told::from(r);
    word(t.number, t.first, t.second)
}

// What a call gives where it doesn't refuse, as the two small results that its number has room for.
pub trait Results: Copy {
    ghost first: { Self → ℕ };

    ghost second: { Self → ℕ };

    fn results(self) -> (usize, usize)
        ensures { result ≡ (first self, second self) };
}

// Nothing is told but that the call passed.
impl Results for () {
    ghost first = { λ _. 0 };

    ghost second = { λ _. 0 };

    fn results(self) -> (usize, usize) {
        (0, 0)
    }
}

// A number is the first result.
impl Results for usize {
    ghost first = { λ n. n };

    ghost second = { λ _. 0 };

    fn results(self) -> (usize, usize) {
        (self, 0)
    }
}

// A call's answer as such a number.
pub fn answer_word<R: Results>(answer: Result<R, Refusal>) -> u64
    ensures { result ≡ answer_word_of R.first R.second (said answer) }
{
    match answer {
        Ok(given) => {
            let (first, second) = given.results();
            word(0, first, second)
        }
        Err(r) => refusal_word(r),
    }
}
