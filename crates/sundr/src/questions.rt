// Many lookups in one call, for C.
ghost use Rattle.std.specs.Prelude.{List, ◌≡◌, ℕ, length};
ghost use Rattle.refusal.specs.Result.{left};
ghost use Rattle.refusal.specs.Word.{plain_word};
ghost use Rattle.itable.specs.Many.{many as many_of};
ghost use Rattle.many.specs.Outcome.{answer_of};

use many::AtQuestion;
use refusal::Told;

// The answer of many lookups as a number: a question's refusal has the question's index first, and
// the position in its path second.
// Kept: not by `answer_word`, since the C interface tells a question's refusal by other places than any other call's.
fn outcome_word(answer: Result<(), AtQuestion>) -> u64
    ensures { (out : List ℕ) → result ≡ plain_word (answer_of out answer) }
{
    match answer {
        Ok(()) => refusal::word(0, 0, 0),
        Err(at) => {
            let told = Told::from(at.refusal);
            refusal::word(told.number, at.question, told.first)
        }
    }
}

// The handles of up to 64 files, each along its own path of an i-table's blocks, into 33 lent bytes
// for each.
pub fn sundr_lookup_many(
    handle: &[u8],
    numbers: &[u64],
    counts: &[u8],
    paths: &[u8],
    out: &mut [u8],
) -> u64
    ensures answer { result ≡ plain_word (many_of handle.now numbers.now counts.now paths.now
        (length out.old)) }
    ensures buffer { out.new ≡ left (many_of handle.now numbers.now counts.now paths.now
        (length out.old)) out.old }
{
    outcome_word(many::lookup(handle, numbers, counts, paths, out))
}
