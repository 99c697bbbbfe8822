// Up to sixty-four lookups in one call: each i-number is looked up along its own path, under one
// i-handle, and the answers are those of the single lookups, in the order asked; or the first that
// is refused refuses the call. All questions are judged before anything is written.
//
// Paths of one table share blocks, and equal bytes have equal hashes. So a block that is byte for
// byte the last one consulted at its depth is not hashed again. Only its hash is remembered, never
// what was judged of it, and nothing beyond the call.
#![tactic(auto)]

mod entries;
mod walk;

ghost use Rattle.std.specs.Prelude.{◌≡◌, true, ◌↔◌, ◌*◌, eqb, length};
ghost use Rattle.refusal.specs.Result.{left};
ghost use Rattle.itable.specs.Block.{size};
ghost use Rattle.itable.specs.Many.{total, many};
ghost use Rattle.itable.specs.ManyMeaning.{ManySizes};
ghost use Rattle.many.specs.Outcome.{answer_of};
ghost use Rattle.many.specs.Internal.Judged.{Judged};

use refusal::Refusal;

// The most questions of a call, and the bytes of an answer.
const QUESTIONS: usize = 64;

const ENTRY: usize = 33;

// Why a call answers no question: the first whose lookup is refused, and its refusal. A length of the
// whole call is refused at question 0, which is how the papers tell it.
#[derive(Clone, Copy)]
pub struct AtQuestion {
    pub question: usize,
    pub refusal: Refusal,
}

// What is known of a block: its index in the paths, and its hash.
#[derive(Clone, Copy)]
struct Known {
    at: usize,
    hash: [u8; 32],
}

// Whether this many bytes are the blocks of these counts. What is left is counted down, so that no
// sum is too large: with `sum` or `fold` one could be.
fn fills(counts: &[u8], bytes: usize) -> bool
    ensures { result ≡ eqb (size * total counts.now) bytes }
{
    let mut rest = bytes;
    for count in counts {
        let n = block::SIZE * usize::from(*count);
        if rest < n {
            return false;
        }
        rest -= n;
    }
    rest == 0
}

// Whether all lengths are the stated ones.
fn sized(handle: &[u8], numbers: &[u64], counts: &[u8], paths: &[u8], room: usize) -> bool
    ensures { (result ≡ true) ↔ ManySizes handle.now numbers.now counts.now paths.now room }
{
    handle.len() == 32
        && numbers.len() == counts.len()
        && numbers.len() <= QUESTIONS
        && room == ENTRY * numbers.len()
        && fills(counts, paths.len())
}

// Looks up each question in its turn, up to the first that is refused.
fn judge(handle: &[u8], numbers: &[u64], counts: &[u8], paths: &[u8]) -> Result<(), AtQuestion>
    requires { (length handle.now ≡ 32) × (length numbers.now ≡ length counts.now) ×
        (size * total counts.now ≡ length paths.now) }
    ensures { Judged handle.now numbers.now counts.now paths.now result }
{
    // Nothing is known yet.
    let mut known = [None; 3];
    let mut first = 0;
    for (q, number) in numbers.iter().enumerate() {
        let n = usize::from(counts[q]);
        walk::ask(handle, *number, paths, first, n, &mut known).map_err(|refusal| AtQuestion {
            question: q,
            refusal,
        })?;
        first += n;
    }
    Ok(())
}

// Looks up the i-numbers in one call. `counts` has the number of blocks of each path, `paths` the
// paths end to end, and `out` gets 33 bytes for each question: 1 and the handle, or zeros where the
// i-number is absent. Where the call is refused nothing is written.
// Kept: numbers and counts are two slices as two buffers of the C call are, and as `many` of itable/specs has them.
pub fn lookup(
    handle: &[u8],
    numbers: &[u64],
    counts: &[u8],
    paths: &[u8],
    out: &mut [u8],
) -> Result<(), AtQuestion>
    ensures answers { answer_of out.new result ≡
        many handle.now numbers.now counts.now paths.now (length out.old) }
    ensures leaves { out.new ≡ left
        (many handle.now numbers.now counts.now paths.now (length out.old))
        out.old }
{
    if !sized(handle, numbers, counts, paths, out.len()) {
        return Err(AtQuestion {
            question: 0,
            refusal: Refusal::Length(0),
        });
    }
    judge(handle, numbers, counts, paths)?;
    entries::write(numbers, counts, paths, out);
    Ok(())
}
