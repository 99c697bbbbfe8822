// The writer of an i-table: the blocks of a table of files, leaves first and the root last, into a
// lent buffer. All tests come before the first store. The i-handle is the hash of the last block,
// which the caller takes; nothing is read but what is lent, and nothing is kept between calls.
#![tactic(auto)]

mod count;
mod row;

ghost use Rattle.std.specs.Prelude.{◌≡◌, not, length};
ghost use Rattle.search.specs.Search.{first};
ghost use Rattle.refusal.specs.Refusal.{said};
ghost use Rattle.refusal.specs.Order.{tried};
ghost use Rattle.itable.specs.Write.{number_above, write_steps};
ghost use Rattle.writer.specs.Written.{Writes};

use block::SIZE;
use refusal::Refusal;

// The most files that a table has.
const MOST: usize = 4096;

// The first place whose i-number is not above the one before, if there is one.
fn not_above(numbers: &[u64]) -> Option<usize>
    ensures { result ≡ first (λ i. not (number_above numbers.now i)) 0 (length numbers.now) }
{
    for i in 1..numbers.len() {
        if numbers[i] <= numbers[i - 1] {
            return Some(i);
        }
    }
    None
}

// The tests, in their order. A product is formed where its factors are known to be small.
fn admit(numbers: &[u64], handles: &[u8], room: usize) -> Result<(), Refusal>
    ensures { said result ≡ tried (write_steps numbers.now handles.now room) }
{
    let n = numbers.len();
    if MOST < n || handles.len() != 32 * n {
        return Err(Refusal::Length(0));
    }
    let whole = SIZE * count::blocks(n);
    if let Some(i) = not_above(numbers) {
        return Err(Refusal::NotAscending(i));
    }
    if room < whole {
        return Err(Refusal::NoRoom);
    }
    Ok(())
}

// Writes the blocks of a table of files to the front of `out`, each of 642 bytes, and gives their
// number. The i-numbers strictly ascend, `handles` has 32 bytes for each of them, and there are at
// most 4,096. What stands in `out` after the last block is kept; a refused call keeps all of it.
// Kept: numbers and handles are two slices as two buffers of the C interface are.
pub fn write(numbers: &[u64], handles: &[u8], out: &mut [u8]) -> Result<usize, Refusal>
    ensures { Writes numbers.now handles.now out.old out.new result }
{
    admit(numbers, handles, out.len())?;
    let l = count::wide(numbers.len());
    let f = count::over(l);
    let v = count::over(f);
    let (leaves, rest) = out.split_at_mut(SIZE * l);
    let (fours, rest) = rest.split_at_mut(SIZE * f);
    let (fives, _) = rest.split_at_mut(SIZE * v);
    row::leaves(numbers, handles, leaves);
    // Kept: a kind is a byte of the block, as `block::fill` takes it and `row` (itable) says it.
    row::inner(4, leaves, fours);
    row::inner(5, fours, fives);
    Ok(l + f + v)
}
