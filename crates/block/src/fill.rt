// One block, filled: the layout's writing half.
ghost use Rattle.std.specs.Prelude.{◌≡◌, ◌*◌, ◌≤◌, ◌++◌, length};
ghost use Rattle.layout.specs.Bytes.{bytes8};
ghost use Rattle.itable.specs.Table.{files, block};
ghost use Rattle.block.specs.Filled.{fits as fits_of, filled};

use crate::{FIRST_NUMBER, KIND, SIZE, SLOT, USED};

// Where the value stands in a slot, after the number.
const VALUE: usize = 8;

// Writes one slot: a number and its value.
fn slot(number: u64, value: &[u8], out: &mut [u8])
    requires { (length value.now ≡ 32) × (length out.old ≡ 40) }
    ensures { out.new ≡ bytes8 number ++ value.now }
{
    let b = layout::u64_bytes(number);
    layout::copy(&b, out);
    layout::copy(value, &mut out[VALUE..SLOT]);
}

// Writes the block with these entries, each a number and 32 bytes. All of its bytes are written.
fn entries(kind: u8, numbers: &[u64], values: &[u8], out: &mut [u8])
    requires { (length numbers.now ≤ 16) × (length values.now ≡ 32 * length numbers.now) × (length out.old ≡ 642) }
    ensures { out.new ≡ block kind (files numbers.now values.now) 0 }
{
    let u = numbers.len();
    out[KIND] = kind;
    out[USED] = u as u8;
    for (j, number) in numbers.iter().enumerate() {
        let from = 32 * j;
        let at = FIRST_NUMBER + SLOT * j;
        slot(*number, &values[from..from + 32], &mut out[at..at + SLOT]);
    }
    layout::clear(FIRST_NUMBER + SLOT * u, out);
}

// Whether these are the lengths of a block's numbers, values and bytes.
#[tactic(auto, unfolding(crate::specs::Filled::fits))]
fn fits(numbers: usize, values: usize, bytes: usize) -> bool
    ensures { result ≡ fits_of numbers values bytes }
{
    numbers <= 16 && values == 32 * numbers && bytes == SIZE
}

// Fills one block with these entries, each a number and 32 bytes. Gives whether the lengths are those of a
// block: at most 16 numbers, 32 bytes of value for each, and 642 bytes to fill. If so all of `out` is
// written, otherwise none of it.
// Kept: numbers and values are two slices as two buffers of a C caller are, and as the definition `filled` has them.
pub fn fill(kind: u8, numbers: &[u64], values: &[u8], out: &mut [u8]) -> bool
    ensures value { result ≡ fits_of (length numbers.now) (length values.now) (length out.old) }
    ensures out_after { out.new ≡ filled kind numbers.now values.now out.old }
{
    if !fits(numbers.len(), values.len(), out.len()) {
        return false;
    }
    entries(kind, numbers, values, out);
    true
}
