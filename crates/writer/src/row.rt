// Rows of blocks: the leaves over the files, and inner blocks over a row that is written already.
ghost use Rattle.std.specs.Prelude.{◌≡◌, ◌*◌, ◌≤◌, length};
ghost use Rattle.layout.specs.Bytes.{parts};
ghost use Rattle.itable.specs.Table.{files, row, wide};
ghost use Rattle.writer.specs.Internal.Children.{children, ReadBack};

use crate::count;
use block::{LEAF, SIZE, fill};

// Writes the leaves over the files, which fill the buffer.
pub(crate) fn leaves(numbers: &[u64], handles: &[u8], out: &mut [u8])
    requires handles_len { length handles.now ≡ 32 * length numbers.now }
    requires out_len { length out.old ≡ 642 * wide (length numbers.now) }
    ensures { out.new ≡ row 3 (files numbers.now handles.now) 0 (wide (length numbers.now)) }
{
    let n = numbers.len();
    for k in 0..count::wide(n) {
        let u = count::used_in(n, k);
        let a = 16 * k;
        let b = 512 * k;
        let at = SIZE * k;
        fill::fill(
            LEAF,
            &numbers[a..a + u],
            &handles[b..b + 32 * u],
            &mut out[at..at + SIZE],
        );
    }
}

// Reads blocks back, 16 at most: the first number and the hash of each.
fn read_back(blocks: &[u8], numbers: &mut [u64], hashes: &mut [u8])
    requires few { parts 642 blocks.now ≤ 16 }
    requires numbers_len { length numbers.old ≡ 16 }
    requires hashes_len { length hashes.old ≡ 512 }
    ensures { ReadBack blocks.now (parts 642 blocks.now) numbers.new hashes.new }
{
    for j in 0..blocks.len() / SIZE {
        let a = SIZE * j;
        let b = 32 * j;
        numbers[j] = block::number(&blocks[a..a + SIZE], 0);
        let _ = sha256::sha256(&blocks[a..a + SIZE], &mut hashes[b..b + 32]);
    }
}

// Writes blocks of a kind over the row below, as many as fill the buffer. It is a call of its own, which a table of one block
// does not pay for.
#[inline(never)]
fn fill_over(kind: u8, below: &[u8], out: &mut [u8])
    requires most { parts 642 out.old ≤ wide (parts 642 below.now) }
    requires whole { length out.old ≡ 642 * parts 642 out.old }
    ensures { out.new ≡ row kind (children below.now 0 (parts 642 below.now)) 0 (parts 642 out.old) }
{
    let n = below.len() / SIZE;
    // Kept: two arrays side by side, since `block::fill` takes numbers and values as two slices.
    let mut numbers = [0u64; 16];
    let mut hashes = [0u8; 512];
    for k in 0..out.len() / SIZE {
        let u = count::used_in(n, k);
        let a = SIZE * (16 * k);
        read_back(&below[a..a + SIZE * u], &mut numbers, &mut hashes);
        let at = SIZE * k;
        fill::fill(
            kind,
            &numbers[..u],
            &hashes[..32 * u],
            &mut out[at..at + SIZE],
        );
    }
}

// The same. Over a root there is no row, and then no array is cleared.
pub(crate) fn inner(kind: u8, below: &[u8], out: &mut [u8])
    requires most { parts 642 out.old ≤ wide (parts 642 below.now) }
    requires whole { length out.old ≡ 642 * parts 642 out.old }
    ensures { out.new ≡ row kind (children below.now 0 (parts 642 below.now)) 0 (parts 642 out.old) }
{
    if out.is_empty() {
        return;
    }
    fill_over(kind, below, out);
}
