// The answers, written once all questions are judged: what the last block of each path says.
ghost use Rattle.std.specs.Prelude.{◌≡◌, ℕ, ◌*◌, ◌≤◌, ◌<◌, length, get_or};
ghost use Rattle.itable.specs.Block.{size};
ghost use Rattle.itable.specs.Many.{total, entry_size, entry_bytes};
ghost use Rattle.itable.specs.Internal.Many.{entries_from, entry_at};
ghost use Rattle.many.specs.Internal.Judged.{entry_to};

use crate::ENTRY;

// What the block says of the i-number, as 33 bytes.
fn entry(b: &[u8], number: u64) -> [u8; ENTRY]
    ensures { result ≡ entry_bytes (entry_at b.now number) }
{
    let mut out = [0u8; ENTRY];
    if block::kind(b) != block::LEAF {
        return out;
    }
    let Some(j) = block::slot_of(b, number) else {
        return out;
    };
    let handle = block::value(b, j);
    out[0] = 1;
    layout::copy(&handle, &mut out[1..ENTRY]);
    out
}

// Writes the answer to each question at its own place in the buffer.
pub(crate) fn write(numbers: &[u64], counts: &[u8], paths: &[u8], out: &mut [u8])
    requires { (length numbers.now ≡ length counts.now) × (size * total counts.now ≡ length paths.now) ×
        (length out.old ≡ entry_size * length numbers.now) ×
        ((q : ℕ) → q < length numbers.now → 1 ≤ get_or counts.now q 0) }
    ensures { out.new ≡
        entries_from (entry_to numbers.now counts.now paths.now) 0 (length numbers.now) }
{
    let mut behind = 0;
    for (q, number) in numbers.iter().enumerate() {
        behind += usize::from(counts[q]);
        let at = block::SIZE * (behind - 1);
        let e = entry(&paths[at..at + block::SIZE], *number);
        let to = ENTRY * q;
        layout::copy(&e, &mut out[to..to + ENTRY]);
    }
}
