// The comparison of two structures' counts, for C.
ghost use Rattle.std.specs.Prelude.{◌≡◌};
ghost use Rattle.refusal.specs.Word.{answer_word};
ghost use Rattle.version.specs.Version.{standing_as};
ghost use Rattle.sundr.specs.Compare.{standing_number, compared};

use version::Standing;

// The number that tells how they stand.
// Kept: a `match` and no `From`, since the numbers are those of the C interface, and neither type is this crate's.
fn number(s: Standing) -> usize
    ensures { result ≡ standing_number (standing_as s) }
{
    match s {
        Standing::Equal => 0,
        Standing::Before => 1,
        Standing::After => 2,
        Standing::Apart => 3,
    }
}

// How sixteen counts stand to sixteen others. Both are lent by their addresses alone: there is no
// length, and so nothing to refuse.
pub fn sundr_compare(x: &[u32; 16], y: &[u32; 16]) -> u64
    ensures { result ≡ answer_word standing_number (λ s. 0) (compared x.now y.now) }
{
    refusal::word(0, number(version::compare(*x, *y)), 0)
}
