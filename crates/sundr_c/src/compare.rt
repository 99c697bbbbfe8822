// The comparison of two structures' counts, for C.
ghost use Rattle.std.specs.Prelude.{◌≡◌};
ghost use Rattle.refusal.specs.Word.{answer_word};
ghost use Rattle.sundr.specs.Compare.{standing_number, compared};

use sundr::compare;

// How sixteen counts stand to sixteen others. Both are lent by their addresses alone: there is no
// length, and so nothing to refuse.
#[unsafe(no_mangle)]
pub extern "C" fn sundr_compare(x: &[u32; 16], y: &[u32; 16]) -> u64
    ensures { result ≡ answer_word standing_number (λ s. 0) (compared x.now y.now) }
{
    compare::sundr_compare(x, y)
}
