// Numbers, each written after what a text already holds.
ghost use Rattle.std.specs.Prelude.{◌≡◌, ◌+◌, ◌≤◌, ◌++◌, take};
ghost use Rattle.arrayvec.specs.ArrayString.{array_string_len};
ghost use Rattle.report.specs.Printed.{spaced, all_spaced};

use crate::MOST;
use arrayvec::ArrayString;

// An output, as far as it is written.
pub(crate) type Text = ArrayString<MOST>;

// A number, a space before it: no u64 takes more than 20 digits.
// Kept: each function asks for the room of what it writes, as `push_str` does: there is no one fact to put into a type.
pub(crate) fn number(n: u64, text: &mut Text)
    requires { array_string_len text.old + 21 ≤ 393 }
    ensures appended { text.new.bytes ≡ text.old.bytes ++ spaced n }
    ensures upper_bound { array_string_len text.new ≤ array_string_len text.old + 21 }
{
    let mut digits = itoa::Buffer::new();
    text.push_str(" ");
    text.push_str(digits.format(n));
}

// The first of sixteen counts, as many as there are users, a space before each.
pub(crate) fn counts(users: u8, counts: &[u32; 16], text: &mut Text)
    requires { array_string_len text.old + 336 ≤ 393 }
    ensures appended { text.new.bytes ≡ text.old.bytes ++ all_spaced (take users counts.now) }
    ensures upper_bound { array_string_len text.new ≤ array_string_len text.old + 336 }
{
    let n = counts.len().min(users as usize);
    for &count in &counts[..n] {
        number(count as u64, text);
    }
}
