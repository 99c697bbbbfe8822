// What the desk program prints of an input, as bytes in a lent buffer: `input` alone where the input
// is of another form; else `desk U of N`, and `accept` with the new counts of users 0 to N-1 or
// `refuse` with the refusal's number and both positions. It reads and prints nothing itself.
//
// The lines stand in specs/Printed.antt. What is written is that, for every input of any length.
#![tactic(auto)]

mod lines;
mod text;

ghost use Rattle.std.specs.Prelude.{ℕ, List, ◌≤◌, ◌≡◌, length};
ghost use Rattle.input.specs.Form.{users, user};
ghost use Rattle.input.specs.Report.{judgement, Reports};
ghost use Rattle.refusal.specs.Result.{left};
ghost use Rattle.report.specs.Printed.{printed};
ghost use Rattle.refusal.specs.Refusal.{said};
ghost use Rattle.report.specs.Print.{printed_given, printing};

use arrayvec::ArrayString;
use input::Report;
use refusal::Refusal;

// The bytes that are enough for any output.
pub const MOST: usize = 393;

// Writes the lines of a report to the front of `out`. It is a call of its own, and so is the judging, so that the text
// takes no room on the stack beside what is judged.
#[inline(never)]
fn write(report: &Report, out: &mut [u8]) -> Result<usize, Refusal>
    ensures { (input : List ℕ) → Reports (judgement input) (users input) (user input) report.now →
        (said result ≡ printed_given input (length out.old))
        × (out.new ≡ left (printing input out.old) out.old) × (length (printed input) ≤ 393) }
{
    let mut text = ArrayString::new();
    lines::report(report, &mut text);
    let n = text.len();
    if out.len() < n {
        return Err(Refusal::NoRoom);
    }
    layout::copy(text.as_str().as_bytes(), out);
    Ok(n)
}

// Writes what is said of the input to the front of `out`, and keeps the bytes after it. Refused
// where `out` is too short for it, and then all of `out` is kept; 393 bytes are enough for any input.
//
// Any bytes of any length are taken, and nothing is kept.
pub fn print(input: &[u8], out: &mut [u8]) -> Result<usize, Refusal>
    ensures answers { said result ≡ printed_given input.now (length out.old) }
    ensures leaves { out.new ≡ left (printing input.now out.old) out.old }
    ensures short { length (printed input.now) ≤ 393 }
{
    write(&input::judge(input), out)
}
