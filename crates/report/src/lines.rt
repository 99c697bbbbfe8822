// The lines of a report. Each is written after the one before it.
ghost use Rattle.std.specs.Prelude.{◌≡◌, ℕ, ◌+◌, ◌≤◌, [], ◌++◌};
ghost use Rattle.arrayvec.specs.ArrayString.{array_string_len};
ghost use Rattle.refusal.specs.Refusal.{refusal as refusal_of};
ghost use Rattle.input.specs.Report.{told};
ghost use Rattle.report.specs.Printed.{desk_line, answer_line, accept_line, lines};

use crate::text::{Text, counts, number};
use input::Report;
use refusal::{Refusal, Told};

// The first line, `desk U of N`.
fn desk(user: u8, users: u8, text: &mut Text)
    requires { array_string_len text.old + 50 ≤ 393 }
    ensures appended { text.new.bytes ≡ text.old.bytes ++ desk_line user users }
    ensures upper_bound { array_string_len text.new ≤ array_string_len text.old + 50 }
{
    text.push_str("desk");
    number(user as u64, text);
    text.push_str(" of");
    number(users as u64, text);
    text.push_str("\n");
}

// The second line where the check accepts, `accept` and the counts.
fn accept(users: u8, all: &[u32; 16], text: &mut Text)
    requires { array_string_len text.old + 343 ≤ 393 }
    ensures appended { text.new.bytes ≡ text.old.bytes ++ accept_line users all.now }
    ensures upper_bound { array_string_len text.new ≤ array_string_len text.old + 343 }
{
    text.push_str("accept");
    counts(users, all, text);
    text.push_str("\n");
}

// The second line where it refuses, `refuse`, the number and both positions.
fn refuse(refusal: Refusal, text: &mut Text)
    requires { array_string_len text.old + 70 ≤ 393 }
    ensures by_index { (N : ℕ) → text.new.bytes ≡ text.old.bytes ++ answer_line N (refusal_of refusal) }
    ensures upper_bound { array_string_len text.new ≤ array_string_len text.old + 70 }
{
    let told = Told::from(refusal);
    text.push_str("refuse");
    number(told.number as u64, text);
    number(told.first as u64, text);
    number(told.second as u64, text);
    text.push_str("\n");
}

// All lines of a report.
pub(crate) fn report(report: &Report, text: &mut Text)
    requires { text.old.bytes ≡ [] }
    ensures { text.new.bytes ≡ lines report.now.users report.now.user (told report.now.judged) }
{
    match &report.judged {
        None => text.push_str("input\n"),
        Some(judged) => {
            desk(report.user, report.users, text);
            match judged {
                Ok(counts) => accept(report.users, counts, text),
                Err(refusal) => refuse(*refusal, text),
            }
        }
    }
}
