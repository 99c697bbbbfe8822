// The client's check, for C.
ghost use Rattle.std.specs.Prelude.{◌≡◌, ℕ, length};
ghost use Rattle.refusal.specs.Order.{tried};
ghost use Rattle.refusal.specs.Refusal.{refusal};
ghost use Rattle.protocol.specs.Version.{size};
ghost use Rattle.sundr.specs.Check.{room_steps, check_into, verdict_word, counts_left, again_left};

use client::Verdict;
use refusal::Refusal;
use version::SIZE;

// Why there is no check where the array is of another length than sixteen, or the buffer of another than
// 98: the users are asked first.
fn no_room(users: u8, user: u8) -> Refusal
    ensures { (counts again : ℕ) → ((counts ≡ 16) × (again ≡ size) → ⊥) → tried (room_steps users user counts again) ≡ refusal result }
{
    if !version::is_user(users, user) {
        return Refusal::Users;
    }
    Refusal::Length(0)
}

// A client's check of a version structure list, on its memory file: the counts of its next structure,
// into sixteen lent numbers; or 255, and into 98 lent bytes the structure that is to be sent again.
// Kept: 0 and 255 are the C interface's numbers.
pub fn sundr_memory_check(
    users: u8,
    user: u8,
    file: &[u8],
    list: &[u8],
    marks: &[u8],
    counts: &mut [u32],
    again: &mut [u8],
) -> u64
    ensures answer { result ≡ verdict_word (check_into users user file.now list.now marks.now
        (length counts.old) (length again.old)) }
    ensures counts { counts.new ≡ counts_left (check_into users user file.now list.now marks.now
        (length counts.old) (length again.old)) counts.old }
    ensures again { again.new ≡ again_left (check_into users user file.now list.now marks.now
        (length counts.old) (length again.old)) again.old }
{
    if counts.len() != 16 {
        return refusal::refusal_word(no_room(users, user));
    }
    if again.len() != SIZE {
        return refusal::refusal_word(no_room(users, user));
    }
    match client::check(users, user, file, list, marks) {
        Ok(Verdict::Next(new)) => {
            counts.copy_from_slice(&new);
            0
        }
        Ok(Verdict::Again(bytes)) => {
            layout::copy(&bytes, again);
            255
        }
        Err(r) => refusal::refusal_word(r),
    }
}
