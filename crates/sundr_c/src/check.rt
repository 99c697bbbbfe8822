// The client's check, for C.
ghost use Rattle.std.specs.Prelude.{◌≡◌, length};
ghost use Rattle.sundr.specs.Check.{check_into, verdict_word, counts_left, again_left};

use sundr::check;

// A client's check of a version structure list, on its memory file: the counts of its next structure,
// into sixteen lent numbers; or 255, and into 98 lent bytes the structure that is to be sent again.
#[unsafe(no_mangle)]
pub extern "C" fn sundr_memory_check(
    users: u8,
    user: u8,
    file: &[u8],
    list: &[u8],
    marks: &[u8],
    counts: &mut [u32],
    again: &mut [u8],
) -> u64
    ensures answer { result ≡ verdict_word (check_into users user file.now list.now marks.now
        (length counts.old) (length again.old)) }
    ensures counts { counts.new ≡ counts_left (check_into users user file.now list.now marks.now
        (length counts.old) (length again.old)) counts.old }
    ensures again { again.new ≡ again_left (check_into users user file.now list.now marks.now
        (length counts.old) (length again.old)) again.old }
{
    check::sundr_memory_check(users, user, file, list, marks, counts, again)
}
