// The client's check of a version structure list: whether what the server sent is one history that
// goes on from the structure in the client's memory file, and the counts of the client's next structure
// if it is; or whether the server's list is one step behind the pending structure in the file, which is
// then to be sent again.
//
// The answer, its positions, the counts and the bytes are those of the definition `check_file` of the
// crate `protocol`, for every input. All that is lent is only read, and nothing is kept between calls:
// the structure is made of the counts, and signed, when the caller wants it. Signatures are not verified
// here: each record comes with a mark.
#![tactic(auto)]

mod forms;
mod next;
mod order;
mod records;
mod sizes;

ghost use Rattle.protocol.specs.MemoryFile.{check_file};
ghost use Rattle.std.specs.Prelude.{◌≡◌};
ghost use Rattle.client.specs.Judged.{told};

use refusal::Refusal;
use version::SIZE;

// What a check says that is not refused: the list is accepted, and these are the counts of the next structure;
// or it is not accepted, and these bytes, the structure in the file, are to be sent again.
#[derive(Clone, Copy)]
pub enum Verdict {
    Next([u32; 16]),
    Again([u8; SIZE]),
}

// The check of `list` for `user`, of `users` users (the desk's verdict).
//
// `file` is the client's memory file (100 bytes); `list` the server's records end to end; `marks` one byte
// for each record, 1 for a good signature. The caller owns every buffer, and none is written. A refusal is
// the first of the paper's order. Any lengths and any bytes are taken.
// Kept: users and user, list and marks come from C as they are here, and are judged in a fixed order.
pub fn check(
    users: u8,
    user: u8,
    file: &[u8],
    list: &[u8],
    marks: &[u8],
) -> Result<Verdict, Refusal>
    ensures { told result ≡ check_file users user file.now list.now marks.now }
{
    let list = sizes::sizes(users, user, list, marks)?;
    memory::given::given(users, user, file)?;
    forms::forms(users, &list, marks)?;
    order::order(user, memory::held(file), memory::pending(file), &list)
}
