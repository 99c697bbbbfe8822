// The making step: the client's next version structure, from the counts that a check gave, the memory file
// and the new i-handle.
//
// The answer and the written bytes are those of the definition `create_file` of the crate `protocol`, for
// every input; a file that is sent and one that is pending are the same to it. No list and no order is
// judged here: counts of other users that are lower than the current structure's are written as they are.
// Whether the counts are those of a check, and whether the server's list has gone on since, the caller has
// to see to, and that the structure is written as pending before the next call. Nothing is kept between calls.
#![tactic(auto)]

mod counts;
mod lengths;
mod record;

ghost use Rattle.std.specs.Prelude.{length};
ghost use Rattle.protocol.specs.MemoryFile.{create_file};
ghost use Rattle.refusal.specs.Result.{Gives};

use refusal::Refusal;

// The next version structure of `user`, of `users` users, with these sixteen counts.
//
// `file` is the client's memory file (100 bytes); `counts` what the check gave, one number for each of the
// users 0 to 15; `handle` the new i-handle (32 bytes). The caller owns every buffer, and nothing is kept.
// Passed: `out` (98 bytes) holds the structure, to be signed. Refused, with the first refusal of its
// order: no byte of `out` is changed. Any lengths, any bytes and any numbers are taken.
// Kept: `users` and `user` come as two numbers from C, and a struct of both would be taken apart at once (refusal 1 compares them).
pub fn create(
    users: u8,
    user: u8,
    file: &[u8],
    counts: &[u32],
    handle: &[u8],
    out: &mut [u8],
) -> Result<(), Refusal>
    ensures { Gives
        (create_file users user file.now counts.now handle.now (length out.old))
        out.old out.new result }
{
    lengths::lengths(users, user, counts, handle, out.len())?;
    memory::given::given(users, user, file)?;
    counts::counts(users, user, memory::held(file), counts)?;
    record::write(user, handle, counts, out);
    Ok(())
}
