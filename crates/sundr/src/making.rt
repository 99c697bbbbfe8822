// The making step, for C.
ghost use Rattle.std.specs.Prelude.{◌≡◌, length};
ghost use Rattle.refusal.specs.Result.{left};
ghost use Rattle.refusal.specs.Word.{plain_word};
ghost use Rattle.protocol.specs.MemoryFile.{create_file};

// A client's next version structure, from its memory file and the counts that a check gave, into 98 lent bytes.
pub fn sundr_memory_create(
    users: u8,
    user: u8,
    file: &[u8],
    counts: &[u32],
    handle: &[u8],
    out: &mut [u8],
) -> u64
    ensures answer { result ≡ plain_word (create_file users user file.now counts.now handle.now
        (length out.old)) }
    ensures buffer { out.new ≡ left (create_file users user file.now counts.now handle.now
        (length out.old)) out.old }
{
    refusal::answer_word(create::create(users, user, file, counts, handle, out))
}
