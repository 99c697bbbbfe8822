// The memory file, for C: pending, marked as sent, moved over and moved back.
ghost use Rattle.std.specs.Prelude.{◌≡◌, length};
ghost use Rattle.refusal.specs.Result.{left};
ghost use Rattle.refusal.specs.Word.{answer_word, plain_word};
ghost use Rattle.protocol.specs.MemoryFile.{over, back, back_into, sent, pend};

// The pending file of a structure that was made.
pub fn sundr_memory_pend(users: u8, user: u8, version: &[u8], file: &mut [u8]) -> u64
    ensures answer { result ≡ plain_word (pend users user version.now (length file.old)) }
    ensures buffer { file.new ≡ left (pend users user version.now (length file.old)) file.old }
{
    refusal::answer_word(memory::pend(users, user, version, file))
}

// A file marked as sent, if it is pending.
pub fn sundr_memory_sent(users: u8, user: u8, file: &mut [u8]) -> u64
    ensures answer { result ≡ plain_word (sent users user file.old) }
    ensures buffer { file.new ≡ left (sent users user file.old) file.old }
{
    refusal::answer_word(memory::sent(users, user, file))
}

// A memory of before there were files, moved over.
pub fn sundr_memory_over(users: u8, user: u8, old: &[u8], file: &mut [u8]) -> u64
    ensures answer { result ≡ plain_word (over users user old.now (length file.old)) }
    ensures buffer { file.new ≡ left (over users user old.now (length file.old)) file.old }
{
    refusal::answer_word(memory::over(users, user, old, file))
}

// A file moved back: the first result is how many bytes it gives, 98 or none.
pub fn sundr_memory_back(users: u8, user: u8, file: &[u8], old: &mut [u8]) -> u64
    ensures answer { result ≡ answer_word length (λ x. 0) (back users user file.now (length old.old)) }
    ensures buffer { old.new ≡ left (back_into users user file.now old.old) old.old }
{
    refusal::answer_word(memory::back(users, user, file, old))
}
