// The hash, for C.
ghost use Rattle.std.specs.Prelude.{◌≡◌, length};
ghost use Rattle.refusal.specs.Result.{left};
ghost use Rattle.refusal.specs.Word.{plain_word};
ghost use Rattle.sha256.specs.Hash.{hash};

// SHA-256 of a message of up to 65,536 bytes, into 32 lent bytes.
pub fn sundr_sha256(message: &[u8], out: &mut [u8]) -> u64
    ensures answer { result ≡ plain_word (hash message.now (length out.old)) }
    ensures buffer { out.new ≡ left (hash message.now (length out.old)) out.old }
{
    refusal::answer_word(sha256::sha256(message, out))
}
