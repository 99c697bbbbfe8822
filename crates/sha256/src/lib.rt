// SHA-256 as FIPS 180-4 defines it: the hash of every block, inode and i-table of this client.
//
// One call gives, for every input, either the standard's 32 bytes or a refusal by length; another
// says whether a hash is a message's. They allocate nothing and keep nothing between calls. They do
// not hash a message that arrives in parts, nor one that does not end on a whole byte, and do not
// wipe what they leave on the stack: no message hashed here is secret.
#![tactic(auto)]

mod block;
mod digest;
mod padding;
mod rounds;
mod word;

ghost use Rattle.std.specs.Prelude.{◌≡◌, length};
ghost use Rattle.refusal.specs.Result.{Gives};
ghost use Rattle.sha256.specs.Hash.{hash, is_hash};

use refusal::Refusal;

// The eight working variables, and a hash value's eight words.
#[derive(Clone, Copy)]
pub struct State {
    pub a: u32,
    pub b: u32,
    pub c: u32,
    pub d: u32,
    pub e: u32,
    pub f: u32,
    pub g: u32,
    pub h: u32,
}

// 4.2.2: the round constants.
const K: [u32; 64] = [
    0x428a2f98, 0x71374491, 0xb5c0fbcf, 0xe9b5dba5, 0x3956c25b, 0x59f111f1, 0x923f82a4, 0xab1c5ed5,
    0xd807aa98, 0x12835b01, 0x243185be, 0x550c7dc3, 0x72be5d74, 0x80deb1fe, 0x9bdc06a7, 0xc19bf174,
    0xe49b69c1, 0xefbe4786, 0x0fc19dc6, 0x240ca1cc, 0x2de92c6f, 0x4a7484aa, 0x5cb0a9dc, 0x76f988da,
    0x983e5152, 0xa831c66d, 0xb00327c8, 0xbf597fc7, 0xc6e00bf3, 0xd5a79147, 0x06ca6351, 0x14292967,
    0x27b70a85, 0x2e1b2138, 0x4d2c6dfc, 0x53380d13, 0x650a7354, 0x766a0abb, 0x81c2c92e, 0x92722c85,
    0xa2bfe8a1, 0xa81a664b, 0xc24b8b70, 0xc76c51a3, 0xd192e819, 0xd6990624, 0xf40e3585, 0x106aa070,
    0x19a4c116, 0x1e376c08, 0x2748774c, 0x34b0bcb5, 0x391c0cb3, 0x4ed8aa4a, 0x5b9cca4f, 0x682e6ff3,
    0x748f82ee, 0x78a5636f, 0x84c87814, 0x8cc70208, 0x90befffa, 0xa4506ceb, 0xbef9a3f7, 0xc67178f2,
];

// The bytes of the longest message that is hashed.
const LONGEST: usize = 65536;

// Writes the SHA-256 hash of `message` to `out`. Both are the caller's; the message is only read,
// and `out` is written once, after all of the message has been read. A message of over 65,536
// bytes, or an `out` that is not of 32, is refused by length, and `out` is then as it was.
pub fn sha256(message: &[u8], out: &mut [u8]) -> Result<(), Refusal>
    ensures { Gives (hash message.now (length out.old)) out.old out.new result }
{
    if message.len() > LONGEST || out.len() != 32 {
        return Err(Refusal::Length(0));
    }
    digest::write(out, padding::hash_value(message));
    Ok(())
}

// Whether `wanted` is the SHA-256 hash of `message`, all its 32 bytes. Both are only read. Of a
// message of over 65,536 bytes no hash is. It is a call of its own, so that the 32 bytes that are compared take
// no room on the stack beside what its callers hold.
#[inline(never)]
pub fn is_hash(message: &[u8], wanted: &[u8]) -> bool
    ensures { result ≡ is_hash message.now wanted.now }
{
    let mut digest = [0u8; 32];
    sha256(message, &mut digest).is_ok() && layout::equal(&digest, wanted)
}
