// The message's whole blocks, and the one or two that the padding makes of the rest.
ghost use Rattle.std.specs.Prelude.{◌≡◌, ◌/◌, ◌≤◌, length};
ghost use Rattle.sha256.specs.Sha256.{H0, hashed, padded};

use crate::{State, block, digest};

// 5.3.3: the initial hash value.
fn initial() -> State
    ensures { result ≡ H0 }
{
    State {
        a: 0x6a09e667,
        b: 0xbb67ae85,
        c: 0x3c6ef372,
        d: 0xa54ff53a,
        e: 0x510e527f,
        f: 0x9b05688c,
        g: 0x1f83d9ab,
        h: 0x5be0cd19,
    }
}

// The hash value after the whole blocks of the message, each lent where it stands.
fn blocks(message: &[u8]) -> State
    ensures { result ≡ hashed message.now (length message.now / 64) }
{
    let mut s = initial();
    for part in message.chunks_exact(64) {
        s = block::compress(s, part);
    }
    s
}

// The hash value after the padding too, from that after the whole blocks. The length field stands
// at the end of the block that the rest opens, or of one more where less than its eight bytes are
// free. Of these the first four are zeros, since the length in bits is below 2^32. One buffer
// serves for both blocks, and one state from end to end: the caller's stack may be small.
fn finish(message: &[u8], s: State) -> State
    requires { (length message.now ≤ 65536) × (s ≡ hashed message.now (length message.now / 64)) }
    ensures { result ≡ hashed (padded message.now) (length (padded message.now) / 64) }
{
    let rest = message.len() % 64;
    let from = message.len() - rest;
    let bits = (message.len() * 8) as u32;
    let mut v = s;
    let mut last = [0u8; 64];
    layout::copy(&message[from..], &mut last);
    last[rest] = 0x80;
    if 56 <= rest {
        v = block::compress(v, &last);
        last = [0u8; 64];
    }
    digest::store(&mut last, 60, bits);
    v = block::compress(v, &last);
    v
}

// The hash value of a message, its padding and all.
pub(crate) fn hash_value(message: &[u8]) -> State
    requires { length message.now ≤ 65536 }
    ensures { result ≡ hashed (padded message.now) (length (padded message.now) / 64) }
{
    let s = blocks(message);
    finish(message, s)
}
