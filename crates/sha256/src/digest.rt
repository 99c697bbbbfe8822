// Words and hash values as bytes, big-endian.
ghost use Rattle.std.specs.Prelude.{◌≡◌, ◌+◌, ◌≤◌, ◌++◌, length, take, drop};
ghost use Rattle.layout.specs.Bytes.{bytes4};
ghost use Rattle.sha256.specs.Sha256.{bytes_of};

use crate::State;

// Puts the four bytes of x at i.
// Kept: bytes and a place; a part of `out` in their stead would have to be put back into what is said of the whole.
pub(crate) fn store(out: &mut [u8], i: usize, x: u32)
    requires { i + 4 ≤ length out.old }
    ensures { out.new ≡ take i out.old ++ (bytes4 x ++ drop (i + 4) out.old) }
{
    let b = layout::u32_bytes(x);
    layout::copy(&b, &mut out[i..i + 4]);
}

// Writes the eight words of a hash value.
// Kept: eight lines; a loop is no plainer, as its words would have to stand in an array first: `[s.a, s.b, ..]` and `4 * i`.
pub(crate) fn write(out: &mut [u8], s: State)
    requires { length out.old ≡ 32 }
    ensures { out.new ≡ bytes_of s }
{
    store(out, 0, s.a);
    store(out, 4, s.b);
    store(out, 8, s.c);
    store(out, 12, s.d);
    store(out, 16, s.e);
    store(out, 20, s.f);
    store(out, 24, s.g);
    store(out, 28, s.h);
}
