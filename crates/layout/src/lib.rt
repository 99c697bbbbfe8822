// All that is about byte strings: the layouts' numbers, read at every place with zeros past the end, and
// as bytes; 32 bytes from a place; two strings compared; what is unused, zero, and made so. What these
// numbers and the parts of a byte string are, and the laws of both, stands in specs/ and proofs/; the library's
// big-endian numbers are the same.
#![tactic(auto)]

ghost use Rattle.std.specs.Prelude.{◌≡◌, ◌&&◌, ◌+◌, ◌*◌, ◌-◌, ◌<◌, ◌≤◌, min, eqb, ◌++◌, length, get_or, take, drop, replicate};
ghost use Rattle.layout.specs.Bytes.{two, four, eight, bytes2, bytes4, bytes8, bytes_at};
ghost use Rattle.layout.specs.Strings.{same, zeros};

// Copies as many bytes as there are, and as there is room for, to the front of `to`, and says how many; the rest of `to`
// stays.
// Kept: a loop, since `copy_from_slice` would be a call of memmove, which the archive does without.
pub fn copy(from: &[u8], to: &mut [u8]) -> usize
    ensures count { result ≡ min (length from.now) (length to.old) }
    ensures copied { length from.now ≤ length to.old → to.new ≡ take (length from.now) from.now ++ drop (length from.now) to.old }
    ensures cut { length to.old < length from.now → to.new ≡ take (length to.old) from.now }
{
    let n = from.len().min(to.len());
    for i in 0..n {
        to[i] = from[i];
    }
    n
}

// The N bytes from a place on. Past the end of the bytes stand zeros. Where all are there, the compiler makes one load of
// them, or two moves of 32.
fn bytes_at<const N: usize>(b: &[u8], at: usize) -> [u8; N]
    ensures { result ≡ bytes_at b.now at N }
{
    let Some(rest) = b.get(at..) else {
        return [0; N];
    };
    if let Some(all) = rest.first_chunk() {
        return *all;
    }
    let mut out = [0u8; N];
    copy(rest, &mut out);
    out
}

// The byte at a place; 0 past the end.
// Kept: bytes and a place side by side, here and below, since a place may lie past the end, where no slice begins.
pub fn byte_at(b: &[u8], at: usize) -> u8
    ensures { result ≡ get_or b.now at 0 }
{
    if b.len() <= at {
        return 0;
    }
    b[at]
}

// The number in the two bytes at a place.
pub fn u16_at(b: &[u8], at: usize) -> u16
    ensures { result ≡ two b.now at }
{
    u16::from_be_bytes(bytes_at(b, at))
}

// The number whose big-endian bytes these are.
pub fn join(a: u8, b: u8, c: u8, d: u8) -> u32
    ensures { result ≡ a * 16777216 + b * 65536 + c * 256 + d }
{
    u32::from_be_bytes([a, b, c, d])
}

// The number in the four bytes at a place.
pub fn u32_at(b: &[u8], at: usize) -> u32
    ensures { result ≡ four b.now at }
{
    u32::from_be_bytes(bytes_at(b, at))
}

// The number in the eight bytes at a place.
pub fn u64_at(b: &[u8], at: usize) -> u64
    ensures { result ≡ eight b.now at }
{
    u64::from_be_bytes(bytes_at(b, at))
}

// The two bytes of a number.
pub fn u16_bytes(x: u16) -> [u8; 2]
    ensures { result ≡ bytes2 x }
{
    u16::to_be_bytes(x)
}

// The four bytes of a number.
pub fn u32_bytes(x: u32) -> [u8; 4]
    ensures { result ≡ bytes4 x }
{
    u32::to_be_bytes(x)
}

// The eight bytes of a number.
pub fn u64_bytes(x: u64) -> [u8; 8]
    ensures { result ≡ bytes8 x }
{
    u64::to_be_bytes(x)
}

// The 32 bytes from a place on.
pub fn bytes32(b: &[u8], at: usize) -> [u8; 32]
    ensures { result ≡ bytes_at b.now at 32 }
{
    bytes_at(b, at)
}

// Whether a and b hold the same bytes. No byte ends the loop, so that the compiler compares sixteen
// at a time.
// Kept: a loop, since the library's `==` ends at a difference; that no place ends a comparison, docs/DECISIONS.md says.
pub fn equal(a: &[u8], b: &[u8]) -> bool
    ensures { result ≡ same a.now b.now }
{
    if a.len() != b.len() {
        return false;
    }
    let mut alike = true;
    for i in 0..a.len() {
        alike &= a[i] == b[i];
    }
    alike
}

// Whether the bytes from a place up to another are zero. Past the end of the bytes stand zeros. No
// byte ends the loop, so that the compiler tests sixteen at a time.
pub fn zero_between(b: &[u8], from: usize, to: usize) -> bool
    ensures { result ≡ zeros b.now from (to - from) }
{
    let mut zero = true;
    for x in from..to.min(b.len()) {
        zero &= b[x] == 0;
    }
    zero
}

// Sets the bytes from a place on to zero.
pub fn clear(from: usize, out: &mut [u8])
    ensures { out.new ≡ take from out.old ++ replicate (length out.old - from) 0 }
{
    if from < out.len() {
        out[from..].fill(0);
    }
}
