// Reading and writing by a stream, in as many calls as it takes. The bytes go straight between
// the lent buffer and the calls: a buffer of its own would be room on the stack.
ghost use Rattle.std.specs.Prelude.{◌≤◌, ◌≡◌, length};

use std::io::{Read, Write};

// Reads until `buf` is full, the input ends or a read fails, and answers how many bytes it put at
// the front of `buf`. No contract can say what was read.
pub(crate) fn read<R: Read>(input: &mut R, buf: &mut [u8]) -> usize
    ensures upper_bound { result ≤ length buf.old }
    ensures buf_len_unchanged { length buf.new ≡ length buf.old }
{
    let len = buf.len();
    let mut rest = buf;
    while !rest.is_empty() {
        match input.read(rest) {
            Ok(more) if 0 < more => rest = &mut rest[more..],
            _ => break,
        }
    }
    len - rest.len()
}

// Writes until all of `buf` is taken, or a write takes nothing or fails, and answers how many bytes
// were taken. For no bytes it makes no call.
pub(crate) fn write<W: Write>(output: &mut W, buf: &[u8]) -> usize
    ensures { result ≤ length buf.now }
{
    let mut rest = buf;
    while !rest.is_empty() {
        match output.write(rest) {
            Ok(more) if 0 < more => rest = &rest[more..],
            _ => break,
        }
    }
    buf.len() - rest.len()
}
