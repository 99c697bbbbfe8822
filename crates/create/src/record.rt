// The bytes of a version structure, into the buffer for the answer.
ghost use Rattle.std.specs.Prelude.{◌≡◌, length};
ghost use Rattle.layout.specs.Bytes.{bytes4};
ghost use Rattle.protocol.specs.Version.{size, counts as counts_of, structure};
ghost use Rattle.version.specs.Version.{count_in};

use version::{COUNTS, HANDLE, KIND, OWNER, SIZE};

// The four big-endian bytes of x.
fn write_count(x: u32, out: &mut [u8])
    requires { length out.old ≡ 4 }
    ensures { out.new ≡ bytes4 x }
{
    let b = layout::u32_bytes(x);
    layout::copy(&b, out);
}

fn write_counts(counts: &[u32], out: &mut [u8])
    requires counts_len { length counts.now ≡ 16 }
    requires out_len { length out.old ≡ 64 }
    ensures { out.new ≡ counts_of (count_in counts.now) 0 16 }
{
    for v in 0..16 {
        write_count(counts[v], &mut out[4 * v..4 * v + 4]);
    }
}

// The record of user `user` with this i-handle and these counts.
pub(crate) fn write(user: u8, handle: &[u8], counts: &[u32], out: &mut [u8])
    requires handle_len { length handle.now ≡ 32 }
    requires counts_len { length counts.now ≡ 16 }
    requires out_len { length out.old ≡ size }
    ensures { out.new ≡ structure user handle.now (count_in counts.now) }
{
    out[KIND] = 1;
    out[OWNER] = user;
    layout::copy(handle, &mut out[HANDLE..COUNTS]);
    write_counts(counts, &mut out[COUNTS..SIZE]);
}
