// Many lookups in one call, for C.
ghost use Rattle.std.specs.Prelude.{◌≡◌, length};
ghost use Rattle.refusal.specs.Result.{left};
ghost use Rattle.refusal.specs.Word.{plain_word};
ghost use Rattle.itable.specs.Many.{many as many_of};

use sundr::questions;

// The handles of up to 64 files, each along its own path of an i-table's blocks, into 33 lent bytes
// for each.
#[unsafe(no_mangle)]
pub extern "C" fn sundr_lookup_many(
    handle: &[u8],
    numbers: &[u64],
    counts: &[u8],
    paths: &[u8],
    out: &mut [u8],
) -> u64
    ensures answer { result ≡ plain_word (many_of handle.now numbers.now counts.now paths.now
        (length out.old)) }
    ensures buffer { out.new ≡ left (many_of handle.now numbers.now counts.now paths.now
        (length out.old)) out.old }
{
    questions::sundr_lookup_many(handle, numbers, counts, paths, out)
}
