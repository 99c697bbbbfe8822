// The i-table, for C: its blocks written, and a file's handle looked up along a path of them.
ghost use Rattle.std.specs.Prelude.{◌≡◌, length};
ghost use Rattle.refusal.specs.Result.{left};
ghost use Rattle.refusal.specs.Word.{answer_word};
ghost use Rattle.itable.specs.Write.{blocks_given, writing};
ghost use Rattle.sundr.specs.Lookup.{looked_up, is_found, lookup_into};

use refusal::Refusal;

// The blocks of an i-table, to the front of a lent buffer.
pub fn sundr_table_write(numbers: &[u64], handles: &[u8], out: &mut [u8]) -> u64
    ensures answer { result ≡ answer_word (λ n. n) (λ n. 0) (blocks_given numbers.now handles.now (length out.old)) }
    ensures buffer { out.new ≡ left (writing numbers.now handles.now out.old) out.old }
{
    refusal::answer_word(writer::write(numbers, handles, out))
}

// A file's handle, along a path of an i-table's blocks, into 32 lent bytes. The first result says
// whether there is such a file.
pub fn sundr_lookup(handle: &[u8], number: u64, path: &[u8], out: &mut [u8]) -> u64
    ensures answer { result ≡ answer_word is_found (λ e. 0) (looked_up handle.now number path.now (length out.old)) }
    ensures buffer { out.new ≡ left (lookup_into handle.now number path.now out.old) out.old }
{
    if out.len() != 32 {
        return refusal::refusal_word(Refusal::Length(0));
    }
    match lookup::lookup(handle, number, path) {
        Ok(Some(found)) => {
            layout::copy(&found, out);
            refusal::word(0, 1, 0)
        }
        Ok(None) => refusal::word(0, 0, 0),
        Err(r) => refusal::refusal_word(r),
    }
}
