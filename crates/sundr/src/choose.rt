// A block from a reply or from a cache, for C.
ghost use Rattle.std.specs.Prelude.{◌≡◌};
ghost use Rattle.refusal.specs.Word.{answer_word};
ghost use Rattle.cache.specs.Choice.{choice};
ghost use Rattle.cache.specs.Choose.{choose};
ghost use Rattle.sundr.specs.Choose.{part_number, part_length};

use cache::Source;

// The number that tells where the block was found.
// Kept: a `match` and no `From`, since the numbers are those of the C interface, and neither type is this crate's.
fn number(s: Source) -> usize
    ensures { result ≡ part_number (choice s) }
{
    match s {
        Source::Reply => 0,
        Source::Cached => 1,
    }
}

// Which of two parts is the block of the wanted hash: the first result is 0 for the reply and 1 for
// the cached part, the second is that part's length. A reference cannot be handed out to C; the
// header's `sundr_chosen` makes the pointer from this number.
pub fn sundr_block_choose<'a>(wanted: &[u8], reply: &'a [u8], cached: &'a [u8]) -> u64
    ensures { result ≡ answer_word part_number (part_length reply.now cached.now)
        (choose wanted.now reply.now cached.now) }
{
    let c = cache::choose(wanted, reply, cached);
    let part = cache::part(c, reply, cached);
    match c {
        Ok(s) => refusal::word(0, number(s), part.len()),
        Err(r) => refusal::refusal_word(r),
    }
}
