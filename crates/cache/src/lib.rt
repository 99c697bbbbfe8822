// A block from the server's reply or from the client's cache: which of the two is the wanted one,
// by its hash, and that part itself, where it lies. Nothing is copied, written or kept between calls.
#![tactic(auto)]

ghost use Rattle.std.specs.Prelude.{◌≡◌, ◌≤◌, length};
ghost use Rattle.cache.specs.Choose.{fits as fits_of, choose as choose_of, handed, handed_of};
ghost use Rattle.cache.specs.Choice.{answer_of};
ghost use Rattle.cache.specs.HandedBack.{HandedBack};

use refusal::Refusal;

// The bytes of a hash, and of the longest part.
const HASH: usize = 32;

const LONGEST: usize = 65536;

// Where the wanted block was found.
#[derive(Clone, Copy)]
pub enum Source {
    Reply,
    Cached,
}

// Whether a part is there and has the wanted hash.
fn fits(wanted: &[u8], part: &[u8]) -> bool
    requires { length part.now ≤ 65536 }
    ensures { result ≡ fits_of wanted.now part.now }
{
    let there = !part.is_empty();
    there && sha256::is_hash(part, wanted)
}

// Kept: reply and cached part side by side, here and below, as the C interface has them.
// Says which of two parts is the block of the wanted hash. The cached part is hashed only where the
// reply does not fit.
pub fn choose(wanted: &[u8], reply: &[u8], cached: &[u8]) -> Result<Source, Refusal>
    ensures { answer_of result ≡ choose_of wanted.now reply.now cached.now }
{
    if wanted.len() != HASH || reply.len() > LONGEST || cached.len() > LONGEST {
        return Err(Refusal::Length(0));
    }
    if fits(wanted, reply) {
        return Ok(Source::Reply);
    }
    if fits(wanted, cached) {
        return Ok(Source::Cached);
    }
    Err(Refusal::WrongHash(0))
}

// The part that was chosen, itself: the reply, or the cached part; where the choice is refused, the
// empty part with which the reply begins. Nothing is hashed.
pub fn part<'a>(c: Result<Source, Refusal>, reply: &'a [u8], cached: &'a [u8]) -> &'a [u8]
    ensures bytes { result.now ≡ handed (answer_of c) reply.now cached.now }
    ensures place { HandedBack (answer_of c) reply.entry cached.entry result }
{
    match c {
        Ok(Source::Reply) => reply,
        Ok(Source::Cached) => cached,
        Err(_) => &reply[..0],
    }
}

// The block of the wanted hash: the one call after the other. Who wants to know as well why nothing
// is handed back calls the two.
pub fn block<'a>(wanted: &[u8], reply: &'a [u8], cached: &'a [u8]) -> &'a [u8]
    ensures bytes { result.now ≡ handed_of wanted.now reply.now cached.now }
    ensures place { HandedBack (choose_of wanted.now reply.now cached.now)
        reply.entry cached.entry result }
{
    part(choose(wanted, reply, cached), reply, cached)
}
