// The lookup of an i-number under an i-handle, along one path of blocks, root first. A block's hash
// is checked before anything else of it is read. Nothing is remembered between calls.
#![tactic(auto)]

ghost use Rattle.std.specs.Prelude.{◌≡◌, ◌*◌, ◌≤◌, suc, length};
ghost use Rattle.itable.specs.Block.{size, to_root};
ghost use Rattle.itable.specs.Lookup.{consult, lookup as lookup_of};
ghost use Rattle.lookup.specs.Looked.{answer};
ghost use Rattle.lookup.specs.Internal.Step.{ending, Searched, Consulted};

use itable::Link;
use refusal::Refusal;

// What a well-formed block says of an i-number: the lookup ends there, at the slot that has the number
// or at none, or it goes on along a slot.
// Kept: an enum of its own: the slot at which it ends and the one along which it goes on are two meanings, which an `Option` in
// another would not name.
#[derive(Drop)]
enum Step {
    Ends(Option<u8>),
    Leads(u8),
}

// A leaf gives the handle, or absent. In an inner block the last slot whose number is at most the
// i-number leads on; if there is none, absent.
fn search(b: &[u8], number: u64) -> Step
    ensures { Searched b.now number result }
{
    if block::kind(b) == block::LEAF {
        return Step::Ends(block::slot_of(b, number));
    }
    match block::last_at_most(b, number) {
        Some(j) => Step::Leads(j),
        None => Step::Ends(None),
    }
}

// Consults block d of the path, to which a link leads: its hash, then its form, then what it says of
// the i-number.
fn one_block(link: Link, b: &[u8], number: u64, d: usize) -> Result<Step, Refusal>
    requires { length b.now ≡ size }
    ensures { Consulted b.now link number d result }
{
    if !sha256::is_hash(b, &link.hash) {
        return Err(Refusal::WrongHash(d));
    }
    if !block::well_formed(link, b) {
        return Err(Refusal::Malformed(d));
    }
    Ok(search(b, number))
}

// The answer at the block b, the last of d consulted, at which the lookup ends; `left` more follow.
fn ended(slot: Option<u8>, b: &[u8], left: usize, d: usize) -> Result<Option<[u8; 32]>, Refusal>
    ensures { answer result ≡ ending slot b.now left d }
{
    if 0 < left {
        return Err(Refusal::PathLength(d));
    }
    // Kept: tried `slot.map(|j| block::value(b, j))`, whose proof did not close; with a clause on the closure it is longer.
    match slot {
        Some(j) => Ok(Some(block::value(b, j))),
        None => Ok(None),
    }
}

// The same block. The compiler does not see of a chunk how long it is; of this it does, and tests no place in it again.
fn whole(chunk: &[u8]) -> &[u8]
    requires { length chunk.now ≡ size }
    ensures { result.now ≡ chunk.now }
{
    &chunk[..block::SIZE]
}

// Consults the n blocks of a path, as far as they are needed; `root` leads to the first.
// Kept: n beside the path: without it the blocks that `lookup` counts, to refuse a length, are counted twice.
fn walk(root: Link, number: u64, path: &[u8], n: usize) -> Result<Option<[u8; 32]>, Refusal>
    requires { (length path.now ≡ size * n) × (n ≤ 3) }
    ensures { answer result ≡ consult path.now number n 0 root }
{
    let mut link = root;
    for (d, chunk) in path.chunks_exact(block::SIZE).enumerate() {
        let b = whole(chunk);
        match one_block(link, b, number, d)? {
            Step::Ends(slot) => return ended(slot, b, n - d - 1, d + 1),
            Step::Leads(j) => link = block::child(link, b, j),
        }
    }
    Err(Refusal::PathLength(n))
}

// Looks an i-number up: the handle of its file, or that it is absent. `path` is one to three whole
// blocks, root first; `handle` is the root's hash. Nothing is written.
pub fn lookup(handle: &[u8], number: u64, path: &[u8]) -> Result<Option<[u8; 32]>, Refusal>
    ensures { answer result ≡ lookup_of handle.now number path.now }
{
    let n = path.len() / block::SIZE;
    if handle.len() != 32 || block::SIZE * n != path.len() || n < 1 || 3 < n {
        return Err(Refusal::Length(0));
    }
    walk(block::root(layout::bytes32(handle, 0)), number, path, n)
}
