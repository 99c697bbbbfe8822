// One question: its path is consulted block by block, with what is known of the blocks before.
ghost use Rattle.std.specs.Prelude.{◌≡◌, ◌+◌, ◌-◌, ◌*◌, ◌≤◌, ◌<◌, length};
ghost use Rattle.layout.specs.Bytes.{part};
ghost use Rattle.sha256.specs.Hash.{is_hash};
ghost use Rattle.itable.specs.Block.{size};
ghost use Rattle.itable.specs.Lookup.{consult as consult_of, lookup};
ghost use Rattle.itable.specs.Internal.Many.{entry_at, leads_at};
ghost use Rattle.block.specs.Place.{one_more};
ghost use Rattle.many.specs.Internal.Known.{Knows, AllKnown};
ghost use Rattle.many.specs.Internal.Walk.{path_from, Consulted, Says};

use crate::Known;
use itable::Link;
use refusal::Refusal;

// Whether block i of the paths has this hash. Where it is byte for byte the known block, its hash is
// known too.
fn has_hash(paths: &[u8], i: usize, known: Option<Known>, hash: [u8; 32]) -> bool
    requires { (size * i + size ≤ length paths.now) × Knows paths.now known }
    ensures { result ≡ is_hash (part size paths.now i) hash }
{
    let at = block::SIZE * i;
    let b = &paths[at..at + block::SIZE];
    if let Some(k) = known {
        let from = block::SIZE * k.at;
        if layout::equal(&paths[from..from + block::SIZE], b) {
            return layout::equal(&k.hash, &hash);
        }
    }
    sha256::is_hash(b, &hash)
}

// The slot that leads on from the block, if there is one: none does in a leaf.
// Kept: a block and the i-number that is asked for side by side, as the definitions of `itable` take them.
fn leads(b: &[u8], number: u64) -> Option<u8>
    ensures { one_more result ≡ leads_at b.now number }
{
    if block::kind(b) == block::LEAF {
        return None;
    }
    block::last_at_most(b, number)
}

// Consults a block whose hash fits, which is block d of its path, with `left` more after it: its
// form, and which of its slots leads on; where none does the lookup ends.
fn consult(link: Link, b: &[u8], number: u64, left: usize, d: usize) -> Result<Option<u8>, Refusal>
    requires { d < 3 }
    ensures { Consulted b.now link number left d result }
{
    if !block::well_formed(link, b) {
        return Err(Refusal::Malformed(d));
    }
    match leads(b, number) {
        Some(j) => Ok(Some(j)),
        None if 0 < left => Err(Refusal::PathLength(d + 1)),
        None => Ok(None),
    }
}

// Consults the n blocks of the paths from `first` on, as far as they are needed; `root` leads to the
// first of them. Each block that has the hash due is known from then on.
// Kept: no part of the paths but all of them, with a place and a number, since what is known of a block is its index among all.
fn walk(
    root: Link,
    number: u64,
    paths: &[u8],
    first: usize,
    n: usize,
    known: &mut [Option<Known>; 3],
) -> Result<(), Refusal>
    requires { (size * (first + n) ≤ length paths.now) × (n ≤ 3) × AllKnown paths.now known.old }
    ensures { Says (consult_of (path_from paths.now first n) number n 0 root)
        (entry_at (part size paths.now (first + n - 1)) number) paths.now result known.new }
{
    let mut link = root;
    for d in 0..n {
        let i = first + d;
        let hash = link.hash;
        if !has_hash(paths, i, known[d], hash) {
            return Err(Refusal::WrongHash(d));
        }
        known[d] = Some(Known { at: i, hash });
        let at = block::SIZE * i;
        let b = &paths[at..at + block::SIZE];
        match consult(link, b, number, n - d - 1, d)? {
            Some(j) => link = block::child(link, b, j),
            None => return Ok(()),
        }
    }
    Err(Refusal::PathLength(n))
}

// Looks up a question's i-number along its path, the n blocks of the paths from `first` on. A
// number of blocks that no path has is the question's own refusal.
pub(crate) fn ask(
    handle: &[u8],
    number: u64,
    paths: &[u8],
    first: usize,
    n: usize,
    known: &mut [Option<Known>; 3],
) -> Result<(), Refusal>
    requires { (length handle.now ≡ 32) × (size * (first + n) ≤ length paths.now) × AllKnown paths.now known.old }
    ensures { Says (lookup handle.now number (path_from paths.now first n))
        (entry_at (part size paths.now (first + n - 1)) number) paths.now result known.new }
{
    if n < 1 || 3 < n {
        return Err(Refusal::Length(0));
    }
    let root = block::root(layout::bytes32(handle, 0));
    walk(root, number, paths, first, n, known)
}
