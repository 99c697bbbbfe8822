// The check of a file's inode under its file handle, and of one block of the file under the inode;
// and of a large file's, whose inode names what its own hashes do not by an indirect block. Each
// hash is compared before anything else of what it covers is believed. Nothing is written, and
// nothing is kept between calls; how the file handle was found is the lookup's work.
#![tactic(auto)]

mod large;

ghost use Rattle.std.specs.Prelude.{◌≡◌, ◌+◌, ◌*◌, ◌≤◌, length};
ghost use Rattle.refusal.specs.Refusal.{said};
ghost use Rattle.refusal.specs.Order.{tried, in_order};
ghost use Rattle.itable.specs.Inode.{file_blocks, block_length, rest_zero, hash_at, file_length};
ghost use Rattle.itable.specs.Inode.{index_steps, block_steps, block_check};
ghost use Rattle.itable.specs.LargeInode.{large_check};
ghost use Rattle.inode.specs.Spanned.{answer_of};
ghost use Rattle.inode.specs.Internal.Named.{named_steps, form_steps};
ghost use Rattle.inode.specs.Internal.Fitting.{hashes_fit, kind_steps};
ghost use Rattle.inode.specs.Internal.Reading.{spanned};

use refusal::{Refusal, Results};

// The bytes of a hash, and of a file's block that is not the last.
const HASH: usize = 32;

const BLOCK: u32 = 8192;

// Where an inode's file length and its first hash stand; how many hashes.
const LENGTH: usize = 1;

const HASHES: usize = 5;

const COUNT: u32 = 16;

// The form of an inode: its bytes, its kind, and the blocks that its file has at most.
#[derive(Clone, Copy)]
struct Form {
    size: u16,
    kind: u8,
    most: u32,
}

// Kept: kinds are 01's bytes, here and in large.rt: each is compared with the byte that stands there, and with nothing else.
const FORM: Form = Form {
    size: 517,
    kind: 6,
    most: 16,
};

// The file offset and the length of an accepted block.
#[derive(Clone, Copy)]
pub struct Span {
    pub offset: usize,
    pub size: usize,
}

// In C the offset is the first result, and the length the second.
impl Results for Span {
    ghost first = { λ s. s.offset };

    ghost second = { λ s. s.size };

    fn results(self) -> (usize, usize) {
        (self.offset, self.size)
    }
}

// The number of blocks of a file of this length.
fn file_blocks(len: u32) -> u32
    ensures { result ≡ file_blocks len }
{
    len.div_ceil(BLOCK)
}

// The length of block k of a file of this length; 0 past its end.
fn block_length(len: u32, k: u32) -> u16
    ensures { result ≡ block_length len k }
{
    let rest = len.saturating_sub(BLOCK.saturating_mul(k));
    rest.min(BLOCK) as u16
}

// Hash k of those that stand from a place on.
fn hash_at(b: &[u8], at: usize, k: u32) -> &[u8]
    requires { at + 32 * k + 32 ≤ length b.now }
    ensures { result.now ≡ hash_at b.now at k }
{
    let from = at + HASH * k as usize;
    &b[from..from + HASH]
}

// Whether of the n hashes that stand from a place on those after the first m are zero.
fn rest_zero(b: &[u8], at: usize, n: u32, m: u32) -> bool
    requires { at ≤ 65536 }
    ensures { result ≡ rest_zero b.now at n m }
{
    layout::zero_between(b, at + HASH * m as usize, at + HASH * n as usize)
}

// The length of the file.
fn file_length(inode: &[u8]) -> u32
    ensures { result ≡ file_length inode.now }
{
    layout::u32_at(inode, LENGTH)
}

// Whether an inode has the form's kind, its file no more blocks than the form's, and zeros behind
// its own hashes.
fn hashes_fit(inode: &[u8], form: Form) -> bool
    ensures { result ≡ hashes_fit inode.now form.kind form.most }
{
    let blocks = file_blocks(file_length(inode));
    layout::byte_at(inode, 0) == form.kind
        && blocks <= form.most
        && rest_zero(inode, HASHES, COUNT, blocks)
}

// The tests of bytes that a hash names, in their order: their size, then their hash.
fn named(b: &[u8], size: u16, hash: &[u8], place: usize) -> Result<(), Refusal>
    ensures { said result ≡ tried (named_steps size hash.now place b.now) }
{
    if b.len() != size as usize {
        return Err(Refusal::Length(place));
    }
    if !sha256::is_hash(b, hash) {
        return Err(Refusal::WrongHash(place));
    }
    Ok(())
}

// The test of a form, of what stands at a place.
fn form_check(formed: bool, place: usize) -> Result<(), Refusal>
    ensures { said result ≡ tried (form_steps formed place) }
{
    formed.then_some(()).ok_or(Refusal::Malformed(place))
}

// The tests of an inode of this form, in their order: the handle names it, and its own hashes fit.
fn inode_check(handle: &[u8], inode: &[u8], form: Form) -> Result<(), Refusal>
    ensures { said result ≡ tried (kind_steps form.size form.kind form.most handle.now inode.now) }
{
    if handle.len() != HASH {
        return Err(Refusal::Length(0));
    }
    named(inode, form.size, handle, 0)?;
    form_check(hashes_fit(inode, form), 0)
}

// The test of the index k, by the file's length.
fn index_check(inode: &[u8], k: u32) -> Result<(), Refusal>
    ensures { said result ≡ tried (index_steps (file_length inode.now) k) }
{
    let len = file_length(inode);
    if file_blocks(len) <= k {
        return Err(Refusal::NoBlock);
    }
    Ok(())
}

// The tests of block k, in their order, under the hash that names it. Gives the file offset and the
// length of the block.
fn file_block_check(inode: &[u8], k: u32, hash: &[u8], block: &[u8]) -> Result<Span, Refusal>
    ensures { answer_of result ≡ in_order (block_steps (file_length inode.now) k hash.now block.now) (spanned k block.now) }
{
    named(block, block_length(file_length(inode), k), hash, 1)?;
    Ok(Span {
        offset: BLOCK as usize * k as usize,
        size: block.len(),
    })
}

// Kept: handle and inode, inode and k side by side, here and below, as the C interface has them.
// Checks a file's inode, which has the file handle for its hash, and block k of the file. Gives the
// file offset and the length of the block. All that is lent is only read.
pub fn block_check(handle: &[u8], inode: &[u8], k: u32, block: &[u8]) -> Result<Span, Refusal>
    ensures { answer_of result ≡ block_check handle.now inode.now k block.now }
{
    inode_check(handle, inode, FORM)?;
    index_check(inode, k)?;
    file_block_check(inode, k, hash_at(inode, HASHES, k), block)
}

// Checks a large file's inode, which has the file handle for its hash, and block k of the file. The
// indirect block is lent for a block that the inode does not name by itself, from block 16 on, and
// is empty for any other. Gives the file offset and the length of the block. All that is lent is
// only read.
pub fn large_block_check(
    handle: &[u8],
    inode: &[u8],
    k: u32,
    indirect: &[u8],
    block: &[u8],
) -> Result<Span, Refusal>
    ensures { answer_of result ≡ large_check handle.now inode.now k indirect.now block.now }
{
    large::inode_check(handle, inode)?;
    index_check(inode, k)?;
    large::read_check(inode, k, indirect, block)
}
