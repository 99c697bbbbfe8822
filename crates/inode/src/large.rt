// A large file: its inode names sixteen blocks by itself, and the others by one indirect block.
ghost use Rattle.std.specs.Prelude.{◌≡◌, ◌<◌, length};
ghost use Rattle.refusal.specs.Refusal.{said};
ghost use Rattle.refusal.specs.Order.{tried, in_order};
ghost use Rattle.itable.specs.Inode.{file_length};
ghost use Rattle.itable.specs.LargeInode.{zero_exactly, indirect_formed, large_inode_steps, indirect_steps};
ghost use Rattle.inode.specs.Spanned.{answer_of};
ghost use Rattle.inode.specs.Internal.Reading.{read_steps, spanned};

use crate::{COUNT, Form, HASH, HASHES, Span};
use refusal::Refusal;

const FORM: Form = Form {
    size: 549,
    kind: 11,
    most: 144,
};

// Where the indirect block's hash stands, behind the inode's own.
const LAST_HASH: usize = 517;

// The indirect block's bytes and kind; where its first hash stands, and how many; its place in a
// refusal.
const INDIRECT_SIZE: u16 = 4097;

const INDIRECT_KIND: u8 = 12;

const INDIRECT_HASHES: usize = 1;

const INDIRECT_COUNT: u32 = 128;

const PLACE: usize = 2;

// Whether the indirect block's hash is zero exactly if sixteen blocks suffice.
fn zero_exactly(inode: &[u8]) -> bool
    ensures { result ≡ zero_exactly inode.now }
{
    let suffice = crate::file_blocks(crate::file_length(inode)) <= COUNT;
    let zero = layout::zero_between(inode, LAST_HASH, LAST_HASH + HASH);
    suffice == zero
}

// The tests of the inode, in their order.
pub(crate) fn inode_check(handle: &[u8], inode: &[u8]) -> Result<(), Refusal>
    ensures { said result ≡ tried (large_inode_steps handle.now inode.now) }
{
    crate::inode_check(handle, inode, FORM)?;
    crate::form_check(zero_exactly(inode), 0)
}

// Whether an indirect block is well formed, for the file of this inode.
fn indirect_formed(inode: &[u8], indirect: &[u8]) -> bool
    ensures { result ≡ indirect_formed (file_length inode.now) indirect.now }
{
    let blocks = crate::file_blocks(crate::file_length(inode));
    layout::byte_at(indirect, 0) == INDIRECT_KIND
        && crate::rest_zero(
            indirect,
            INDIRECT_HASHES,
            INDIRECT_COUNT,
            blocks.saturating_sub(COUNT),
        )
}

// The tests of the indirect block, in their order.
fn indirect_check(inode: &[u8], indirect: &[u8]) -> Result<(), Refusal>
    requires { length inode.now ≡ 549 }
    ensures { said result ≡ tried (indirect_steps inode.now indirect.now) }
{
    let hash = crate::hash_at(inode, HASHES, COUNT);
    crate::named(indirect, INDIRECT_SIZE, hash, PLACE)?;
    crate::form_check(indirect_formed(inode, indirect), PLACE)
}

// The tests of what block k is read from, in their order: a direct read has the inode's hash and no
// indirect block, any other has the indirect block and its hash; then those of the block.
pub(crate) fn read_check(
    inode: &[u8],
    k: u32,
    indirect: &[u8],
    block: &[u8],
) -> Result<Span, Refusal>
    requires inode_len { length inode.now ≡ 549 }
    requires k_below { k < 144 }
    ensures { answer_of result ≡ in_order (read_steps inode.now (file_length inode.now) k indirect.now block.now) (spanned k block.now) }
{
    if k < COUNT {
        if !indirect.is_empty() {
            return Err(Refusal::Length(PLACE));
        }
        return crate::file_block_check(inode, k, crate::hash_at(inode, HASHES, k), block);
    }
    indirect_check(inode, indirect)?;
    let hash = crate::hash_at(indirect, INDIRECT_HASHES, k - COUNT);
    crate::file_block_check(inode, k, hash, block)
}
