// A file's blocks, for C.
ghost use Rattle.std.specs.Prelude.{◌≡◌};
ghost use Rattle.refusal.specs.Word.{answer_word};
ghost use Rattle.itable.specs.Inode.{Span, block_check};
ghost use Rattle.itable.specs.LargeInode.{large_check};

// Whether a block is the one of that index of a file, under the file's handle and inode.
pub fn sundr_block_check(handle: &[u8], inode: &[u8], index: u32, block: &[u8]) -> u64
    ensures { result ≡ answer_word (λ (a : Span). a.offset) (λ a. a.size)
        (block_check handle.now inode.now index block.now) }
{
    refusal::answer_word(inode::block_check(handle, inode, index, block))
}

// The same of a large file, with the indirect block for a block that its inode does not name.
pub fn sundr_large_block_check(
    handle: &[u8],
    inode: &[u8],
    index: u32,
    indirect: &[u8],
    block: &[u8],
) -> u64
    ensures { result ≡ answer_word (λ (a : Span). a.offset) (λ a. a.size) (large_check
        handle.now inode.now index indirect.now block.now) }
{
    refusal::answer_word(inode::large_block_check(handle, inode, index, indirect, block))
}
