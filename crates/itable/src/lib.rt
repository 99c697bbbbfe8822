// The i-table (the table of files), its blocks, the lookup along one path of them, and the check of
// a file's inode and block, as definitions, with the theorems about them. The code that meets these
// definitions is in the crates above; here is only the type of what leads to a block.
#![tactic(auto)]

// What leads to a block: the kind due there, 0 for the root; the number in the slot that names the
// block, which the root has not; the bound below which its numbers stay, 0 where there is none; and
// the block's hash.
// Kept: 0 for the root and for no bound, since the definitions `kind_due`, `first_due` and `below_bound` have it so.
#[derive(Clone, Copy)]
pub struct Link {
    pub due: u8,
    pub first: u64,
    pub bound: u64,
    pub hash: [u8; 32],
}
