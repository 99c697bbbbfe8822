// How many blocks there are, and how many slots each of them uses.
ghost use Rattle.std.specs.Prelude.{◌≡◌, ◌*◌, ◌≤◌, cond, ltb};
ghost use Rattle.itable.specs.Table.{wide as wide_of, used_in, blocks as blocks_of};

// The number of blocks over n entries, never none.
pub(crate) fn wide(n: usize) -> usize
    ensures { result ≡ wide_of n }
{
    n.div_ceil(16).max(1)
}

// The number of blocks over a row of n blocks: none over a root, or over no block.
pub(crate) fn over(n: usize) -> usize
    ensures { result ≡ cond (ltb 1 n) (wide_of n) 0 }
{
    if n <= 1 { 0 } else { wide(n) }
}

// The number of slots that block k over n entries uses.
pub(crate) fn used_in(n: usize, k: usize) -> usize
    requires { 16 * k ≤ n }
    ensures { result ≡ used_in n k }
{
    (n - 16 * k).min(16)
}

// The number of blocks of a table of n files.
pub(crate) fn blocks(n: usize) -> usize
    ensures { result ≡ blocks_of n }
{
    let l = wide(n);
    let f = over(l);
    l + f + over(f)
}
