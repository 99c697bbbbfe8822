// Blocks of an i-table: what stands in a block's bytes, read, and written by `fill::fill`; one block
// judged well formed where a link leads to it; and its slots searched for an i-number. Each call takes
// any bytes; past their end stand zeros. Nothing here hashes, and nothing is known of other blocks.
#![tactic(auto)]

pub mod fill;

ghost use Rattle.std.specs.Prelude.{◌≡◌, true, ◌-◌, eqb};
ghost use Rattle.search.specs.Search.{first};
ghost use Rattle.itable.specs.Block.{kind as kind_of, used as used_of, number as number_of, value as value_of, to_root, child_bound, to_child};
ghost use Rattle.itable.specs.Block.{kind_due, used_due, ascending as ascending_of, unused_zero, first_due, below_bound, well_formed};
ghost use Rattle.itable.specs.Lookup.{last_at_most};
ghost use Rattle.block.specs.Place.{one_more};

use itable::Link;

// The bytes of a block.
pub const SIZE: usize = 642;

// Where the kind and the number of used slots stand, and the number and the value of the first slot;
// the next slot is SLOT bytes further.
const KIND: usize = 0;

const USED: usize = 1;

const FIRST_NUMBER: usize = 2;

const FIRST_VALUE: usize = 10;

const SLOT: usize = 40;

// The kind of a leaf; that of the highest inner block; and the number of slots.
// Kept: kinds are numbers: `kind` promises the block's byte as it stands, and `child` (definition `to_child`) one less.
pub const LEAF: u8 = 3;

const TOP: u8 = 5;

const SLOTS: u8 = 16;

// The block's kind.
pub fn kind(b: &[u8]) -> u8
    ensures { result ≡ kind_of b.now }
{
    layout::byte_at(b, KIND)
}

// The number of used slots.
pub fn used(b: &[u8]) -> u8
    ensures { result ≡ used_of b.now }
{
    layout::byte_at(b, USED)
}

// The number in slot j.
// Kept: `number` and `value` are a line each over one generic read, and the calls take a block's bytes, of which a struct
// would know nothing more: any bytes of any length are taken.
pub fn number(b: &[u8], j: u8) -> u64
    ensures { result ≡ number_of b.now j }
{
    layout::u64_at(b, FIRST_NUMBER + SLOT * usize::from(j))
}

// The value in slot j.
pub fn value(b: &[u8], j: u8) -> [u8; 32]
    ensures { result ≡ value_of b.now j }
{
    layout::bytes32(b, FIRST_VALUE + SLOT * usize::from(j))
}

// The bound below slot j of a block that has this bound: the number in the next slot if that is used,
// otherwise the block's own bound, which is handed down.
fn child_bound(bound: u64, b: &[u8], j: u8) -> u64
    ensures { result ≡ child_bound bound b.now j }
{
    if used(b).saturating_sub(1) <= j {
        return bound;
    }
    number(b, j + 1)
}

// What leads to the root of this hash.
// Kept: 0 stands for the root's kind and for no bound in itable's definitions (`kind_due`, `below_bound`) and so in `Link`.
pub fn root(hash: [u8; 32]) -> Link
    ensures { result ≡ to_root hash }
{
    Link {
        due: 0,
        first: 0,
        bound: 0,
        hash,
    }
}

// What leads from the block, to which a link leads, to the child in slot j.
pub fn child(link: Link, b: &[u8], j: u8) -> Link
    ensures { result ≡ to_child link b.now j }
{
    Link {
        due: kind(b).saturating_sub(1),
        first: number(b, j),
        bound: child_bound(link.bound, b, j),
        hash: value(b, j),
    }
}

// Whether the block is of a kind that may stand at its place; `due` is 0 for the root.
#[tactic(auto, unfolding(itable::specs::Block::kind_due))]
fn kind_due(due: u8, b: &[u8]) -> bool
    ensures { result ≡ kind_due due b.now }
{
    let kind = kind(b);
    if due != 0 {
        return kind == due;
    }
    LEAF <= kind && kind <= TOP
}

// Whether the block uses as many slots as one at its place may.
#[tactic(auto, unfolding(itable::specs::Block::used_due))]
fn used_due(due: u8, b: &[u8]) -> bool
    ensures { result ≡ used_due due b.now }
{
    let used = used(b);
    used <= SLOTS && (0 < used || (due == 0 && kind(b) == LEAF))
}

// Whether the numbers in the used slots strictly ascend.
// Kept: tried `(1..used(b)).all(..)`, proved, but it misses the old loop's 37 ns a full block: 57 ns, and so 38.
fn ascending(b: &[u8]) -> bool
    ensures { result ≡ ascending_of b.now }
{
    let mut last = number(b, 0);
    for j in 1..used(b) {
        let next = number(b, j);
        if next <= last {
            return false;
        }
        last = next;
    }
    true
}

// Whether the unused slots are all zero.
fn unused_zero(b: &[u8]) -> bool
    ensures { result ≡ unused_zero b.now }
{
    layout::zero_between(b, FIRST_NUMBER + SLOT * usize::from(used(b)), SIZE)
}

// Whether the block's first number is that of the slot that led to it; the root has none.
#[tactic(auto, unfolding(itable::specs::Block::first_due))]
fn first_due(due: u8, first: u64, b: &[u8]) -> bool
    ensures { result ≡ first_due due first b.now }
{
    due == 0 || number(b, 0) == first
}

// Whether the numbers in the used slots are below the bound; 0 stands for none. They ascend, so the last
// of them tells.
fn below_bound(bound: u64, b: &[u8]) -> bool
    requires { ascending_of b.now ≡ true }
    ensures { result ≡ below_bound bound b.now }
{
    let used = used(b);
    if bound == 0 || used == 0 {
        return true;
    }
    number(b, used - 1) < bound
}

// Whether the block is well formed where the link leads to it.
#[tactic(auto, unfolding(itable::specs::Block::well_formed))]
pub fn well_formed(link: Link, b: &[u8]) -> bool
    ensures { result ≡ well_formed link b.now }
{
    kind_due(link.due, b)
        && used_due(link.due, b)
        && ascending(b)
        && unused_zero(b)
        && first_due(link.due, link.first, b)
        && below_bound(link.bound, b)
}

// The first used slot whose number is i, if there is one.
pub fn slot_of(b: &[u8], i: u64) -> Option<u8>
    ensures { result ≡ first (λ j. eqb (number_of b.now j) i) 0 (used_of b.now) }
{
    (0..used(b)).find(|&j| number(b, j) == i)
}

// The last used slot whose number is at most i, if there is one.
pub fn last_at_most(b: &[u8], i: u64) -> Option<u8>
    ensures { one_more result ≡ last_at_most (number_of b.now) i (used_of b.now) }
{
    (0..used(b)).rev().find(|&j| number(b, j) <= i)
}
