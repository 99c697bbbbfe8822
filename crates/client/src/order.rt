// The third stage: "send again", and refusals 5, 6 and 7, by which the list goes on from the structure that is held.
ghost use Rattle.std.specs.Prelude.{◌≡◌, true, ◌||◌, [], ◌∷◌, ℕ, ◌<◌, length, get_or};
ghost use Rattle.layout.specs.Bytes.{values};
ghost use Rattle.refusal.specs.Order.{tried};
ghost use Rattle.refusal.specs.Refusal.{said};
ghost use Rattle.protocol.specs.Version.{size, owner, count, counts_before, counts_strictly_before};
ghost use Rattle.protocol.specs.List.{records as records_of, record_at, entry as entry_of};
ghost use Rattle.protocol.specs.Check.{pair_step, current as current_of};
ghost use Rattle.version.specs.Version.{fields, count_in};
ghost use Rattle.client.specs.Judged.{told};
ghost use Rattle.client.specs.Internal.Stages.{none, is_before, goes_on};

use crate::Verdict;
use crate::records::Records;
use refusal::Refusal;
use version::{SIZE, Standing, Version};

// Whether the list's record of the user and the structure that is held are the same bytes, or neither exists.
// Kept: the user, what is held and the list side by side, here and below, as the definitions of `protocol` take them.
#[tactic(auto, unfolding(protocol::specs::Check::current))]
fn current(user: u8, held: &[u8], list: &Records<'_>) -> bool
    ensures { result ≡ current_of user held.now list.now }
{
    match list.entry(user) {
        Some(record) => layout::equal(record, held),
        None => held.len() == 0,
    }
}

// How many operations of the user the list's record of the user counts; none where there is no record.
fn listed_count(user: u8, list: &Records<'_>) -> u32
    ensures { result ≡ count (entry_of list.now user) user }
{
    match list.entry(user) {
        Some(record) => version::count(record, user),
        None => 0,
    }
}

// Whether what is held, with this own count, is pending and the list shows the structure before it.
#[tactic(auto, unfolding(crate::specs::Internal::Stages::is_before))]
fn is_before(user: u8, own: u32, pending: bool, list: &Records<'_>) -> bool
    ensures { result ≡ is_before user own pending list.now }
{
    pending && listed_count(user, list) as u64 + 1 == own as u64
}

// The list as an array of structures.
// Kept: put into a lent array and not returned, since an array that is handed out is copied, and the stack is small.
fn read_list(list: &Records<'_>, structures: &mut [Version; 16])
    requires { length structures.old ≡ 16 }
    ensures { (i : ℕ) → i < records_of list.now → get_or structures.new i none ≡ fields (record_at list.now i) }
{
    for i in 0..list.len() {
        structures[i] = version::read(list.at(i));
    }
}

// Whether one of two structures is at or before the other, by how their counts stand.
fn comparable(x: [u32; 16], y: [u32; 16]) -> bool
    ensures { result ≡ (counts_before (count_in x) (count_in y) || counts_before (count_in y) (count_in x)) }
{
    version::compare(x, y) != Standing::Apart
}

// Whether x is strictly before y, by how their counts stand.
fn strictly_before(x: [u32; 16], y: [u32; 16]) -> bool
    ensures { result ≡ counts_strictly_before (count_in x) (count_in y) }
{
    version::compare(x, y) == Standing::Before
}

// Whether all pairs are ordered: the records with each other, and each with a structure of the counts `next`.
fn pairs(list: &Records<'_>, next: [u32; 16]) -> Result<(), Refusal>
    ensures { (new : ℕ → ℕ) → next ≡ values new 0 16 → said result ≡ tried (pair_step list.now new ∷ []) }
{
    let blank = Version {
        owner: 0,
        handle: [0u8; 32],
        counts: [0u32; 16],
    };
    let mut structures = [blank; 16];
    read_list(list, &mut structures);
    let n = list.len();
    // Kept: rule of the project, 01's form for the comparison of all pairs: a label is left at the first pair that is apart.
    'pairs: {
        for i in 0..n {
            let low = structures[i].counts;
            for j in i + 1..n {
                let high = structures[j].counts;
                if !comparable(low, high) {
                    break 'pairs Err(Refusal::Unordered(i, j));
                }
            }
            if !strictly_before(low, next) {
                break 'pairs Err(Refusal::Unordered(i, n));
            }
        }
        Ok(())
    }
}

// The third stage: the counts of the next structure, or the bytes that are held, where these are to be sent again.
pub(crate) fn order(
    user: u8,
    held: &[u8],
    pending: bool,
    list: &Records<'_>,
) -> Result<Verdict, Refusal>
    requires user_bound { user < 16 }
    requires held_whole { pending ≡ true → length held.now ≡ size }
    requires by_index { (i : ℕ) → i < records_of list.now → owner (record_at list.now i) < 16 }
    ensures { told result ≡ goes_on user held.now pending list.now }
{
    let listed = current(user, held, list);
    let own = version::count(held, user);
    if !listed {
        if is_before(user, own, pending, list) {
            let mut again = [0u8; SIZE];
            layout::copy(&held[..SIZE], &mut again);
            return Ok(Verdict::Again(again));
        }
        return Err(Refusal::NotCurrent);
    }
    if own == u32::MAX {
        return Err(Refusal::LastVersion);
    }
    let counts = crate::next::counts(user, held, list);
    pairs(list, counts)?;
    Ok(Verdict::Next(counts))
}
