// The counts of the client's next version structure.
ghost use Rattle.std.specs.Prelude.{◌≡◌, ℕ, ◌<◌};
ghost use Rattle.protocol.specs.Version.{owner, count};
ghost use Rattle.protocol.specs.List.{records as records_of, record_at};
ghost use Rattle.protocol.specs.Check.{last_count, next_counts};

use crate::records::Records;

// The counts of the next structure. The records are gone through from the last to the first, so
// that an owner's first record is the one that stays.
pub(crate) fn counts(user: u8, held: &[u8], list: &Records<'_>) -> [u32; 16]
    requires user_bound { user < 16 }
    requires below_last { count held.now user < last_count }
    requires by_index { (i : ℕ) → i < records_of list.now → owner (record_at list.now i) < 16 }
    ensures { result ≡ next_counts user held.now list.now }
{
    let mut counts = [0u32; 16];
    for i in (0..list.len()).rev() {
        let v = list.owner(i) as usize;
        counts[v] = list.own_count(i);
    }
    counts[user as usize] = version::count(held, user) + 1;
    counts
}
