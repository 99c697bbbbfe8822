// The third stage: refusals 3, 6 and 16, of the counts, where the structure that is held is judged already.
ghost use Rattle.std.specs.Prelude.{◌≡◌, true, ◌-◌, ◌≤◌, eqb, length, get_or};
ghost use Rattle.search.specs.Search.{every};
ghost use Rattle.refusal.specs.Order.{tried};
ghost use Rattle.refusal.specs.Refusal.{said};
ghost use Rattle.protocol.specs.Check.{remembers};
ghost use Rattle.protocol.specs.Create.{count_steps};
ghost use Rattle.protocol.specs.Meaning.{Users};

use refusal::Refusal;

// Whether the counts of the users from `from` to 15 are all 0.
// Kept: that there are sixteen is a clause, here and in record.rt, since `first_chunk`, which would make an array
// of the lent slice, takes a longer one too: the length would be tested twice.
fn zero_from(counts: &[u32], from: usize) -> bool
    requires from_le { from ≤ 16 }
    requires counts_len { length counts.now ≡ 16 }
    ensures { result ≡ every (λ v. eqb (get_or counts.now v 0) 0) from (16 - from) }
{
    counts[from..].iter().all(|c| *c == 0)
}

// One more than the last count there is does not fit a count's type: that is refusal 6.
pub(crate) fn counts(users: u8, user: u8, memory: &[u8], counts: &[u32]) -> Result<(), Refusal>
    requires users { Users users user }
    requires counts_len { length counts.now ≡ 16 }
    requires memory_value { remembers users user memory.now ≡ true }
    ensures { said result ≡ tried (count_steps users user memory.now counts.now) }
{
    if !zero_from(counts, users as usize) {
        return Err(Refusal::Malformed(0));
    }
    let own = version::count(memory, user);
    let Some(next) = own.checked_add(1) else {
        return Err(Refusal::LastVersion);
    };
    let new = counts[user as usize];
    if new != next {
        return Err(Refusal::NotNext);
    }
    Ok(())
}
