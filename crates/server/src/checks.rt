// The tests of making and of a commit, in their order.
ghost use Rattle.std.specs.Prelude.{not, ◌||◌, ◌≡◌, List, ℕ, ◌+◌, ◌<◌, eqb, length};
ghost use Rattle.search.specs.Search.{first};
ghost use Rattle.refusal.specs.Order.{tried};
ghost use Rattle.refusal.specs.Refusal.{said};
ghost use Rattle.protocol.specs.Version.{counts_strictly_before, count as count_of};
ghost use Rattle.protocol.specs.Server.{make_steps, follows as follows_of, commit_steps};
ghost use Rattle.version.specs.Version.{fields, count_in};

use crate::held::Lent;
use refusal::Refusal;
use version::{SIZE, Standing, Version};

// The refusal of a number of users.
#[tactic(auto, unfolding(protocol::specs::Server::make_steps, refusal::specs::Order::in_order))]
pub(crate) fn make_check(users: u8) -> Result<(), Refusal>
    ensures { said result ≡ tried (make_steps users) }
{
    if users < 1 || 16 < users {
        return Err(Refusal::Users);
    }
    Ok(())
}

// Whether nothing is held, or what is held is strictly before the new structure.
fn in_order(held: &[u8], new: &[u32; 16]) -> bool
    ensures { result ≡ (eqb (length held.now) 0 || counts_strictly_before (count_of held.now) (count_in new.now)) }
{
    held.is_empty() || version::compare(version::counts(held), *new) == Standing::Before
}

// Whether the own count is one more than the held one. As u64 the sum can't wrap.
fn is_next(own: u32, held: u32) -> bool
    ensures { result ≡ eqb own (held + 1) }
{
    u64::from(own) == u64::from(held) + 1
}

impl Lent<'_> {
    // Test 7 at user v, of this new structure.
    fn follows(&self, v: usize, new: &Version) -> bool
        requires { v < 16 }
        ensures { (x : List ℕ) → new.now ≡ fields x → result ≡ follows_of self.now x v }
    {
        let held = self.held(v);
        in_order(held, &new.counts)
            && (v == new.owner as usize || new.counts[v] == version::count(held, v as u8))
    }

    // The lowest user at whom test 7 fails, if there is one.
    fn first_apart(&self, new: &Version) -> Option<usize>
        ensures { (x : List ℕ) → new.now ≡ fields x → result ≡ first (λ v. not (follows_of self.now x v)) 0 16 }
    {
        (0..16).find(|v| !self.follows(*v, new))
    }

    // The refusals of a commit: length, form, mark, own count, order.
    pub(crate) fn commit_check(&self, x: &[u8], mark: u8) -> Result<(), Refusal>
        ensures { said result ≡ tried (commit_steps self.now x.now mark) }
    {
        if x.len() != SIZE {
            return Err(Refusal::Length(0));
        }
        if !version::well_formed(self.users, x) {
            return Err(Refusal::Malformed(0));
        }
        if mark != 1 {
            return Err(Refusal::Unsigned(0));
        }
        let new = version::read(x);
        let held = self.held(new.owner as usize);
        if !is_next(version::own_count(x), version::count(held, new.owner)) {
            return Err(Refusal::NotCurrent);
        }
        if let Some(v) = self.first_apart(&new) {
            return Err(Refusal::Unordered(v, 0));
        }
        Ok(())
    }
}
