// The second stage: refusals 3 and 4, which look at each record and each mark by itself. That what is held is remembered
// was seen with the file.
ghost use Rattle.std.specs.Prelude.{◌≡◌, true, not, List, ℕ, ◌<◌, eqb, length, position};
ghost use Rattle.search.specs.Search.{first};
ghost use Rattle.refusal.specs.Order.{tried};
ghost use Rattle.refusal.specs.Refusal.{said};
ghost use Rattle.protocol.specs.List.{records as records_of, well_placed};
ghost use Rattle.protocol.specs.Check.{remembers, form_steps};

use crate::records::Records;
use refusal::Refusal;

// Whether record i is well formed and its owner above the one before.
#[tactic(auto, unfolding(protocol::specs::List::well_placed))]
fn well_placed(users: u8, list: &Records<'_>, i: usize) -> bool
    requires { i < records_of list.now }
    ensures { result ≡ well_placed users list.now i }
{
    version::well_formed(users, list.at(i)) && (i == 0 || list.owner(i - 1) < list.owner(i))
}

// The first record that is not well placed.
fn first_misplaced(users: u8, list: &Records<'_>) -> Option<usize>
    ensures { result ≡ first (λ i. not (well_placed users list.now i)) 0 (records_of list.now) }
{
    for i in 0..list.len() {
        if !well_placed(users, list, i) {
            return Some(i);
        }
    }
    None
}

// The first record whose mark is not 1.
fn first_unmarked(marks: &[u8]) -> Option<usize>
    ensures { result ≡ position (λ mark. not (eqb mark 1)) marks.now }
{
    marks.iter().position(|mark| *mark != 1)
}

pub(crate) fn forms(users: u8, list: &Records<'_>, marks: &[u8]) -> Result<(), Refusal>
    requires { length marks.now ≡ records_of list.now }
    ensures { (user : ℕ) (held : List ℕ) → remembers users user held ≡ true →
        said result ≡ tried (form_steps users user held list.now marks.now) }
{
    if let Some(i) = first_misplaced(users, list) {
        return Err(Refusal::Malformed(i));
    }
    if let Some(i) = first_unmarked(marks) {
        return Err(Refusal::Unsigned(i));
    }
    Ok(())
}
