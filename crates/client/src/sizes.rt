// The first stage: refusals 1 and 2, which look at numbers and at the lengths of list and marks only.
ghost use Rattle.std.specs.Prelude.{◌≡◌, []};
ghost use Rattle.refusal.specs.Answer.{accepted};
ghost use Rattle.refusal.specs.Order.{in_order};
ghost use Rattle.refusal.specs.Refusal.{said};
ghost use Rattle.protocol.specs.Check.{size_steps};

use crate::records::Records;
use refusal::Refusal;
use version::SIZE;

// The list as records, where the stage passes.
pub(crate) fn sizes<'a>(
    users: u8,
    user: u8,
    list: &'a [u8],
    marks: &[u8],
) -> Result<Records<'a>, Refusal>
    ensures { said result ≡ in_order (size_steps users user [] list.now marks.now) (accepted list.now) }
{
    if !version::is_user(users, user) {
        return Err(Refusal::Users);
    }
    let records = list.len() / SIZE;
    if SIZE * records != list.len() || (users as usize) < records || marks.len() != records {
        return Err(Refusal::Length(0));
    }
    Ok(Records::new(list))
}
