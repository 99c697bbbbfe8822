// The first stage: refusals 1 and 2, which look at the users and at the lengths of all but the file.
ghost use Rattle.std.specs.Prelude.{[], ◌≡◌};
ghost use Rattle.refusal.specs.Order.{tried};
ghost use Rattle.refusal.specs.Refusal.{said};
ghost use Rattle.protocol.specs.Create.{length_steps};

use refusal::Refusal;
use version::SIZE;

pub(crate) fn lengths(
    users: u8,
    user: u8,
    counts: &[u32],
    handle: &[u8],
    room: usize,
) -> Result<(), Refusal>
    ensures { said result ≡ tried (length_steps users user [] counts.now handle.now room) }
{
    if !version::is_user(users, user) {
        return Err(Refusal::Users);
    }
    if counts.len() != 16 || handle.len() != 32 || room != SIZE {
        return Err(Refusal::Length(0));
    }
    Ok(())
}
