// What a check or a making step asks of the file that it is given.
ghost use Rattle.std.specs.Prelude.{◌≡◌};
ghost use Rattle.refusal.specs.Order.{tried};
ghost use Rattle.refusal.specs.Refusal.{said};
ghost use Rattle.protocol.specs.MemoryFile.{given_steps};

use refusal::Refusal;

// Refusal 2 for its length, then 3 for its form, of which nothing is looked at before.
pub fn given(users: u8, user: u8, file: &[u8]) -> Result<(), Refusal>
    ensures { said result ≡ tried (given_steps users user file.now) }
{
    if file.len() != crate::FILE {
        return Err(Refusal::Length(0));
    }
    if !crate::formed(users, user, file) {
        return Err(Refusal::Malformed(16));
    }
    Ok(())
}
