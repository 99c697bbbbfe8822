// The memory file: 100 bytes that a client keeps between its calls, which say whether its current structure is
// sent, pending or none. It is judged, read, made pending, marked as sent, and moved over and back here. The
// check and the making step read it by `given`, `pending` and `held`. No call knows a disk: that a file is
// replaced whole, and written before anything leaves, the caller has to see to. Nothing is kept between calls.
#![tactic(auto)]

pub mod given;

ghost use Rattle.std.specs.Prelude.{◌≡◌, ◌⊎◌, ◌∷◌, eqb, length, drop, replicate};
ghost use Rattle.refusal.specs.Answer.{accepted, and_then};
ghost use Rattle.refusal.specs.Order.{tried};
ghost use Rattle.refusal.specs.Refusal.{said};
ghost use Rattle.refusal.specs.Result.{Gives, left};
ghost use Rattle.protocol.specs.Version.{size};
ghost use Rattle.protocol.specs.MemoryFile.{file_size, state as state_of, held as held_of, formed as formed_of, own_formed};
ghost use Rattle.protocol.specs.MemoryFile.{file_of, file_steps, over as over_of, back as back_of, back_into, sent as sent_by, pend as pend_of};

use refusal::Refusal;
use version::SIZE;

// A file's length.
pub const FILE: usize = 100;

// Where its kind, its state and its structure stand.
const KIND: usize = 0;

const STATE: usize = 1;

const STRUCTURE: usize = 2;

// The states.
// Kept: the bytes of 01 as they stand, which the arms below name. An enum would add a conversion from a byte and one to it, no arm less.
const SENT: u8 = 0;

const PENDING: u8 = 1;

const NONE: u8 = 2;

// What is behind the state; no bytes of a file that is too short to have any.
fn behind(file: &[u8]) -> &[u8]
    ensures { result.now ≡ drop 2 file.now }
{
    match file {
        [_, _, structure @ ..] => structure,
        _ => &[],
    }
}

// Whether a structure is well formed, and the user's own.
fn own(users: u8, user: u8, x: &[u8]) -> bool
    ensures { result ≡ own_formed users user x.now }
{
    version::well_formed(users, x) && version::owner(x) == user
}

// Whether this is a file of `user`, of `users` users: kind 7, and none with zeros behind it, or sent or pending
// with a structure of the user's that is well formed. Its length is not asked: past its end stand zeros.
pub fn formed(users: u8, user: u8, file: &[u8]) -> bool
    ensures { result ≡ formed_of users user file.now }
{
    if layout::byte_at(file, KIND) != 7 {
        return false;
    }
    match layout::byte_at(file, STATE) {
        NONE => layout::zero_between(file, STRUCTURE, FILE),
        SENT | PENDING => own(users, user, behind(file)),
        _ => false,
    }
}

// Whether the file is pending: its structure may have been sent or not.
pub fn pending(file: &[u8]) -> bool
    ensures { result ≡ eqb (state_of file.now) 1 }
{
    layout::byte_at(file, STATE) == PENDING
}

// The structure that the file remembers, where it lies in the file; no bytes in state none.
// Kept: no bytes, and no `None`, since the definition `held` has them, and the check compares them with a record.
pub fn held(file: &[u8]) -> &[u8]
    ensures { result.now ≡ held_of file.now }
{
    match layout::byte_at(file, STATE) {
        NONE => &[],
        _ => behind(file),
    }
}

// Kind and state, and a structure behind them.
fn lay(state: u8, x: &[u8], out: &mut [u8])
    requires x_len { length x.now ≡ size }
    requires out_len { length out.old ≡ file_size }
    ensures { out.new ≡ 7 ∷ state ∷ x.now }
{
    out[KIND] = 7;
    out[STATE] = state;
    layout::copy(&x[..SIZE], &mut out[STRUCTURE..FILE]);
}

// The file of what a client remembered before there were files: no bytes, or one structure, which is taken
// as sent. Nothing of it is judged. Of any other length it gives zeros, which are no file.
// Kept: zeros, and no `None`, since the clause `other` promises them.
pub fn file_of(old: &[u8]) -> [u8; FILE]
    ensures laid { (length old.now ≡ 0) ⊎ (length old.now ≡ size) → result ≡ file_of old.now }
    ensures other { (length old.now ≡ 0 → ⊥) → (length old.now ≡ size → ⊥) → result ≡ replicate 100 0 }
{
    let mut file = [0u8; FILE];
    match old.len() {
        0 => {
            file[KIND] = 7;
            file[STATE] = NONE;
        }
        SIZE => lay(SENT, old, &mut file),
        _ => {}
    }
    file
}

// The tests with which every call that writes begins, in their order: the users, the lengths, and the form
// of what is given.
// Kept: `users` and `user` come as two numbers from C, and a struct of both would be taken apart at once (refusal 1 compares them).
fn judge(users: u8, user: u8, long: bool, good: bool) -> Result<(), Refusal>
    ensures { said result ≡ tried (file_steps users user long good) }
{
    if !version::is_user(users, user) {
        return Err(Refusal::Users);
    }
    if !long {
        return Err(Refusal::Length(0));
    }
    if !good {
        return Err(Refusal::Malformed(16));
    }
    Ok(())
}

// Moves what was remembered before there were files, no bytes or one structure (98 bytes), over into a file
// (100 bytes): none, or sent. The caller owns every buffer. Refused, with the first refusal of its order: no
// byte of a buffer is changed. Any lengths and any bytes are taken. Both hold for the calls below too.
pub fn over(users: u8, user: u8, old: &[u8], out: &mut [u8]) -> Result<(), Refusal>
    ensures { Gives (over_of users user old.now (length out.old)) out.old out.new result }
{
    let long = version::none_or_one(old.len()) && out.len() == FILE;
    judge(users, user, long, version::remembered(users, user, old))?;
    let file = file_of(old);
    layout::copy(&file, out);
    Ok(())
}

// Moves a file back into what was remembered before: writes its structure to `out` (98 bytes), or nothing in
// state none, and gives how many bytes it wrote. Refused while the file is pending.
pub fn back(users: u8, user: u8, file: &[u8], out: &mut [u8]) -> Result<usize, Refusal>
    ensures answers { said result ≡ and_then (back_of users user file.now (length out.old))
        (λ old. accepted (length old)) }
    ensures leaves { out.new ≡ left (back_into users user file.now out.old) out.old }
{
    let long = file.len() == FILE && out.len() == SIZE;
    judge(users, user, long, formed(users, user, file))?;
    if pending(file) {
        return Err(Refusal::Pending);
    }
    let n = layout::copy(held(file), out);
    Ok(n)
}

// Marks a file as sent where it is pending: its state alone is changed, to 0. Any other file stays as it is.
pub fn sent(users: u8, user: u8, file: &mut [u8]) -> Result<(), Refusal>
    ensures { Gives (sent_by users user file.old) file.old file.new result }
{
    judge(users, user, file.len() == FILE, formed(users, user, file))?;
    if !pending(file) {
        return Ok(());
    }
    file[STATE] = SENT;
    Ok(())
}

// Writes the pending file (100 bytes) of a structure (98 bytes) that the user has made.
pub fn pend(users: u8, user: u8, x: &[u8], out: &mut [u8]) -> Result<(), Refusal>
    ensures { Gives (pend_of users user x.now (length out.old)) out.old out.new result }
{
    let long = x.len() == SIZE && out.len() == FILE;
    judge(users, user, long, own(users, user, x))?;
    lay(PENDING, x, out);
    Ok(())
}
