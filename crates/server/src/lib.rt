// The server's version structure list (the keeper): made for a number of users, listed into a lent
// buffer, and changed by a commit, one record at a time. Each call answers as the protocol's
// definitions say, for every server value, also one that no call made: a user's record is held
// exactly where its own count is not 0. It checks no signature; a mark says whether one is good.
#![tactic(auto)]

use crate::held::Lent;
use protocol::{RECORDS, Server};
use refusal::Refusal;
use version::SIZE;

mod checks;
mod held;
mod listing;

ghost use Rattle.std.specs.Prelude.{◌≡◌, ◌+◌, ◌*◌, ◌<◌, ◌++◌, length, take, drop};
ghost use Rattle.refusal.specs.Result.{Gives, left};
ghost use Rattle.protocol.specs.Version.{size};
ghost use Rattle.protocol.specs.Server.{empty as empty_of, make as make_of, listed, listing as listing_of, commit as commit_of};
ghost use Rattle.refusal.specs.Refusal.{said};
ghost use Rattle.server.specs.Commit.{commit_into};

// What making or a commit gives: the check of what was given, and the server's list after it.
// Kept: a struct of a check and a list, since the clauses `Gives` of `make` and `commit` promise a list on a refusal too.
#[derive(Clone, Copy)]
pub struct Outcome {
    pub check: Result<(), Refusal>,
    pub server: Server,
}

fn empty(users: u8) -> Server
    ensures { result ≡ empty_of users }
{
    Server {
        users,
        records: [0; RECORDS],
    }
}

// The empty list for this number of users. Where the number is refused, the empty list for one
// user comes back.
pub fn make(users: u8) -> Outcome
    ensures { Gives (make_of users) (empty_of 1) result.server result.check }
{
    let check = checks::make_check(users);
    match check {
        Ok(()) => Outcome {
            check,
            server: empty(users),
        },
        Err(_) => Outcome {
            check,
            server: empty(1),
        },
    }
}

// Writes the held records, owners ascending, to the front of `out`, and keeps the bytes after
// them. Refused where `out` is too short for them, and then all of `out` is kept.
pub fn list(server: Server, out: &mut [u8]) -> Result<usize, Refusal>
    ensures answers { said result ≡ listed server (length out.old) }
    ensures leaves { out.new ≡ left (listing_of server out.old) out.old }
{
    let lent = Lent {
        users: server.users,
        records: &server.records,
    };
    let length = lent.length();
    if out.len() < length {
        return Err(Refusal::NoRoom);
    }
    lent.write(out);
    Ok(length / SIZE)
}

// Puts the record into its owner's place.
fn replace(records: &mut [u8], x: &[u8], owner: usize)
    requires { (length records.old ≡ 1568) × (length x.now ≡ size) × (owner < 16) }
    ensures { records.new ≡ take (size * owner) records.old
        ++ (x.now ++ drop (size * owner + size) records.old) }
{
    let at = SIZE * owner;
    layout::copy(&x[0..SIZE], &mut records[at..]);
}

// A commit where the sixteen records are lent by themselves. Writes the record's 98 bytes if it is
// accepted, and nothing else. Refused where the records' length is another, and as `commit` is.
// Kept: record and mark side by side, as the C interface has them.
pub fn commit_into(users: u8, records: &mut [u8], x: &[u8], mark: u8) -> Result<(), Refusal>
    ensures { Gives (commit_into users records.old x.now mark) records.old records.new result }
{
    if records.len() != RECORDS {
        return Err(Refusal::Length(0));
    }
    Lent { users, records }.commit_check(x, mark)?;
    replace(records, x, version::owner(x) as usize);
    Ok(())
}

// Takes the record in its owner's place, if it is signed by mark 1 and comes next after all that is
// held. A refused commit gives the list back as it was.
pub fn commit(mut server: Server, x: &[u8], mark: u8) -> Outcome
    ensures { Gives (commit_of server x.now mark) server result.server result.check }
{
    let check = commit_into(server.users, &mut server.records, x, mark);
    Outcome { check, server }
}
