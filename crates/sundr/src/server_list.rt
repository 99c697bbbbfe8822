// The server's list (the keeper), for C: made in lent bytes, listed from them, and changed in a lent
// struct of the same layout.
ghost use Rattle.std.specs.Prelude.{◌≡◌, length};
ghost use Rattle.refusal.specs.Result.{left};
ghost use Rattle.refusal.specs.Word.{plain_word, answer_word};
ghost use Rattle.protocol.specs.Server.{commit as commit_of};
ghost use Rattle.sundr.specs.Server.{make_at, listed_at, listing_at};

use crate::server_bytes;
use crate::server_bytes::SIZE;
use protocol::{RECORDS, Server};
use refusal::Refusal;

// An empty server's list for this number of users, into 1,569 lent bytes.
pub fn sundr_server_make_at(users: u8, server: &mut [u8]) -> u64
    ensures answer { result ≡ plain_word (make_at users server.old) }
    ensures buffer { server.new ≡ left (make_at users server.old) server.old }
{
    if server.len() != SIZE {
        return refusal::refusal_word(Refusal::Length(0));
    }
    let made = server::make(users);
    if made.check.is_ok() {
        server_bytes::write(made.server, server);
    }
    refusal::answer_word(made.check)
}

// The records that the server's list in 1,569 lent bytes holds, to the front of a lent buffer.
pub fn sundr_server_list_at(server: &[u8], out: &mut [u8]) -> u64
    ensures answer { result ≡ answer_word (λ n. n) (λ n. 0) (listed_at server.now (length out.old)) }
    ensures buffer { out.new ≡ left (listing_at server.now out.old) out.old }
{
    if server.len() == SIZE {
        return refusal::answer_word(server::list(server_bytes::read(server), out));
    }
    refusal::refusal_word(Refusal::Length(0))
}

// A commit to a list whose records are lent beside its number of users: the answer as a number.
fn committed(users: u8, records: &mut [u8; RECORDS], x: &[u8], mark: u8) -> u64
    requires { length records.old ≡ 1568 }
    ensures { (result ≡ plain_word (commit_of (record { users = users; records = records.old }) x.now mark))
        × (record { users = users; records = records.new }
        ≡ left (commit_of (record { users = users; records = records.old }) x.now mark)
        (record { users = users; records = records.old })) }
{
    refusal::answer_word(server::commit_into(users, records, x, mark))
}

// Takes a client's new record into a lent server's list: its 98 bytes are written if it is accepted,
// and nothing is if it is refused.
pub fn sundr_server_commit(server: &mut Server, x: &[u8], mark: u8) -> u64
    ensures { (result ≡ plain_word (commit_of server.old x.now mark))
        × (server.new ≡ left (commit_of server.old x.now mark) server.old) }
{
    let users = server.users;
    committed(users, &mut server.records, x, mark)
}
