// The server's list (the keeper), for C: made in lent bytes, listed from them, and changed in a lent
// struct of the same layout.
ghost use Rattle.std.specs.Prelude.{◌≡◌, length};
ghost use Rattle.refusal.specs.Result.{left};
ghost use Rattle.refusal.specs.Word.{plain_word, answer_word};
ghost use Rattle.protocol.specs.Server.{commit as commit_of};
ghost use Rattle.sundr.specs.Server.{make_at, listed_at, listing_at};

use protocol::Server;
use sundr::server_list;

// An empty server's list for this number of users, into 1,569 lent bytes.
#[unsafe(no_mangle)]
pub extern "C" fn sundr_server_make_at(users: u8, server: &mut [u8]) -> u64
    ensures answer { result ≡ plain_word (make_at users server.old) }
    ensures buffer { server.new ≡ left (make_at users server.old) server.old }
{
    server_list::sundr_server_make_at(users, server)
}

// The records that the server's list in 1,569 lent bytes holds, to the front of a lent buffer.
#[unsafe(no_mangle)]
pub extern "C" fn sundr_server_list_at(server: &[u8], out: &mut [u8]) -> u64
    ensures answer { result ≡ answer_word (λ n. n) (λ n. 0) (listed_at server.now (length out.old)) }
    ensures buffer { out.new ≡ left (listing_at server.now out.old) out.old }
{
    server_list::sundr_server_list_at(server, out)
}

// Takes a client's new record into a lent server's list: its 98 bytes are written if it is accepted,
// and nothing is if it is refused.
#[unsafe(no_mangle)]
pub extern "C" fn sundr_server_commit(server: &mut Server, x: &[u8], mark: u8) -> u64
    ensures { (result ≡ plain_word (commit_of server.old x.now mark))
        × (server.new ≡ left (commit_of server.old x.now mark) server.old) }
{
    server_list::sundr_server_commit(server, x, mark)
}
