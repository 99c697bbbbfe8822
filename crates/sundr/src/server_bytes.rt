// A server's list in lent bytes: read from them, and written into them.
ghost use Rattle.std.specs.Prelude.{◌≡◌, length};
ghost use Rattle.sundr.specs.Server.{server_in, bytes_of};

use protocol::{RECORDS, Server};

// The number of users, then the records.
pub(crate) const SIZE: usize = 1569;

pub(crate) fn read(bytes: &[u8]) -> Server
    requires { length bytes.now ≡ 1569 }
    ensures { result ≡ server_in bytes.now }
{
    let users = bytes[0];
    let mut records = [0u8; RECORDS];
    layout::copy(&bytes[1..], &mut records);
    Server { users, records }
}

pub(crate) fn write(server: Server, out: &mut [u8])
    requires { length out.old ≡ 1569 }
    ensures { out.new ≡ bytes_of server }
{
    out[0] = server.users;
    layout::copy(&server.records, &mut out[1..]);
}
