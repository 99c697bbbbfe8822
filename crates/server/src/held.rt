// The server's list with its records lent, and what is held of one user: the record in that user's place.
ghost use Rattle.std.specs.Prelude.{◌≡◌, ◌<◌, ◌≤◌, length};
ghost use Rattle.protocol.specs.declared.Server.{Server};
ghost use Rattle.protocol.specs.Version.{size};
ghost use Rattle.protocol.specs.Server.{slot as slot_of, held as held_of};

use std::marker::Model;
use version::SIZE;

// A server's list whose sixteen records are lent. In a contract it is the list.
#[derive(Drop)]
pub(crate) struct Lent<'a> {
    pub(crate) users: u8,
    pub(crate) records: &'a [u8],
}

impl<'a> Model for Lent<'a> {
    ghost Value = { Server };

    ghost view = { λ l. record { users = l.users; records = l.records.now } };

    ghost invariant = { λ l. length l.records.now ≡ 1568 };
}

impl Lent<'_> {
    // Kept: that v is below 16 is asked of each method that takes it, as a slice asks it of an index.
    // User v's place.
    fn slot(&self, v: usize) -> &[u8]
        requires { v < 16 }
        ensures place { result.now ≡ slot_of self.now v }
        ensures whole { length result.now ≡ size }
    {
        let at = SIZE * v;
        &self.records[at..at + SIZE]
    }

    // The record held of user v: none, so no bytes, where the own count in its place is 0.
    // Kept: no bytes, and no `None`, since the definition `held` has them, and `follows` asks for their length.
    pub(crate) fn held(&self, v: usize) -> &[u8]
        requires { v < 16 }
        ensures record { result.now ≡ held_of self.now v }
        ensures one { length result.now ≤ size }
    {
        let slot = self.slot(v);
        if version::count(slot, v as u8) == 0 {
            return &[];
        }
        slot
    }
}
