// The server's list as records, once its length is known to be that of 16 records at most.
ghost use Rattle.std.specs.Prelude.{◌≡◌, MatchOption, [], ◌*◌, ◌≤◌, ◌<◌, length};
ghost use Rattle.protocol.specs.Version.{size, owner as owner_of, own};
ghost use Rattle.protocol.specs.List.{records as records_of, record_at, entry as entry_of};

use std::marker::Model;
use version::SIZE;

#[derive(Drop)]
pub(crate) struct Records<'a> {
    bytes: &'a [u8],
}

// A contract sees the list's bytes.
impl<'a> Model for Records<'a> {
    ghost use Rattle.std.specs.Prelude.{◌≡◌, ◌*◌, ◌≤◌, ℕ, List, length};
    ghost use Rattle.protocol.specs.Version.{size as record_size};
    ghost use Rattle.protocol.specs.List.{records as records_of};

    ghost Value = { List ℕ };

    ghost view = { λ r. r.bytes.now };

    ghost invariant = { λ r. (record_size * records_of r.bytes.now ≡ length r.bytes.now) × (records_of r.bytes.now ≤ 16) };
}

impl<'a> Records<'a> {
    pub(crate) fn new(bytes: &'a [u8]) -> Self
        requires whole { size * records_of bytes.now ≡ length bytes.now }
        requires few { records_of bytes.now ≤ 16 }
        ensures { result ≡ bytes.entry.now }
    {
        Records { bytes }
    }

    pub(crate) fn len(&self) -> usize
        ensures count { result ≡ records_of self.now }
        ensures whole { size * result ≡ length self.now }
        ensures few { result ≤ 16 }
    {
        self.bytes.len() / SIZE
    }

    // Kept: that i is below the number of records is asked of each method that takes it, as a slice asks it of an index.
    // The bytes of record i.
    pub(crate) fn at(&self, i: usize) -> &'a [u8]
        requires { i < records_of self.now }
        ensures { result.now ≡ record_at self.entry.now i }
    {
        &self.bytes[SIZE * i..SIZE * i + SIZE]
    }

    pub(crate) fn owner(&self, i: usize) -> u8
        requires { i < records_of self.now }
        ensures { result ≡ owner_of (record_at self.now i) }
    {
        version::owner(self.at(i))
    }

    pub(crate) fn own_count(&self, i: usize) -> u32
        requires { i < records_of self.now }
        ensures { result ≡ own (record_at self.now i) }
    {
        version::own_count(self.at(i))
    }

    // The user's record, if there is one.
    pub(crate) fn entry(&self, user: u8) -> Option<&'a [u8]>
        ensures { MatchOption result (entry_of self.entry.now user ≡ []) (λ r. r.now ≡ entry_of self.entry.now user) }
    {
        for i in 0..self.len() {
            if self.owner(i) == user {
                return Some(self.at(i));
            }
        }
        None
    }
}
