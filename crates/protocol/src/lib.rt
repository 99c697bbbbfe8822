// SUNDR's serialized protocol: version structures, the client's check of a version structure list,
// and the server's list, as definitions, with the theorems about every run. The code that meets
// these definitions is in the crates above; here is only the type of the server's list.
#![tactic(auto)]

// The bytes of sixteen records, one for each user that there can be.
pub const RECORDS: usize = 1568;

// The server's version structure list (the keeper): the number of users, and for each user 0 to 15
// the 98 bytes of its last record. A user whose own count there is 0 has none. Laid out as in C.
#[repr(C)]
#[derive(Clone, Copy)]
pub struct Server {
    pub users: u8,
    pub records: [u8; RECORDS],
}
