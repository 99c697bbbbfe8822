// The calls for C and other languages, as include/sundr.h declares them: each is one call of a
// layer below, with its answer as one number of 64 bits. All that is decided here is four lengths, of
// the array for a check's counts, of the buffer for what is to be sent again, of a server's list that is
// lent as bytes and of the buffer for a handle that is looked up, and the numbers that tell "send again",
// how two structures stand and which part was chosen.
//
// Kept: calls that differ only in what they call, and the pairs `users`, `user` and lengths beside buffers, are the C interface.
#![tactic(auto)]

pub mod block_store;
pub mod check;
pub mod choose;
pub mod compare;
pub mod file;
pub mod hash;
pub mod making;
pub mod memory_file;
pub mod questions;
mod server_bytes;
pub mod server_list;
pub mod table;
