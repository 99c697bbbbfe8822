// The static library: each call of `sundr` under its name in include/sundr.h, with the same contract.
//
// Kept: each export says its contract again, since the C interface is what is exported, and `sundr` stays a library that the
// theorem `AnswersRead` (`claims`) speaks of: a crate is a library or a static library.
#![tactic(auto)]

mod block_store;
mod check;
mod choose;
mod compare;
mod file;
mod hash;
mod making;
mod memory_file;
mod questions;
mod server_list;
mod table;
