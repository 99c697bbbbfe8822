// The block store: its places, what storing, retrieving and unreferencing a block are, and what holds
// over every run of these calls, as definitions, with their theorems. The code that meets these
// definitions is in the crate above; nothing is declared here.
#![tactic(auto)]
