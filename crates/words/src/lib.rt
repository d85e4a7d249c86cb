//! Words that several crates say: on lists, and on the answers of readers.
//!
//! It has no code. Its definitions are cited by the contracts of the crates above, and its lemmas by their proofs.
#![tactic(auto)]
