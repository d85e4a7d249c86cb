//! The steps that the commands of `screen` share: reading their files, and writing their texts. The form of what a command
//! answers, and of what it leaves, is defined here.
#![tactic(auto)]

mod files;
mod laws;
mod reply;

pub use files::{accepted_from, rules_from, rules_of, table_from, table_of};
pub use laws::files_are_one;
pub use reply::{Reply, write_text};
