//! A sample of readings with its rules, made from a number: a large input for trials.
#![tactic(auto)]

mod make;
mod parts;
mod walk;

pub use make::{MOST_ROWS, MOST_SEED, sample};
pub use parts::{Sample, SampleText};
pub use walk::levels_move_slowly;
