//! The program `screen` as a library: what it does with its words, its sources and its sinks.
//!
//! It repairs series of sensor readings under rules about how fast they may move. The speed
//! constraint is that of Song, Zhang, Wang and Yu (SCREEN, SIGMOD 2015).
#![tactic(auto)]

mod cert;
mod check;
mod checked;
mod global;
mod laws;
mod prices;
mod program;
mod report;
mod sample;

pub use laws::{one_outcome, one_text, rests_on_read};
pub use program::run;
pub use screen_words::{
    Command, EndUse, Ending, Inputs, Outcome, Outputs, Roles, Status, real_ends, roles,
};
