//! Time texts as ticks: whole nanoseconds since 1970-01-01T00:00:00Z, or since whatever moment the numbers
//! of a log are counted from. Exact, and in no memory of its own.
#![tactic(auto)]

mod calendar;
mod form;
mod number;
mod read;
mod trim;

pub use form::{MOST_TICKS, TimeFault, TimeForm};
pub use read::{an_answer, one_answer, ticks};
pub use trim::trimmed_text;
