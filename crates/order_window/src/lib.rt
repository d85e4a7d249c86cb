//! A sliding window of readings, which gives the median of the candidates of a reading before them.
//!
//! The keys stand in three orders: by time, and by their heights over the lines of the greatest and the least rate. For
//! one reading the candidates rise with these heights, so that the median is found by a binary search over both.
#![tactic(auto)]

mod key;
mod laws;
mod line;
mod order;
mod orders;
mod selection;
mod window;

pub use key::Key;
pub use laws::one_median;
pub use window::OrderWindow;
