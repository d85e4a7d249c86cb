//! The bounds that swing, drift and between rules make of one pair of readings.
#![tactic(auto)]

mod bounds;
mod laws;
mod rise;
mod stamp;

pub use bounds::{between_bound, drift_bound, swing_bound};
pub use laws::rises_are_limited;
pub use stamp::Stamp;
