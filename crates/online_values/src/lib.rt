//! The results of the online method for the readings of a sensor: what they are, what they are good for, and how they are
//! found one after the other.
#![tactic(auto)]

mod laws;
mod sensor;

pub use laws::{median_is_middle, results_cost_least, results_keep_the_rates};
pub use sensor::SensorRepair;
