//! The median of an odd number of values, and the local cost of a value beside the readings after it.
#![tactic(auto)]

mod cost;
mod laws;
mod median;

pub use cost::{Near, local_cost};
pub use laws::{
    clamping_keeps_the_least, local_cost_is_convex, median_costs_least, median_exists, one_median,
};
pub use median::median_plain;
