//! The flow network on which a repair is found, and the trait that its solvers meet.
//!
//! Flow on bounds is the dual of the least cost of a series (minimum-cost flow, after Ahuja, Magnanti and Orlin, Network
//! Flows, 1993).
#![tactic(auto)]

mod build;
mod laws;
mod limits;
mod network;
mod numbers;
mod prices;
mod solver;
mod views;

pub use laws::{
    balanced_everywhere, balanced_is_admissible, best_is_tight, flow_is_tight,
    negative_cycle_is_blocked, pull_is_balance, solved_is_best, tight_is_best,
};
pub use limits::{MOST_BOUNDS, MOST_PRICE, MOST_VALUE, MOST_WEIGHT};
pub use network::Network;
pub use solver::{Solved, Solver};
pub use views::{Bare, Residual, Tight};
