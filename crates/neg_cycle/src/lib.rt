//! The greatest distances that respect the arcs of a graph, or a cycle of arcs with a negative sum.
//!
//! The method is that of Bellman and Ford, with sweeps over the arcs in alternating direction and with the
//! cycles found early, by a walk of the parents after every second sweep (parent-graph search for negative cycles,
//! as surveyed by Cherkassky and Goldberg, Negative-cycle detection algorithms, 1999).
#![tactic(auto)]

mod cycle;
mod forest;
mod labels;
mod laws;
mod room;
mod sweep;
mod transposed;

pub use laws::{greatest_is_one, least_by_transposing, least_is_one, transposed_is_negated};
pub use room::Room;
pub use sweep::{Settled, settle};
pub use transposed::Transposed;
