//! The repair of a problem: of the series that obey its bounds and cost least the greatest, by any solver of flow networks.
//!
//! That no series costs less is shown by a flow whose dual value is the cost, and that no series obeys by a cycle of bounds
//! (weak duality of linear programs; the distance is that of Song, Zhang, Wang and Yu, SCREEN, SIGMOD 2015).
#![tactic(auto)]

mod answer;
mod cycle;
mod flow;
mod laws;
mod outcome;
mod problem;
mod repair;
mod series;

pub use laws::repair_is_one;
pub use outcome::Outcome;
pub use problem::Problem;
pub use repair::least_cost;
