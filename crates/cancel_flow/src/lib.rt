//! The plain solver of flow networks: negative cycles cancelled one after the other.
//!
//! The method is that of Klein (A primal method for minimal cost flows with applications to the assignment and
//! transportation problems, 1967). It is for tests, and as a second opinion beside a faster solver.
#![tactic(auto)]

mod cancel;
mod potentials;
mod solver;

pub use solver::CancelSolver;
