//! Certificates, checked by a table and rules: what a certificate is accepted as, or the first of its faults.
//!
//! What is accepted is true: no series that obeys costs less than a repair that is accepted, and no series obeys where a
//! cycle is accepted. The check finds no repair of its own. It looks each bound up by its name.
#![tactic(auto)]

mod accepted;
mod cycle;
mod fault;
mod flow;
mod laws;
mod marks;
mod repair;
mod sets;
mod sums;
mod verdict;

pub use accepted::Accepted;
pub use fault::CertFault;
pub use laws::{accepted_is_true, an_answer, one_answer, shown_is_short, truth_is_accepted};
pub use verdict::check;
