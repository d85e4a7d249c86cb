//! The report of a certificate that was accepted, for a person to read.
//!
//! It tells what is true of the table by the rules: what a repair changes in each column, what it pays for the bounds of each
//! rule that has a price, and the flow that shows that no series that obeys costs less; or the bounds that show that none obeys.
#![tactic(auto)]

mod columns;
mod comparison;
mod cycle;
mod lines;
mod prices;
mod reading;
mod readings;
mod report;
mod tally;

pub use report::report_text;
