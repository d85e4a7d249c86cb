//! The repair of a table under its rules: of the series that obey them and cost least the greatest.
//!
//! What a series costs is its weighted change and what it pays for the bounds that it breaks; where no rule has a price and
//! no reading a weight, this is the distance of Song, Zhang, Wang and Yu (SCREEN, SIGMOD 2015).
#![tactic(auto)]

mod fault;
mod lists;
mod table;

pub use fault::RepairFault;
pub use least_cost::Outcome;
pub use table::repair;
