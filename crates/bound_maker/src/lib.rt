//! The bounds that rules make of a table, the weights of its readings, and what a series costs.
//!
//! Beside the list of bounds that a program works with stands the longer one in which a speed rule speaks of each two
//! readings of its sensor: what obeys the one obeys the other.
#![tactic(auto)]

mod between;
mod change;
mod columns;
mod cost;
mod count;
mod laws;
mod maker;
mod name;
mod pairs;
mod reading;
mod rule;
mod sound;
mod values;
mod weigher;
mod weight;
mod window;
mod written;

pub use change::change_of;
pub use cost::{cost_of, first_broken, paid_for, paid_of, price_of};
pub use laws::{best_over_made, made_bind_all, made_is_a_part, names_are_distinct};
pub use maker::{MOST_BOUNDS, MakeFault, make};
pub use name::bound_of;
pub use sound::problem_is_sound;
pub use weigher::weights_of;
pub use weight::weight_of;
pub use written::names_can_be_written;
