//! Decimal texts as whole numbers of a unit, whole numbers as texts, and the whole steps of rates: exact,
//! and in no memory but that of a text that is written.
#![tactic(auto)]

mod number;
mod rate;
mod scale;
mod size;
mod steps;
mod text;

pub use number::{MOST_BYTES, MOST_DIGITS, MOST_EXPONENT_DIGITS};
pub use rate::{
    MOST_MILLIONTHS, MOST_PER, MOST_REACH, MOST_SPAN, Rate, ceil_rate, floor_rate,
    least_is_greatest_turned, one_step, reach_of_fewer_ticks, steps_add_up, whole_steps,
};
pub use scale::{Extra, MOST_UNITS, NumFault, an_answer, one_answer, one_value, scaled, units};
pub use steps::{Step, Steps};
pub use text::{push_text_of, text_of, texts_are_read_back};
