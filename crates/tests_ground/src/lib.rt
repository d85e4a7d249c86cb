//! The tests of the ground: lists, the model of a table, ends outside, numbers, times and samples.
#![tactic(auto)]

#[cfg(test)]
mod fix_point_tests;
#[cfg(test)]
mod sample_maker_tests;
#[cfg(test)]
mod screen_io_tests;
#[cfg(test)]
mod screen_model_tests;
#[cfg(test)]
mod sequence_tests;
#[cfg(test)]
mod time_text_tests;
