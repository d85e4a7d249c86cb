//! The command `online` of `screen`: it repairs readings as they come on a stream.
#![tactic(auto)]

mod stream;

pub use stream::{MOST_BYTES, PIECE, online};
