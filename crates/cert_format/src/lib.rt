//! Certificates: what a repair or a cycle of bounds claims, as a text of lines and words, written and read.
//!
//! Each certificate has one text, and each text is that of one certificate at most. A text that is none is refused at
//! the first line that is not as the form wants it after the lines before it.
#![tactic(auto)]

mod cert;
mod draft;
mod fault;
mod laws;
mod limits;
mod line;
mod number;
mod order;
mod parse;
mod read;
mod write;

pub use cert::{Cert, SetLine, SetList};
pub use fault::CertRead;
pub use laws::{an_answer, one_answer, one_spelling, round_trip, sets_tell_series, short_texts};
pub use limits::{LONGEST, MOST_AMOUNT, MOST_RULE, TOTAL_DIGITS, VALUE_DIGITS};
pub use line::{Line, Version};
pub use read::read_cert;
pub use write::{push_line, write_cert};
