//! Files of cases: what is tried, and what should come of it, line by line. Programs of tests read them.
//!
//! ```text
//! # A comment. Empty lines mean nothing.
//! separator ,
//! cut a,"b"\n => [a][b]
//! rules
//! | [format]
//! | decimals = 0
//! table time,x\n0,1\n => accepted
//! ```
//!
//! - `KEY TEXT` is a setting. It holds for all cases after it, until the same key is set again.
//! - `KEY TEXT => TEXT` is a case: its key, its input, and the answer that is wanted.
//! - `| TEXT` adds TEXT and a line feed to what stands before it: to a setting, or to the answer of a case.
//!
//! In a text `\n`, `\r`, `\t`, `\s` (space) and `\\` stand for one byte, and so does `\xHH`, in hexadecimal digits.
//! `\*N{TEXT}` is TEXT, N times; in it `\i` is the number of times that came before.
#![tactic(auto)]

mod line;
mod progress;
mod settings;
mod text;

pub use progress::{Answers, judge};
pub use settings::Settings;
