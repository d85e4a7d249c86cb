//! The tables of a rule file: which keys each has, what may stand at them, and what is read there.
#![tactic(auto)]

mod cause;
mod check;
mod entries;
mod key;
mod keys;
mod limits;
mod read;
mod texts;
mod value;

pub use cause::KeyCause;
pub use entries::Entries;
pub use key::{Absent, Check, Choice, Chosen, Key, KeyName, Kind, TableKind};
pub use keys::keys_of;
pub use limits::{MOST_DECIMALS, MOST_HOLD, MOST_PRICE, MOST_WEIGHT};
pub use read::{Scale, an_answer, one_answer, read_table};
pub use texts::{Word, key_text, words_of};
