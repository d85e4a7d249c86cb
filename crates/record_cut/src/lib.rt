//! CSV records by pushed bytes.
//!
//! The bytes of a CSV text, however they are cut into pieces, give the records of the grammar and no
//! others, and each fault comes at its byte.
#![tactic(auto)]

mod bytes;
mod cutter;
mod draft;
mod fault;
mod fields;
mod laws;
mod phase;
mod place;
mod row;
mod split;
mod taken;

pub use cutter::{Cutter, LONGEST};
pub use fault::CutFault;
pub use fields::Fields;
pub use laws::{
    faults_stay, records_are_cut_by_lines, records_are_small, records_stay, row_texts_are_cut_back,
};
pub use row::{end_row, push_first_field, push_next_field, push_row, row_text};
pub use taken::Taken;
