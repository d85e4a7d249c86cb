//! The laws of headers and rows.
ghost use Rattle.std.specs.Prelude.{◌≡◌, ℕ, List, Result};
ghost use Rattle.rule_file.specs.declared.rules.Rules.{Rules};
ghost use Rattle.series_rows.specs.Before.{BeforeView};
ghost use Rattle.series_rows.specs.Header.{HeaderView, ReadsHeader};
ghost use Rattle.series_rows.specs.ReadBack.{RowsAreReadBack};
ghost use Rattle.series_rows.specs.ReadsRow.{ReadsRow};
ghost use Rattle.series_rows.specs.Row.{RowView};

use crate::fault::TableFault;
use crate::limits::Limits;

/// The fields of the first record have one answer only: one header, or one reason why they are none. The contract is this
/// law; the call does nothing.
pub fn one_header()
    ensures { (rules : Rules) (fields : List (List ℕ)) (one other : Result HeaderView TableFault) →
        ReadsHeader rules fields one → ReadsHeader rules fields other → one ≡ other }
{}

/// They always have an answer. The contract is this law; the call does nothing.
pub fn a_header()
    ensures { (rules : Rules) (fields : List (List ℕ)) → (answer : Result HeaderView TableFault) × ReadsHeader rules fields answer }
{}

/// The fields of a later record have one answer only: one row, or one reason why they are none. The contract is this law;
/// the call does nothing.
pub fn one_row()
    ensures { (rules : Rules) (header : HeaderView) (limits : Limits) (before : BeforeView) (fields : List (List ℕ))
        (one other : Result RowView TableFault) →
        ReadsRow rules header limits before fields one → ReadsRow rules header limits before fields other → one ≡ other }
{
    fix_point::one_answer();
    time_text::one_answer();
}

/// They always have an answer. The contract is this law; the call does nothing.
pub fn a_row()
    ensures { (rules : Rules) (header : HeaderView) (limits : Limits) (before : BeforeView) (fields : List (List ℕ)) →
        (answer : Result RowView TableFault) × ReadsRow rules header limits before fields answer }
{
    fix_point::an_answer();
    time_text::an_answer();
}

/// The text of a row with other values is cut into one record, where it is no longer than a record may be, and what it
/// was written from is read as the row with these values. The contract is this law; the call does nothing.
pub fn rows_are_read_back()
    ensures { RowsAreReadBack }
{
    fix_point::texts_are_read_back();
    record_cut::row_texts_are_cut_back();
}
