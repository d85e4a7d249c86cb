//! The law that every rule file has an answer.
ghost use Rattle.std.specs.Prelude.{◌≡◌, ◌≤◌, Some, Result, MatchOption, option_map};
ghost use Rattle.toml.specs.Data.{Members, as_table};
ghost use Rattle.toml.specs.View.{view, items_view, table_view};
ghost use Rattle.rule_keys.specs.Entries.{Fit};
ghost use Rattle.rule_keys.specs.Keys.{keys_of};
ghost use Rattle.rule_file.specs.Answered.{AllHave, HasAnswer};
ghost use Rattle.rule_file.specs.Document.{rule_kinds, rule_tables, tables_in, tables_of, ReadsDocument, ReadsFormat};
ghost use Rattle.rule_file.specs.File.{ReadsFile};
ghost use Rattle.rule_file.specs.Meaning.{scale_of};
ghost use Rattle.rule_file.specs.Toml.{IsToml};

use crate::document::NO_SCALE;
use crate::fault::RuleFault;
use crate::rate::small_number;
use crate::rules::Rules;
use crate::tables::{RULE_KINDS, has_known_keys, key_of};
use rule_keys::{Entries, KeyName, Scale, TableKind, read_table};
use std::alloc::Global;
use time_text::TimeForm;
use toml::{Table, Value};

/// Every text has an answer: its rules, or the first reason to refuse it.
///
/// The table is what the text is read as by `toml`, and there is none where it is no TOML. It takes no memory.
pub fn an_answer(alloc: Global, bytes: &[u8], file: Option<&Table>)
    requires { MatchOption file ((found : Members) → ¬ IsToml bytes.now found) (λ table. IsToml bytes.now (table_view table.now)) }
    ensures { (answer : Result Rules RuleFault) × ReadsFile bytes.now answer }
{
    let _bytes = bytes;
    match file {
        Some(file) => document_answer(alloc, file),
        None => {}
    }
}

/// The table of a file has an answer.
fn document_answer(alloc: Global, file: &Table)
    ensures { (answer : Result Rules RuleFault) × ReadsDocument (table_view file.now) answer }
{
    if !has_known_keys(file) {
        return;
    }
    let Some(value) = file.get(key_of(TableKind::Format)) else {
        return;
    };
    match value.as_table() {
        Some(format) => format_answer(alloc, file, format),
        None => {}
    }
}

/// A file that has this table of the format has an answer.
fn format_answer(alloc: Global, file: &Table, format: &Table)
    ensures { (answer : Result Rules RuleFault) × ReadsFormat (table_view file.now) (table_view format.now) answer }
{
    match read_table(alloc, NO_SCALE, TableKind::Format, format) {
        Ok(entries) => tables_answer(alloc, scale_in(&entries), file),
        Err(_) => {}
    }
}

/// What the values and times in the rules are counted in, by the entries of the format.
fn scale_in(format: &Entries<'_>) -> Scale
    requires { Fit (keys_of TableKind.Format) format.now }
    ensures same { result ≡ scale_of format.now }
    ensures decimals { result.decimals ≤ 6 }
{
    Scale {
        decimals: small_number(format, KeyName::Decimals),
        form: format.form(KeyName::Form).unwrap_or(TimeForm::Sec),
    }
}

/// The tables of all rules have answers.
fn tables_answer(alloc: Global, scale: Scale, file: &Table)
    requires { scale.decimals ≤ 6 }
    ensures { AllHave scale (rule_tables rule_kinds (table_view file.now)) }
{
    for kind in RULE_KINDS {
        kind_answer(alloc, scale, kind, file.get(key_of(kind)));
    }
}

/// The tables of a kind have answers.
fn kind_answer(alloc: Global, scale: Scale, kind: TableKind, value: Option<&Value>)
    requires { scale.decimals ≤ 6 }
    ensures { AllHave scale (tables_of kind (option_map (λ v. view v.now) value.entry)) }
{
    let Some(value) = value else {
        return;
    };
    match value.as_array() {
        Some(members) => members_answer(alloc, scale, kind, members.as_slice()),
        None => {}
    }
}

/// The members of an array have answers, as far as they are tables.
fn members_answer(alloc: Global, scale: Scale, kind: TableKind, members: &[Value])
    requires { scale.decimals ≤ 6 }
    ensures { AllHave scale (tables_in kind (items_view members.now)) }
{
    for member in members {
        member_answer(alloc, scale, kind, member);
    }
}

/// A member that is a table has an answer.
fn member_answer(alloc: Global, scale: Scale, kind: TableKind, member: &Value)
    requires { scale.decimals ≤ 6 }
    ensures { (found : Members) → as_table (view member.now) ≡ Some found → HasAnswer scale (kind, found) }
{
    match member.as_table() {
        Some(table) => rule_keys::an_answer(alloc, scale, kind, table),
        None => {}
    }
}
