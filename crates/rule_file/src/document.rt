//! The table of a rule file.
ghost use Rattle.std.specs.Prelude.{◌≤◌, length, map};
ghost use Rattle.toml.specs.View.{table_view};
ghost use Rattle.words.specs.Answers.{UnlessMemory};
ghost use Rattle.rule_keys.specs.Entries.{Fit};
ghost use Rattle.rule_keys.specs.Keys.{keys_of};
ghost use Rattle.rule_file.specs.Document.{rule_kinds, rule_tables, ReadsAll, ReadsDocument, ReadsFormat, ReadsTables};
ghost use Rattle.rule_file.specs.Fault.{of_the_file};
ghost use Rattle.rule_file.specs.Tables.{seen};

use crate::each::read_each;
use crate::fault::{RuleCause, RuleFault};
use crate::format::{format_from, scale_of};
use crate::rules::{MOST_RULES, Rules};
use crate::tables::{RuleTable, has_known_keys, key_of, rule_tables};
use rule_keys::{Entries, Scale, TableKind, read_table};
use std::alloc::Global;
use time_text::TimeForm;
use toml::Table;

/// What the format is read with, as it has no values and times of its own.
pub(crate) const NO_SCALE: Scale = Scale {
    decimals: 0,
    form: TimeForm::Sec,
};

/// The rules of the table of a file.
pub(crate) fn document_rules(alloc: Global, file: &Table) -> Result<Rules, RuleFault>
    ensures { UnlessMemory (of_the_file RuleCause.Memory) (ReadsDocument (table_view file.now)) result }
{
    if !has_known_keys(file) {
        return Err(RuleFault::of_the_file(RuleCause::UnknownKey));
    }
    let Some(value) = file.get(key_of(TableKind::Format)) else {
        return Err(RuleFault::of_the_file(RuleCause::MissingKey));
    };
    match value.as_table() {
        Some(format) => formatted_rules(alloc, file, format),
        None => Err(RuleFault::of_the_file(RuleCause::WrongKind)),
    }
}

/// The rules of a file that has this table of the format.
fn formatted_rules(alloc: Global, file: &Table, format: &Table) -> Result<Rules, RuleFault>
    ensures { UnlessMemory (of_the_file RuleCause.Memory) (ReadsFormat (table_view file.now) (table_view format.now)) result }
{
    match read_table(alloc, NO_SCALE, TableKind::Format, format) {
        Ok(entries) => scaled_rules(alloc, file, &entries),
        Err(cause) => Err(RuleFault::of_the_file(RuleCause::of_key(cause))),
    }
}

/// The rules of a file that has a format of these entries.
fn scaled_rules(alloc: Global, file: &Table, format: &Entries<'_>) -> Result<Rules, RuleFault>
    requires { Fit (keys_of TableKind.Format) format.now }
    ensures { UnlessMemory (of_the_file RuleCause.Memory) (ReadsTables format.now (rule_tables rule_kinds (table_view file.now))) result }
{
    let tables = rule_tables(alloc, file)?;
    if tables.len() > MOST_RULES {
        return Err(RuleFault::of_the_file(RuleCause::TooMany));
    }
    numbered_rules(alloc, format, tables.as_slice())
}

/// The rules of these tables, which are counted as the format of these entries says.
fn numbered_rules(
    alloc: Global,
    format: &Entries<'_>,
    tables: &[RuleTable<'_>],
) -> Result<Rules, RuleFault>
    requires fit { Fit (keys_of TableKind.Format) format.now }
    requires few { length tables.now ≤ MOST_RULES }
    ensures { UnlessMemory (of_the_file RuleCause.Memory) (ReadsAll format.now (map seen tables.now)) result }
{
    let Ok(format) = format_from(alloc, format) else {
        return Err(RuleFault::of_the_file(RuleCause::Memory));
    };
    let draft = read_each(alloc, scale_of(&format), tables)?;
    Ok(Rules {
        format,
        speeds: draft.speeds,
        swings: draft.swings,
        drifts: draft.drifts,
        ranges: draft.ranges,
        trusts: draft.trusts,
        weights: draft.weights,
        betweens: draft.betweens,
    })
}
