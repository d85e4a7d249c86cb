//! The tables of a rule file.
ghost use Rattle.std.specs.Prelude.{◌≡◌, ◌≢◌, ◌↔◌, Some, None, map, option_map, IsTrue, IfOk, IfErr, OnOk, Contains};
ghost use Rattle.std.specs.List.{list_any};
ghost use Rattle.std.specs.Str.{bytes_eq};
ghost use Rattle.toml.specs.View.{view, items_view, table_view};
ghost use Rattle.rule_keys.specs.Table.{HasOnly};
ghost use Rattle.rule_file.specs.Document.{kind_text, rule_kinds, table_texts, tables_in, tables_of, rule_tables, joined};
ghost use Rattle.rule_file.specs.Fault.{of_the_file};
ghost use Rattle.rule_file.specs.Tables.{seen};

use crate::fault::{RuleCause, RuleFault};
use rule_keys::TableKind;
use std::alloc::Global;
use toml::{Table, Value};

/// The kinds of rules, in the order of their numbers.
pub(crate) const RULE_KINDS: [TableKind; 7] = [
    TableKind::Speed,
    TableKind::Swing,
    TableKind::Drift,
    TableKind::Range,
    TableKind::Trust,
    TableKind::Weight,
    TableKind::Between,
];

/// The table of a rule.
#[derive(Clone, Copy)]
pub(crate) struct RuleTable<'a> {
    /// What kind of rule it is.
    pub(crate) kind: TableKind,
    /// Its keys.
    pub(crate) table: &'a Table,
}

/// The key at which the tables of a kind stand.
pub fn key_of(kind: TableKind) -> &'static str
    ensures { result.now ≡ kind_text kind }
{
    match kind {
        TableKind::Format => "format",
        TableKind::Speed => "speed",
        TableKind::Swing => "swing",
        TableKind::Drift => "drift",
        TableKind::Range => "range",
        TableKind::Trust => "trust",
        TableKind::Weight => "weight",
        TableKind::Between => "between",
    }
}

/// Whether tables of some kind stand at the key.
fn is_known(key: &str) -> bool
    ensures { IsTrue result ↔ Contains table_texts key.now }
{
    is_key_of(TableKind::Format, key) || is_among(&RULE_KINDS, key)
}

/// Whether tables of one of these kinds stand at the key.
fn is_among(kinds: &[TableKind], key: &str) -> bool
    ensures { result ≡ list_any (λ kind. bytes_eq (kind_text kind) key.now) kinds.now }
{
    kinds.iter().any(|kind| is_key_of(*kind, key))
}

/// Whether tables of this kind stand at the key.
fn is_key_of(kind: TableKind, key: &str) -> bool
    ensures { result ≡ bytes_eq (kind_text kind) key.now }
{
    key_of(kind) == key
}

/// Whether a file has no other keys than those of the tables.
pub(crate) fn has_known_keys(file: &Table) -> bool
    ensures { IsTrue result ↔ HasOnly table_texts (table_view file.now) }
{
    for (key, _) in file {
        if !is_known(key.as_str()) {
            return false;
        }
    }
    true
}

/// The tables of all rules, in the order of their numbers.
pub(crate) fn rule_tables(alloc: Global, file: &Table) -> Result<Vec<RuleTable<'_>>, RuleFault>
    ensures found { IfOk result (λ tables. rule_tables rule_kinds (table_view file.now) ≡ Some (map seen tables.items)) }
    ensures refused { IfErr result (λ fault. fault ≢ of_the_file RuleCause.Memory → fault ≡ of_the_file RuleCause.WrongKind) }
    ensures none { IfErr result (λ fault. fault ≢ of_the_file RuleCause.Memory → rule_tables rule_kinds (table_view file.now) ≡ None) }
{
    let mut tables = Vec::new(alloc);
    for kind in RULE_KINDS {
        push_tables(&mut tables, kind, file.get(key_of(kind)))?;
    }
    Ok(tables)
}

/// Adds the tables of a kind, in the order of the file.
fn push_tables<'a>(
    tables: &mut Vec<RuleTable<'a>>,
    kind: TableKind,
    value: Option<&'a Value>,
) -> Result<(), RuleFault>
    ensures found { OnOk result (joined (Some (map seen tables.old.items)) (tables_of kind (option_map (λ v. view v.now) value.entry)) ≡ Some (map seen tables.new.items)) }
    ensures refused { IfErr result (λ fault. fault ≢ of_the_file RuleCause.Memory → fault ≡ of_the_file RuleCause.WrongKind) }
    ensures none { IfErr result (λ fault. fault ≢ of_the_file RuleCause.Memory → tables_of kind (option_map (λ v. view v.now) value.entry) ≡ None) }
{
    let Some(value) = value else {
        return Ok(());
    };
    match value.as_array() {
        Some(members) => push_members(tables, kind, members.as_slice()),
        None => Err(RuleFault::of_the_file(RuleCause::WrongKind)),
    }
}

/// Adds the members of an array, if they are tables.
fn push_members<'a>(
    tables: &mut Vec<RuleTable<'a>>,
    kind: TableKind,
    members: &'a [Value],
) -> Result<(), RuleFault>
    ensures found { OnOk result (joined (Some (map seen tables.old.items)) (tables_in kind (items_view members.now)) ≡ Some (map seen tables.new.items)) }
    ensures refused { IfErr result (λ fault. fault ≢ of_the_file RuleCause.Memory → fault ≡ of_the_file RuleCause.WrongKind) }
    ensures none { IfErr result (λ fault. fault ≢ of_the_file RuleCause.Memory → tables_in kind (items_view members.now) ≡ None) }
{
    for member in members {
        let Some(table) = member.as_table() else {
            return Err(RuleFault::of_the_file(RuleCause::WrongKind));
        };
        let pushed = tables.push(RuleTable { kind, table });
        pushed.map_err(|_| RuleFault::of_the_file(RuleCause::Memory))?;
    }
    Ok(())
}
