//! The rules of a rule file, one after the other.
ghost use Rattle.std.specs.Prelude.{◌≡◌, ◌≢◌, ◌+◌, ◌≤◌, List, Ok, Err, length, map, IfOk, IfErr, OnOk};
ghost use Rattle.toml.specs.View.{table_view};
ghost use Rattle.rule_keys.specs.declared.cause.KeyCause.{KeyCause};
ghost use Rattle.rule_keys.specs.declared.key.TableKind.{TableKind};
ghost use Rattle.rule_keys.specs.Table.{Reads};
ghost use Rattle.rule_file.specs.declared.rules.TheConstants.{MOST_RULES};
ghost use Rattle.rule_file.specs.Document.{ReadsRules};
ghost use Rattle.rule_file.specs.Draft.{AddsRule, AreDraftOf, count_in};
ghost use Rattle.rule_file.specs.Fault.{of_the_file, of_rule};
ghost use Rattle.rule_file.specs.Meaning.{Entries};
ghost use Rattle.rule_file.specs.Tables.{seen};

use crate::draft::{Draft, no_rules, push_rule};
use crate::fault::{RuleCause, RuleFault};
use crate::tables::RuleTable;
use rule_keys::{Scale, read_table};
use std::alloc::Global;

/// Reads the tables of rules, of which the first has the number 1.
pub(crate) fn read_each(
    alloc: Global,
    scale: Scale,
    tables: &[RuleTable<'_>],
) -> Result<Draft, RuleFault>
    requires decimals { scale.decimals ≤ 6 }
    requires few { length tables.now ≤ MOST_RULES }
    ensures accepted { IfOk result (λ draft. (read : List (TableKind × Entries)) × ReadsRules scale 1 (map seen tables.now) (Ok read) × AreDraftOf read draft) }
    ensures few { IfOk result (λ draft. count_in draft ≤ MOST_RULES) }
    ensures refused { IfErr result (λ fault. fault ≢ of_the_file RuleCause.Memory → ReadsRules scale 1 (map seen tables.now) (Err fault)) }
{
    let mut draft = no_rules(alloc);
    for (place, rule) in tables.iter().enumerate() {
        read_rule(alloc, scale, place as u32 + 1, *rule, &mut draft)?;
    }
    Ok(draft)
}

/// Reads the table of the rule of this number, and adds the rule.
fn read_rule(
    alloc: Global,
    scale: Scale,
    number: u32,
    rule: RuleTable<'_>,
    draft: &mut Draft,
) -> Result<(), RuleFault>
    requires { scale.decimals ≤ 6 }
    ensures added { OnOk result ((read : Entries) × Reads scale rule.entry.kind (table_view rule.entry.table.now) (Ok read) × AddsRule rule.entry.kind read draft.old draft.new) }
    ensures count { OnOk result (count_in draft.new ≤ count_in draft.old + 1) }
    ensures refused { IfErr result (λ fault. fault ≢ of_the_file RuleCause.Memory →
        (cause : KeyCause) × Reads scale rule.entry.kind (table_view rule.entry.table.now) (Err cause) × (fault ≡ of_rule number cause)) }
{
    match read_table(alloc, scale, rule.kind, rule.table) {
        Ok(entries) => push_rule(alloc, draft, rule.kind, &entries).map_err(
            |_| RuleFault::of_the_file(RuleCause::Memory),
        ),
        Err(cause) => Err(RuleFault::of_rule(number, cause)),
    }
}
