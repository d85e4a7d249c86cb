//! The report that no series obeys.
ghost use Rattle.std.specs.Prelude.{◌≡◌, ◌++◌, ◌^◌, ◌+◌, ◌<◌, ◌≤◌, ◌+ℤ◌, map, unsigned_abs, Contains, IfOk, OnOk};
ghost use Rattle.words.specs.Lists.{total};
ghost use Rattle.screen_model.specs.declared.bound.Bound.{Bound};
ghost use Rattle.screen_model.specs.Names.{AreNamesIn, names_of};
ghost use Rattle.cert_format.specs.Words.{text_of_lines};
ghost use Rattle.bound_maker.specs.Bounds.{all_bounds};
ghost use Rattle.bound_maker.specs.Costs.{whole_problem};
ghost use Rattle.cert_check.specs.Cycle.{cycle_of};
ghost use Rattle.cert_check.specs.Laws.{IsTrueCycle};
ghost use Rattle.repair_report.specs.Lines.{step_line};
ghost use Rattle.repair_report.specs.Report.{cycle_lines};

use crate::lines::{push_step, push_value_line};
use bound_maker::{bound_of, names_are_distinct, problem_is_sound};
use rule_file::Rules;
use screen_model::{Bound, BoundName, NameList};
use series_csv::Table;
use std::alloc::AllocError;

/// The bound with a name, where there is one.
fn bound_named(table: &Table, rules: &Rules, name: BoundName) -> Bound
    requires { Contains (names_of (whole_problem rules.now table.now).bounds) name }
    ensures member { Contains (all_bounds rules.now table.now) result }
    ensures name { result.name ≡ name }
{
    bound_of(table, rules, name).unwrap()
}

/// A sum of limits, with that of one more bound.
fn with_limit(sum: i128, bound: Bound) -> i128
    requires { unsigned_abs sum < 2 ^ 126 }
    ensures sum { result ≡ sum +ℤ bound.limit }
    ensures small { unsigned_abs result ≤ unsigned_abs sum + 2 ^ 63 }
{
    sum + i128::from(bound.limit)
}

/// Adds the line of each bound of a cycle, and answers the sum of their limits.
fn push_steps(
    text: &mut Vec<u8>,
    table: &Table,
    rules: &Rules,
    cycle: &[BoundName],
) -> Result<i128, AllocError>
    requires { AreNamesIn (whole_problem rules.now table.now).bounds cycle.now }
    ensures text { OnOk result (text.new.items ≡ text.old.items ++ text_of_lines (map (step_line rules.now.format.decimals) (cycle_of rules.now table.now cycle.now))) }
    ensures sum { IfOk result (λ sum. sum ≡ total (map (λ (bound : Bound). bound.limit) (cycle_of rules.now table.now cycle.now))) }
{
    // No two bounds share a name.
    names_are_distinct(table, rules);
    let mut sum = 0;
    for name in cycle {
        let bound = bound_named(table, rules, *name);
        push_step(text, rules.format.decimals, bound)?;
        sum = with_limit(sum, bound);
    }
    Ok(sum)
}

/// Adds the report that no series obeys.
pub(crate) fn push_cycle(
    text: &mut Vec<u8>,
    table: &Table,
    rules: &Rules,
    cycle: &NameList,
) -> Result<(), AllocError>
    requires { IsTrueCycle rules.now table.now cycle.now }
    ensures { OnOk result (text.new.items ≡ text.old.items ++ text_of_lines (cycle_lines rules.now table.now cycle.now)) }
{
    // No two bounds of the cycle begin at the same reading, so that there are not too many of them.
    problem_is_sound(table, rules);
    let _places = table.places();
    let _count = table.len();
    text.extend_from_slice(b"claim none\n")?;
    let sum = push_steps(text, table, rules, cycle.as_slice())?;
    push_value_line(text, b"sum", rules.format.decimals, sum)
}
