//! The text of a report.
ghost use Rattle.std.specs.Prelude.{◌≡◌, ◌==◌, ◌++◌, ◌∷◌, [], ◌^◌, ◌≤◌, pos, codes, filter, length, map, unsigned_abs, if◌then◌else◌, IfOk, OnOk};
ghost use Rattle.screen_model.specs.Cost.{cost, paid};
ghost use Rattle.screen_model.specs.Obeys.{Obeys};
ghost use Rattle.cert_format.specs.Words.{text_of_lines};
ghost use Rattle.series_csv.specs.Readings.{places};
ghost use Rattle.bound_maker.specs.Bounds.{made_bounds};
ghost use Rattle.bound_maker.specs.Costs.{whole_problem};
ghost use Rattle.bound_maker.specs.declared.maker.TheConstants.{MOST_BOUNDS};
ghost use Rattle.cert_check.specs.Laws.{IsTrueClaim, IsTrueRepair};
ghost use Rattle.repair_report.specs.Lines.{change_line, value_line};
ghost use Rattle.repair_report.specs.Readings.{is_changed};
ghost use Rattle.repair_report.specs.Repairs.{priced_rules, repaired};
ghost use Rattle.repair_report.specs.RepairLines.{change_lines, column_lines, flow_lines, repair_lines, rule_lines, total_lines};
ghost use Rattle.repair_report.specs.Report.{report_text};
ghost use Rattle.repair_report.specs.Tallies.{AreTallies};

use crate::columns::push_columns;
use crate::comparison::compare;
use crate::cycle::push_cycle;
use crate::lines::{push_change, push_value_line};
use crate::prices::{priced_rules, push_rules};
use crate::reading::Repaired;
use crate::tally::Tally;
use bound_maker::{best_over_made, problem_is_sound};
use cert_check::Accepted;
use cert_format::{Line, push_line};
use rule_file::Rules;
use screen_model::{FlowItem, Series};
use series_csv::Table;
use std::alloc::{AllocError, Global};

/// Adds the line of each item of a flow.
fn push_flow(text: &mut Vec<u8>, flow: &[FlowItem]) -> Result<(), AllocError>
    ensures { OnOk result (text.new.items ≡ text.old.items ++ text_of_lines (flow_lines flow.now)) }
{
    for item in flow {
        push_line(text, Line::Flow(*item))?;
        text.push(b'\n')?;
    }
    Ok(())
}

/// Adds what a repair costs and, where some rule has a price, what it pays.
fn push_totals(
    text: &mut Vec<u8>,
    decimals: u32,
    costs: (i128, i128),
    priced: &[u32],
) -> Result<(), AllocError>
    requires decimals { decimals ≤ 6 }
    requires total { unsigned_abs costs.0 ≤ 10 ^ 30 }
    requires paid { unsigned_abs costs.1 ≤ 10 ^ 30 }
    ensures { OnOk result (text.new.items ≡ text.old.items ++ text_of_lines (codes "claim repair" ∷ value_line (codes "total") decimals costs.0
        ∷ (if length priced.now == 0 then [] else value_line (codes "paid") decimals costs.1 ∷ []))) }
{
    text.extend_from_slice(b"claim repair\n")?;
    push_value_line(text, b"total", decimals, costs.0)?;
    if priced.is_empty() {
        Ok(())
    } else {
        push_value_line(text, b"paid", decimals, costs.1)
    }
}

/// What a series that obeys costs and pays has at most 30 digits: there are not too many readings and bounds with a price, and
/// none counts too much.
fn sums_fit(table: &Table, rules: &Rules, series: &Series, tallies: &[Tally])
    requires few { length (made_bounds rules.now table.now) ≤ MOST_BOUNDS }
    requires counted { AreTallies (repaired rules.now table.now series.now) tallies.now }
    requires obeys { Obeys (places table.now) series.now (whole_problem rules.now table.now).bounds }
    ensures cost { cost (whole_problem rules.now table.now) series.now ≤ 10 ^ 30 }
    ensures paid { paid (whole_problem rules.now table.now) series.now ≤ 10 ^ 30 }
{
    best_over_made(table, rules);
    problem_is_sound(table, rules);
    let _count = table.len();
    let _places = table.places();
    let _series = series;
    let _tallies = tallies;
}

/// Adds the line of each of these readings, which changed.
fn push_changes(text: &mut Vec<u8>, decimals: u32, changes: &[Repaired]) -> Result<(), AllocError>
    requires { decimals ≤ 6 }
    ensures { OnOk result (text.new.items ≡ text.old.items ++ text_of_lines (map (change_line decimals) changes.now)) }
{
    for reading in changes {
        push_change(text, decimals, *reading)?;
    }
    Ok(())
}

/// Adds the line of each of these readings, which changed, and those of the flow.
fn push_lists(
    text: &mut Vec<u8>,
    decimals: u32,
    changes: &[Repaired],
    flow: &[FlowItem],
) -> Result<(), AllocError>
    requires { decimals ≤ 6 }
    ensures { OnOk result (text.new.items ≡ text.old.items ++ text_of_lines (map (change_line decimals) changes.now ++ flow_lines flow.now)) }
{
    push_changes(text, decimals, changes)?;
    push_flow(text, flow)
}

/// Adds the lines of the rules that have a price, and those of the lists.
fn push_after_columns(
    alloc: Global,
    text: &mut Vec<u8>,
    table: &Table,
    rules: &Rules,
    series: &Series,
    changes: &[Repaired],
    flow: &[FlowItem],
    priced: &[u32],
) -> Result<(), AllocError>
    requires changed { changes.now ≡ filter is_changed (repaired rules.now table.now series.now) }
    requires priced { priced.now ≡ priced_rules rules.now }
    requires few { length (made_bounds rules.now table.now) ≤ MOST_BOUNDS }
    requires obeys { Obeys (places table.now) series.now (whole_problem rules.now table.now).bounds }
    ensures { OnOk result (text.new.items ≡ text.old.items ++ text_of_lines (rule_lines rules.now table.now series.now ++ (change_lines rules.now table.now series.now ++ flow_lines flow.now))) }
{
    push_rules(alloc, text, table, rules, series, priced)?;
    push_lists(text, rules.format.decimals, changes, flow)
}

/// Adds what a series costs and pays, and the table of columns.
fn push_sums(
    alloc: Global,
    text: &mut Vec<u8>,
    table: &Table,
    rules: &Rules,
    series: &Series,
    tallies: &[Tally],
    costs: (i128, i128),
    priced: &[u32],
) -> Result<(), AllocError>
    requires counted { AreTallies (repaired rules.now table.now series.now) tallies.now }
    requires few { length (made_bounds rules.now table.now) ≤ MOST_BOUNDS }
    requires obeys { Obeys (places table.now) series.now (whole_problem rules.now table.now).bounds }
    requires total { costs.0 ≡ pos (cost (whole_problem rules.now table.now) series.now) }
    requires paid { costs.1 ≡ pos (paid (whole_problem rules.now table.now) series.now) }
    requires priced { priced.now ≡ priced_rules rules.now }
    ensures { OnOk result (text.new.items ≡ text.old.items ++ text_of_lines (total_lines rules.now table.now series.now ++ column_lines rules.now table.now series.now)) }
{
    sums_fit(table, rules, series, tallies);
    push_totals(text, rules.format.decimals, costs, priced)?;
    push_columns(alloc, text, table, rules, series, tallies)
}

/// Adds the report of a repair.
fn push_repair(
    alloc: Global,
    text: &mut Vec<u8>,
    table: &Table,
    rules: &Rules,
    series: &Series,
    flow: &[FlowItem],
    costs: (i128, i128),
) -> Result<(), AllocError>
    requires few { length (made_bounds rules.now table.now) ≤ MOST_BOUNDS }
    requires repair { IsTrueRepair rules.now table.now series.now flow.now costs.0 costs.1 }
    ensures { OnOk result (text.new.items ≡ text.old.items ++ text_of_lines (repair_lines rules.now table.now series.now flow.now)) }
{
    // There are as many places as readings.
    let _places = table.places();
    let comparison = compare(alloc, table, rules, series)?;
    let priced = priced_rules(alloc, rules)?;
    push_sums(
        alloc,
        text,
        table,
        rules,
        series,
        comparison.tallies.as_slice(),
        costs,
        priced.as_slice(),
    )?;
    push_after_columns(
        alloc,
        text,
        table,
        rules,
        series,
        comparison.changes.as_slice(),
        flow,
        priced.as_slice(),
    )
}

/// Adds the report of what was accepted.
fn push_report(
    alloc: Global,
    text: &mut Vec<u8>,
    table: &Table,
    rules: &Rules,
    accepted: &Accepted,
) -> Result<(), AllocError>
    requires few { length (made_bounds rules.now table.now) ≤ MOST_BOUNDS }
    requires accepted { IsTrueClaim rules.now table.now accepted.now }
    ensures { OnOk result (text.new.items ≡ text.old.items ++ report_text rules.now table.now accepted.now) }
{
    match accepted {
        Accepted::Repair {
            series,
            flow,
            total,
            paid,
        } => push_repair(
            alloc,
            text,
            table,
            rules,
            series,
            flow.as_slice(),
            (*total, *paid),
        ),
        Accepted::NoSeries { cycle } => push_cycle(text, table, rules, cycle),
    }
}

/// The report of a certificate that was accepted: what is true of the table by the rules.
///
/// It takes time in proportion to the readings and the lines and, where some rule has a price, to the bounds.
pub fn report_text(
    alloc: Global,
    table: &Table,
    rules: &Rules,
    accepted: &Accepted,
) -> Result<Vec<u8>, AllocError>
    requires few { length (made_bounds rules.now table.now) ≤ MOST_BOUNDS }
    requires accepted { IsTrueClaim rules.now table.now accepted.now }
    ensures { IfOk result (λ text. text.items ≡ report_text rules.now table.now accepted.now) }
{
    let mut text = Vec::new(alloc);
    push_report(alloc, &mut text, table, rules, accepted)?;
    Ok(text)
}
