//! The command `sample`: it repairs readings that are made from a number, and sums the repair up.
ghost use Rattle.std.specs.Prelude.{◌≡◌, ◌≢◌, ◌≤◌, Err, IfOk, length, option_map};
ghost use Rattle.least_cost.specs.Answer.{Answers, CountsChanges};
ghost use Rattle.bound_maker.specs.Costs.{whole_problem};
ghost use Rattle.rule_file.specs.declared.rules.Rules.{Rules};
ghost use Rattle.sample_maker.specs.declared.make.TheConstants.{MOST_ROWS, MOST_SEED};
ghost use Rattle.screen_model.specs.declared.limits.TheConstants.{MOST_READINGS};
ghost use Rattle.series_csv.specs.Readings.{values};
ghost use Rattle.screen_tool.specs.Sample.{AnswersSampleBy, changed, one_if_changed, summary_of, summary_text};
ghost use Rattle.screen_steps.specs.Step.{Comes, IsReplyOf};

use flow_core::Solver;
use global_repair::{Outcome as Found, repair};
use itoa::Buffer;
use rule_file::Rules;
use sample_maker::sample as make_sample;
use screen_steps::{Reply, rules_of, table_of};
use screen_words::{Ending, Outcome};
use series_csv::Table;
use std::alloc::{AllocError, Global};

/// Makes the sample, repairs it, and makes the text that sums it up. It reads nothing.
pub(crate) fn sample<V: Solver>(
    alloc: Global,
    rows: u32,
    seed: u32,
    solver: &mut V,
) -> Result<Reply, Ending>
    requires rows_least { 1 ≤ rows }
    requires rows_most { rows ≤ MOST_ROWS }
    requires seed { seed ≤ MOST_SEED }
    ensures answer { Comes (AnswersSampleBy (λ problem. CountsChanges problem (V.most solver.new) (V.last solver.new)) rows seed) result }
    ensures done { IfOk result (λ reply. reply.outcome ≢ Outcome.Usage) }
    ensures no_usage { result ≢ Err (Ending.Ended Outcome.Usage) }
    ensures no_done { result ≢ Err (Ending.Ended Outcome.Done) }
    ensures most_stays { V.most solver.new ≡ V.most solver.old }
{
    let texts = make_sample(alloc, rows, seed)?;
    let rules = rules_of(alloc, texts.rules.as_slice())?;
    let table = table_of(alloc, &rules, texts.readings.as_slice())?;
    let found = repair(alloc, &table, &rules, solver)?;
    let reply = summary_of(alloc, rows, &rules, &table, &found)?;
    Ok(reply)
}

/// The reply that sums up what was found.
fn summary_of(
    alloc: Global,
    rows: u32,
    rules: &Rules,
    table: &Table,
    found: &Found,
) -> Result<Reply, AllocError>
    requires { Answers (whole_problem rules.now table.now) found.now }
    ensures texts { IfOk result (IsReplyOf (summary_of rows table.now found.now)) }
    ensures done { IfOk result (λ reply. reply.outcome ≢ Outcome.Usage) }
{
    let _rules = rules;
    let _places = table.places();
    let _len = table.len();
    match found {
        Found::Repaired { series, total, .. } => {
            let changed = changed(table.series().as_slice(), series.as_slice());
            let text = summary_text(alloc, rows, changed, *total)?;
            Ok(Reply {
                outcome: Outcome::Done,
                cert: None,
                out: Some(text),
            })
        }
        Found::NoSeries { .. } => Ok(Reply {
            outcome: Outcome::NoSeries,
            cert: None,
            out: None,
        }),
    }
}

/// How many of the values a series changes.
fn changed(values: &[i64], series: &[i64]) -> u32
    requires few { length values.now ≤ MOST_READINGS }
    requires series { length series.now ≡ length values.now }
    ensures { result ≡ changed values.now series.now }
{
    let mut count: u32 = 0;
    for (i, value) in values.iter().enumerate() {
        count += one_if_changed(*value, series[i]);
    }
    count
}

/// 1, if the value is another one, and else 0.
fn one_if_changed(value: i64, x: i64) -> u32
    ensures { result ≡ one_if_changed value x }
{
    if x == value { 0 } else { 1 }
}

/// The lines that sum a repair up, with the total in units.
fn summary_text(alloc: Global, rows: u32, changed: u32, total: i128) -> Result<Vec<u8>, AllocError>
    ensures { IfOk result (λ text. text.items ≡ summary_text rows changed total) }
{
    let mut digits = Buffer::new();
    let mut text = Vec::from_slice(alloc, b"rows ")?;
    text.extend_from_slice(digits.format(rows).as_bytes())?;
    text.extend_from_slice(b"\nchanged ")?;
    text.extend_from_slice(digits.format(changed).as_bytes())?;
    text.extend_from_slice(b"\ntotal ")?;
    text.extend_from_slice(digits.format(total).as_bytes())?;
    text.extend_from_slice(b"\n")?;
    Ok(text)
}
