//! The readings of a table, compared with a series in one pass.
ghost use Rattle.std.specs.Prelude.{◌≡◌, ◌++◌, ◌∷◌, [], filter, length, IfOk, OnOk};
ghost use Rattle.series_csv.specs.Readings.{values};
ghost use Rattle.repair_report.specs.Comparison.{IsComparison};
ghost use Rattle.repair_report.specs.Readings.{is_changed};
ghost use Rattle.repair_report.specs.Repairs.{repaired};

use crate::reading::{Repaired, is_changed};
use crate::readings::repaired_at;
use crate::tally::{Tally, count, no_tallies};
use bound_maker::weights_of;
use rule_file::Rules;
use screen_model::Series;
use sequence::Sequence;
use series_csv::Table;
use std::alloc::{AllocError, Global};

/// Readings that changed, in the order of their places.
pub(crate) type Changes = Sequence<Repaired>;

/// Readings that were compared with the values of a series.
#[derive(Drop)]
pub(crate) struct Comparison {
    /// The tally of each column.
    pub(crate) tallies: Vec<Tally>,
    /// Those that changed.
    pub(crate) changes: Changes,
}

/// Adds a reading, if it changed.
fn push_if_changed(changes: &mut Changes, reading: Repaired) -> Result<(), AllocError>
    ensures { OnOk result (changes.new ≡ changes.old ++ filter is_changed (reading ∷ [])) }
{
    if is_changed(reading) {
        changes.push(reading)
    } else {
        Ok(())
    }
}

/// Compares the readings of a table with the values of a series, and goes over them once. The list of changes grows with what
/// changed.
pub(crate) fn compare(
    alloc: Global,
    table: &Table,
    rules: &Rules,
    series: &Series,
) -> Result<Comparison, AllocError>
    requires { length series.now ≡ length (values table.now) }
    ensures { IfOk result (IsComparison (repaired rules.now table.now series.now)) }
{
    let weighed = weights_of(alloc, table, rules)?;
    let mut tallies = no_tallies(alloc)?;
    let mut changes = Changes::new(alloc);
    for i in 0..table.len() {
        let reading = repaired_at(table, rules, series, &weighed, i);
        count(&mut tallies, reading);
        push_if_changed(&mut changes, reading)?;
    }
    Ok(Comparison { tallies, changes })
}
