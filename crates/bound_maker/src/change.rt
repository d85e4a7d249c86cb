//! The change of a series.
ghost use Rattle.std.specs.Prelude.{◌≡◌, ◌≤◌, ◌*◌, ◌^◌, ◌-ℤ◌, pos, length, drop, unsigned_abs};
ghost use Rattle.std.specs.List.{flat_map};
ghost use Rattle.screen_model.specs.Cost.{change, weighted_change};
ghost use Rattle.screen_model.specs.declared.limits.TheConstants.{MOST_ROWS};
ghost use Rattle.rule_file.specs.Numbers.{rules_in_order};
ghost use Rattle.series_rows.specs.declared.cell.RowReading.{RowReading};
ghost use Rattle.series_csv.specs.Readings.{values, values_in, values_of};
ghost use Rattle.bound_maker.specs.Bounds.{with_columns};
ghost use Rattle.bound_maker.specs.Costs.{made_problem, weights, weights_in};
ghost use Rattle.bound_maker.specs.Weighed.{AreStays};

use crate::reading::rows_of;
use crate::weigher::Weigher;
use rule_file::Rules;
use screen_model::Series;
use series_csv::{Header, Row, RowReading, Table};

/// The distance of a value from a reading, times its weight.
fn weighted(weight: u32, value: &i64, reading: &RowReading) -> u128
    ensures value { result ≡ weight * unsigned_abs (value.now -ℤ reading.now.value) }
    ensures small { result ≤ 2 ^ 96 }
{
    u128::from(weight) * u128::from(value.abs_diff(reading.value))
}

/// What the values of a row change: the sum of their distances from its readings, each times the weight.
fn change_in(
    weigher: &mut Weigher,
    header: &Header,
    rules: &Rules,
    row: &Row,
    series: &[i64],
) -> u128
    requires long { length row.now.readings ≤ length series.now }
    requires stays { AreStays rules.now header.now.sensor_cols weigher.old.stays }
    ensures stays { AreStays rules.now header.now.sensor_cols weigher.new.stays }
    ensures value { result ≡ weighted_change (weights_in (with_columns 1 (rules_in_order rules.now) header.now.sensor_cols) row.now) (values_in row.now) series.now }
    ensures small { result ≤ 2 ^ 105 }
{
    let readings = row.readings();
    let ticks = row.ticks();
    let mut change = 0;
    for index in 0..readings.len() {
        let reading = &readings[index];
        let weight = weigher.weight(header, rules, reading.col, ticks);
        change += weighted(weight, &series[index], reading);
    }
    change
}

/// The values of a series after those of a row.
fn after_row<'a>(series: &'a [i64], row: &Row) -> &'a [i64]
    requires { length row.now.readings ≤ length series.now }
    ensures { result.now ≡ drop (length row.now.readings) series.now }
{
    &series[row.readings().len()..]
}

/// What a series changes.
pub(crate) fn change_by_rows(table: &Table, rules: &Rules, series: &Series) -> u128
    requires { length series.now ≡ length (values table.now) }
    ensures value { result ≡ weighted_change (weights rules.now table.now) (values table.now) series.now }
    ensures small { result ≤ 2 ^ 123 }
{
    change_of_rows(table.header(), rules, rows_of(table), series.as_slice())
}

/// What a series changes in rows.
fn change_of_rows(header: &Header, rules: &Rules, rows: &[Row], series: &[i64]) -> u128
    requires few { length rows.now ≤ MOST_ROWS }
    requires whole { length series.now ≡ length (values_of rows.now) }
    ensures value { result ≡ weighted_change (flat_map (weights_in (with_columns 1 (rules_in_order rules.now) header.now.sensor_cols)) rows.now) (values_of rows.now) series.now }
    ensures small { result ≤ 2 ^ 123 }
{
    let mut weigher = Weigher::new();
    let mut change = 0;
    let mut rest = series;
    for row in rows {
        change += change_in(&mut weigher, header, rules, row, rest);
        rest = after_row(rest, row);
    }
    change
}

/// The change of a series from the readings: the sum of the distances between their values, each times the weight of the
/// reading. It takes no memory, and the time that `weights_of` takes.
pub fn change_of(table: &Table, rules: &Rules, series: &Series) -> i128
    requires { length series.now ≡ length (values table.now) }
    ensures value { result ≡ pos (change (made_problem rules.now table.now) series.now) }
    ensures small { unsigned_abs result ≤ 2 ^ 123 }
{
    change_by_rows(table, rules, series) as i128
}
