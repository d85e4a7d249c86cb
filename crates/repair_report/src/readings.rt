//! The readings of a table, one by one, with the values of a series.
ghost use Rattle.std.specs.Prelude.{◌≡◌, ◌<◌, ◌≤◌, ◌^◌, Some, length, slice_get};
ghost use Rattle.screen_model.specs.declared.limits.TheConstants.{MOST_COLUMNS};
ghost use Rattle.series_csv.specs.Readings.{places, values};
ghost use Rattle.bound_maker.specs.Costs.{weights};
ghost use Rattle.repair_report.specs.Readings.{weighted};
ghost use Rattle.repair_report.specs.Repairs.{repaired};

use crate::reading::Repaired;
use bound_maker::{names_can_be_written, problem_is_sound};
use rule_file::Rules;
use screen_model::{Place, Series};
use series_csv::Table;

/// The place of the reading with this number, counted from 0.
fn place_at(table: &Table, rules: &Rules, i: u32) -> Place
    requires { i < length (values table.now) }
    ensures place { slice_get (places table.now) i ≡ Some result }
    ensures column { result.col ≤ MOST_COLUMNS }
{
    names_can_be_written(table, rules);
    table.places().as_slice()[i as usize]
}

/// Its weight, which is at most 1,000.
fn weight_at(table: &Table, rules: &Rules, weighed: &[u32], i: u32) -> u32
    requires weighed { weighed.now ≡ weights rules.now table.now }
    requires within { i < length (values table.now) }
    ensures weight { slice_get (weights rules.now table.now) i ≡ Some result }
    ensures most { result ≤ 1000 }
{
    // There are as many places as readings, and as weights.
    let _places = table.places();
    problem_is_sound(table, rules);
    weighed[i as usize]
}

/// The value with this number in a series, counted from 0.
fn value_at(series: &Series, i: u32) -> i64
    requires { i < length series.now }
    ensures { slice_get series.now i ≡ Some result }
{
    series.as_slice()[i as usize]
}

/// A reading of a weight that is not too great.
fn light_reading(place: Place, weight: u32, from: i64, to: i64) -> Repaired
    requires { weight ≤ 1000 }
    ensures parts { result ≡ record { place = place; weight = weight; from = from; to = to } }
    ensures light { weighted result ≤ 2 ^ 74 }
{
    Repaired {
        place,
        weight,
        from,
        to,
    }
}

/// The reading with this number, counted from 0, and what the series makes of it. The list has the weights of all readings.
pub(crate) fn repaired_at(
    table: &Table,
    rules: &Rules,
    series: &Series,
    weighed: &[u32],
    i: u32,
) -> Repaired
    requires weighed { weighed.now ≡ weights rules.now table.now }
    requires within { i < length (values table.now) }
    requires whole { length series.now ≡ length (values table.now) }
    ensures reading { slice_get (repaired rules.now table.now series.now) i ≡ Some result }
    ensures light { weighted result ≤ 2 ^ 74 }
    ensures column { result.place.col ≤ MOST_COLUMNS }
{
    let place = place_at(table, rules, i);
    let weight = weight_at(table, rules, weighed, i);
    let from = value_at(table.series(), i);
    let to = value_at(series, i);
    light_reading(place, weight, from, to)
}
