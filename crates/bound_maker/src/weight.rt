//! The weight of a reading, by all weight rules.
ghost use Rattle.std.specs.Prelude.{◌≡◌, ◌&&◌, ◌<◌, ◌≤◌, length, Some, slice_get, if◌then◌else◌};
ghost use Rattle.rule_keys.specs.declared.key.TableKind.TheVariants as kind;
ghost use Rattle.rule_file.specs.Numbers.{count_before, rules_in_order};
ghost use Rattle.series_csv.specs.Readings.{values};
ghost use Rattle.pair_bounds.specs.Pairs.{is_within};
ghost use Rattle.bound_maker.specs.Bounds.{with_columns};
ghost use Rattle.bound_maker.specs.Costs.{weights, weight_of};
ghost use Rattle.bound_maker.specs.Weighed.{covering, last_or};

use crate::rule::sensor_col;
use crate::values::is_between;
use rule_file::{Rules, WeightRule};
use series_csv::{Header, Row, Table};

/// The weight of the last of these weight rules that covers a column at a time, and the weight given where none does. The
/// place is that of the first rule's sensor among the sensors of all rules.
pub(crate) fn last_weight(
    header: &Header,
    weights: &[WeightRule],
    first: u32,
    col: u32,
    ticks: i64,
) -> u32
    requires first { first ≤ 10000 }
    requires few { length weights.now ≤ 10000 }
    ensures { result ≡ last_or 1 (covering first header.now.sensor_cols weights.now col ticks) }
{
    let mut weight = 1;
    let mut place = first;
    for rule in weights {
        weight = weight_after(weight, rule, sensor_col(header, place) == col, ticks);
        place += 1;
    }
    weight
}

/// The weight of a rule that covers a time in its column, and else the weight given.
fn weight_after(weight: u32, rule: &WeightRule, of_column: bool, ticks: i64) -> u32
    ensures { result ≡ (if of_column && is_within rule.now.from rule.now.to ticks then rule.now.weight else weight) }
{
    if of_column && is_between(rule.from, rule.to, ticks) {
        rule.weight
    } else {
        weight
    }
}

/// How many rules stand before the weight rules.
pub(crate) fn before_weights(rules: &Rules) -> u32
    ensures { result ≡ count_before kind.Weight rules.now }
{
    (rules.speeds.len()
        + rules.swings.len()
        + rules.drifts.len()
        + rules.ranges.len()
        + rules.trusts.len()) as u32
}

/// The weight of a reading in a column of a row: that of the weight rule with the greatest number that covers it, and 1
/// where none does.
fn weight_in(header: &Header, rules: &Rules, row: &Row, col: u32) -> u32
    ensures { result ≡ weight_of (with_columns 1 (rules_in_order rules.now) header.now.sensor_cols) col row.now.ticks }
{
    let ticks = row.ticks();
    last_weight(
        header,
        rules.weights.as_slice(),
        before_weights(rules),
        col,
        ticks,
    )
}

/// The weight of the reading with this number, counted from 0: that of the weight rule with the greatest number that covers
/// its sensor and time, and 1 where none does. The table is one that was read by these rules; a rule whose sensor has no
/// column in the table covers no reading. It takes no memory, and the time of going over the weight rules; for all readings
/// `weights_of` is faster.
pub fn weight_of(table: &Table, rules: &Rules, i: u32) -> u32
    requires { i < length (values table.now) }
    ensures { slice_get (weights rules.now table.now) i ≡ Some result }
{
    // There are as many places as readings.
    let _places = table.places();
    let Some(place) = table.place(i) else {
        return 1;
    };
    let Some(row) = table.row(place.row) else {
        return 1;
    };
    weight_in(table.header(), rules, row, place.col)
}
