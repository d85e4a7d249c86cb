//! Prices, and what a series pays for the bounds that it breaks.
ghost use Rattle.std.specs.Prelude.{◌≡◌, ◌≤◌, ◌*◌, ◌^◌, ◌↔◌, ◌-ℤ◌, pos, unsigned_abs, length, get_or, map, sum, None};
ghost use Rattle.screen_model.specs.Cost.{above_zero, cost, paid, payment};
ghost use Rattle.screen_model.specs.Obeys.{Obeys, rise};
ghost use Rattle.screen_model.specs.Series.{reading_at, value_at};
ghost use Rattle.series_csv.specs.Readings.{places, values};
ghost use Rattle.bound_maker.specs.Bounds.{price_of_number, priced};
ghost use Rattle.bound_maker.specs.Broken.{first_broken, is_broken};
ghost use Rattle.bound_maker.specs.Costs.{problem_with};
ghost use Rattle.bound_maker.specs.declared.maker.TheConstants.{MOST_BOUNDS};

use crate::change::change_by_rows;
use rule_file::Rules;
use screen_model::{Bound, BoundList, BoundName, End, Place, Series};
use series_csv::Table;

/// What a unit beyond a bound of the rule with this number costs, and 0 where the rule has no price or there is no such
/// rule, as for rule 0. It takes no memory.
pub fn price_of(rules: &Rules, rule: u32) -> u32
    ensures { result ≡ price_of_number rules.now rule }
{
    match rules.rule_at(rule) {
        Some(rule) => rule.price(),
        None => 0,
    }
}

/// The value at a place in a series, counted from 0, and 0 past its end.
fn value_of(series: &Series, i: u32) -> i64
    ensures { result ≡ get_or series.now i (pos 0) }
{
    series.get(i as usize).copied().unwrap_or(0)
}

/// The value of a series at the place of a reading, and 0 where no reading is there.
fn reading_at(table: &Table, series: &Series, place: Place) -> i64
    ensures { result ≡ reading_at (places table.now) series.now place }
{
    // No two readings share a place, so that the index is the only one.
    let _places = table.places();
    match table.index(place) {
        Some(i) => value_of(series, i),
        None => 0,
    }
}

/// The value of a series at an end of a bound.
fn value_at(table: &Table, series: &Series, end: End) -> i64
    ensures { result ≡ value_at (places table.now) series.now end }
{
    match end {
        End::Zero => 0,
        End::At(place) => reading_at(table, series, place),
    }
}

/// How far one number lies above another.
fn difference(above: i64, below: i64) -> i128
    ensures value { result ≡ above -ℤ below }
    ensures small { unsigned_abs result ≤ 2 ^ 64 }
{
    i128::from(above) - i128::from(below)
}

/// How far a rise lies above a limit, and below 0 where it lies below.
fn above_limit(rise: i128, limit: i64) -> i128
    requires { unsigned_abs rise ≤ 2 ^ 64 }
    ensures value { result ≡ rise -ℤ limit }
    ensures small { unsigned_abs result ≤ 2 ^ 66 }
{
    rise - i128::from(limit)
}

/// A number above 0, and 0 in place of others.
fn positive_part(number: i128) -> u128
    ensures value { result ≡ above_zero number }
    ensures small { result ≤ unsigned_abs number }
{
    if number > 0 { number.unsigned_abs() } else { 0 }
}

/// How far a rise lies above a limit.
fn excess(first: i64, second: i64, limit: i64) -> u128
    ensures value { result ≡ above_zero ((second -ℤ first) -ℤ limit) }
    ensures small { result ≤ 2 ^ 66 }
{
    positive_part(above_limit(difference(second, first), limit))
}

/// How far a series is above what a bound allows.
#[inline(always)]
fn excess_of(table: &Table, series: &Series, bound: Bound) -> u128
    ensures value { result ≡ above_zero (rise (places table.now) series.now bound -ℤ bound.limit) }
    ensures small { result ≤ 2 ^ 66 }
{
    let first = value_at(table, series, bound.first);
    let second = value_at(table, series, bound.second);
    excess(first, second, bound.limit)
}

/// Whether a bound has no price and the series does not obey it.
fn is_broken(table: &Table, rules: &Rules, series: &Series, bound: Bound) -> bool
    ensures { result ≡ is_broken rules.now table.now series.now bound }
{
    price_of(rules, bound.name.rule) == 0 && excess_of(table, series, bound) > 0
}

/// The name of the first bound that has no price and that the series does not obey, if there is one.
fn first_broken_of(
    table: &Table,
    rules: &Rules,
    bounds: &[Bound],
    series: &Series,
) -> Option<BoundName>
    ensures { result ≡ first_broken rules.now table.now bounds.now series.now }
{
    for bound in bounds {
        if is_broken(table, rules, series, *bound) {
            return Some(bound.name);
        }
    }
    None
}

/// The name of the first bound of the list that has no price and that the series does not obey; `None` exactly where there
/// is none. A value that is missing, as of a place where no reading is, counts as 0. It takes no memory.
pub fn first_broken(
    table: &Table,
    rules: &Rules,
    bounds: &BoundList,
    series: &Series,
) -> Option<BoundName>
    ensures first { result ≡ first_broken rules.now table.now bounds.now series.now }
    ensures none { result ≡ None ↔ Obeys (places table.now) series.now (priced rules.now bounds.now) }
{
    first_broken_of(table, rules, bounds.as_slice(), series)
}

/// What a series pays for a bound.
fn payment(table: &Table, rules: &Rules, series: &Series, bound: Bound) -> u128
    ensures value { result ≡ payment (places table.now) series.now (record { bound = bound; price = price_of_number rules.now bound.name.rule }) }
    ensures small { result ≤ 2 ^ 98 }
{
    let price = price_of(rules, bound.name.rule);
    let units = excess_of(table, series, bound);
    product(price, units)
}

/// A price for so many units.
fn product(price: u32, units: u128) -> u128
    requires { units ≤ 2 ^ 66 }
    ensures value { result ≡ price * units }
    ensures small { result ≤ 2 ^ 98 }
{
    u128::from(price) * units
}

/// What a series pays for bounds.
fn payments(table: &Table, rules: &Rules, bounds: &[Bound], series: &Series) -> u128
    requires { length bounds.now ≤ MOST_BOUNDS }
    ensures value { result ≡ sum (map (payment (places table.now) series.now) (priced rules.now bounds.now)) }
    ensures small { result ≤ 2 ^ 120 }
{
    let mut paid = 0;
    for bound in bounds {
        paid += payment(table, rules, series, *bound);
    }
    paid
}

/// What a series pays for those of these bounds that it breaks, as `paid_of` tells it of a list. It takes no memory.
pub fn paid_for(table: &Table, rules: &Rules, bounds: &[Bound], series: &Series) -> i128
    requires { length bounds.now ≤ MOST_BOUNDS }
    ensures value { result ≡ pos (paid (problem_with rules.now table.now bounds.now) series.now) }
    ensures small { unsigned_abs result ≤ 2 ^ 120 }
{
    payments(table, rules, bounds, series) as i128
}

/// What a series pays for the bounds of the list that it breaks: the price of each for each unit. A value that is missing, as
/// of a place where no reading is, counts as 0. It takes no memory.
pub fn paid_of(table: &Table, rules: &Rules, bounds: &BoundList, series: &Series) -> i128
    requires { length bounds.now ≤ MOST_BOUNDS }
    ensures value { result ≡ pos (paid (problem_with rules.now table.now bounds.now) series.now) }
    ensures small { unsigned_abs result ≤ 2 ^ 120 }
{
    paid_for(table, rules, bounds.as_slice(), series)
}

/// What a series costs: its change, and what it pays for the bounds of the list that it breaks. It takes no memory.
pub fn cost_of(table: &Table, rules: &Rules, bounds: &BoundList, series: &Series) -> i128
    requires few { length bounds.now ≤ MOST_BOUNDS }
    requires whole { length series.now ≡ length (values table.now) }
    ensures { result ≡ pos (cost (problem_with rules.now table.now bounds.now) series.now) }
{
    let change = change_by_rows(table, rules, series);
    let paid = payments(table, rules, bounds.as_slice(), series);
    (change + paid) as i128
}
