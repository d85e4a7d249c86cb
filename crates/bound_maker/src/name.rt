//! A bound by its name.
ghost use Rattle.std.specs.Prelude.{◌≡◌, ◌≢◌, ◌*◌, ◌^◌, ◌≤◌, map, unsigned_abs, Some, None, if◌then◌else◌, Contains, MatchOption, IfSome};
ghost use Rattle.pair_bounds.specs.Pairs.{is_within, limit_on, place_in};
ghost use Rattle.rule_file.specs.Numbers.{seen_rule};
ghost use Rattle.series_csv.specs.Readings.{places};
ghost use Rattle.bound_maker.specs.Bounds.{all_bounds, bounds_of_kind, bounds_of_pairs, bounds_in_rows, bounds_in_time, size_bounds, value_bound};
ghost use Rattle.pair_bounds.specs.Pairs.{between_bound};
ghost use Rattle.bound_maker.specs.Named.{AreElsewhere, AreUnnamed, Finds, IsNamed, each_pair};
ghost use Rattle.bound_maker.specs.Pairs.{IsBounded, pair_bound};
ghost use Rattle.bound_maker.specs.Readings.{all_pairs, readings_of};

use crate::between::col_if_read;
use crate::pairs::{Scope, opposite, pair_bound, place_in};
use crate::reading::{Reading, reading_in, rows_of};
use crate::rule::{Ruled, ruled_at, steps_of};
use crate::values::{Limits, covers, limits_of_range, limits_of_trust, value_bound};
use fix_point::MOST_UNITS;
use pair_bounds::{Stamp, between_bound};
use rule_file::{BetweenRule, RangeRule, RuleAt, Rules, TrustRule};
use screen_model::{Bound, BoundName, Place, Side};
use series_csv::Table;

/// The bound with this name among all, of a speed rule also among those on readings that are no neighbours; `None` exactly
/// where there is none. The table is one that was read by these rules; a rule whose sensor has no column in the table has no
/// bound. It looks at no more than two rows, and takes no memory.
pub fn bound_of(table: &Table, rules: &Rules, name: BoundName) -> Option<Bound>
    ensures { MatchOption result (¬ Contains (map (λ bound. bound.name) (all_bounds rules.now table.now)) name)
        (λ bound. Contains (all_bounds rules.now table.now) bound × (bound.name ≡ name)) }
{
    bound_among(table, rules, name)
}

/// The bound with this name among all.
fn bound_among(table: &Table, rules: &Rules, name: BoundName) -> Option<Bound>
    ensures { Finds (all_bounds rules.now table.now) name result }
{
    if name.rule == 0 {
        size_bound(table, name)
    } else {
        ruled_bound(table, rules, name)
    }
}

/// The bound of rule 0 with this name.
fn size_bound(table: &Table, name: BoundName) -> Option<Bound>
    requires { name.rule ≡ 0 }
    ensures { Finds (size_bounds (places table.now)) name result }
{
    if name.from_row != name.to_row {
        return None;
    }
    let place = Place {
        row: name.from_row,
        col: name.col,
    };
    match table.index(place) {
        Some(_) => Some(value_bound(0, place, MOST_UNITS, name.side)),
        None => None,
    }
}

/// The bound of a rule from a file with this name.
fn ruled_bound(table: &Table, rules: &Rules, name: BoundName) -> Option<Bound>
    requires { name.rule ≢ 0 }
    ensures { Finds (all_bounds rules.now table.now) name result }
{
    match ruled_at(table.header(), rules, name.rule) {
        Some(ruled) => bound_in_column(table, &ruled, rules.format.decimals, name),
        None => None,
    }
}

/// The bound of a rule with this name, which is in the rule's column.
fn bound_in_column(table: &Table, ruled: &Ruled<'_>, d: u32, name: BoundName) -> Option<Bound>
    requires number { ruled.now.number ≡ name.rule }
    requires bounded { IsBounded d (seen_rule ruled.now.rule) }
    ensures { Finds (bounds_of_kind each_pair d table.now.rows ruled.now.number ruled.now.col ruled.now.second (seen_rule ruled.now.rule)) name result }
{
    if ruled.col == name.col {
        bound_of_rule(table, ruled.rule, ruled.second, d, name)
    } else {
        None
    }
}

/// The bound of a rule with this name.
fn bound_of_rule(
    table: &Table,
    rule: RuleAt<'_>,
    second: u32,
    d: u32,
    name: BoundName,
) -> Option<Bound>
    requires { IsBounded d (seen_rule rule) }
    ensures { Finds (bounds_of_kind each_pair d table.now.rows name.rule name.col second (seen_rule rule.entry)) name result }
{
    match rule {
        RuleAt::Range(rule) => bound_of_range(table, rule, name),
        RuleAt::Trust(rule) => bound_of_trust(table, rule, name),
        RuleAt::Weight(_) => None,
        RuleAt::Between(rule) => bound_in_row(table, rule, second, name),
        RuleAt::Speed(_) => bound_of_pair(table, rule, d, name),
        RuleAt::Swing(_) => bound_of_pair(table, rule, d, name),
        RuleAt::Drift(_) => bound_of_pair(table, rule, d, name),
    }
}

/// The bound of a range rule with this name.
fn bound_of_range(table: &Table, rule: &RangeRule, name: BoundName) -> Option<Bound>
    ensures { Finds (bounds_in_time name.rule name.col rule.now.from rule.now.to (λ value. rule.now.min) (λ value. rule.now.max) (readings_of name.col table.now.rows)) name result }
{
    match named_reading(table, name) {
        Some(reading) => bound_on_value(limits_of_range(rule), name, reading),
        None => None,
    }
}

/// The bound of a trust rule with this name.
fn bound_of_trust(table: &Table, rule: &TrustRule, name: BoundName) -> Option<Bound>
    ensures { Finds (bounds_in_time name.rule name.col rule.now.from rule.now.to (λ value. value) (λ value. value) (readings_of name.col table.now.rows)) name result }
{
    match named_reading(table, name) {
        Some(reading) => bound_on_value(limits_of_trust(rule, &reading), name, reading),
        None => None,
    }
}

/// The bound on a value with this name, if the rule speaks of the time of the reading.
fn bound_on_value(limits: Limits, name: BoundName, reading: Reading) -> Option<Bound>
    requires { unsigned_abs limits.least ≤ 10 ^ 15 }
    ensures { result ≡ (if is_within limits.from limits.to reading.stamp.ticks
        then Some (value_bound name.rule (place_in name.col reading.stamp) (limit_on name.side limits.least limits.most) name.side) else None) }
{
    if covers(limits, reading.stamp) {
        let limit = limit_on(limits, name.side);
        Some(value_bound(
            name.rule,
            place_in(name.col, reading.stamp),
            limit,
            name.side,
        ))
    } else {
        None
    }
}

/// The limit on one side.
fn limit_on(limits: Limits, side: Side) -> i64
    requires { unsigned_abs limits.least ≤ 10 ^ 15 }
    ensures { result ≡ limit_on side limits.least limits.most }
{
    match side {
        Side::Up => limits.most,
        Side::Down => opposite(limits.least),
    }
}

/// The bound of a rule between two columns with this name.
fn bound_in_row(table: &Table, rule: &BetweenRule, second: u32, name: BoundName) -> Option<Bound>
    ensures { Finds (bounds_in_rows (between_bound name.rule rule.now) name.col second 1 table.now.rows) name result }
{
    if name.from_row != name.to_row {
        return None;
    }
    match table.row(name.from_row) {
        Some(row) => {
            let first_col = col_if_read(row, name.col);
            let second_col = col_if_read(row, second);
            between_bound(
                name.rule,
                rule,
                name.from_row,
                first_col,
                second_col,
                name.side,
            )
        }
        None => None,
    }
}

/// The reading in a row and a column, if there is one.
fn reading_at(table: &Table, row: u32, col: u32) -> Option<Reading>
    ensures found { MatchOption result (AreElsewhere row (readings_of col table.now.rows))
        (λ reading. Contains (readings_of col table.now.rows) reading × (reading.stamp.row ≡ row)) }
{
    match table.row(row) {
        Some(found) => match reading_in(found, col) {
            Some(value) => Some(Reading {
                stamp: Stamp {
                    row,
                    ticks: found.ticks(),
                },
                value,
            }),
            None => None,
        },
        None => None,
    }
}

/// The reading of the one row that a name tells, if it is one row.
fn named_reading(table: &Table, name: BoundName) -> Option<Reading>
    ensures named { MatchOption result (AreUnnamed name (readings_of name.col table.now.rows)) (IsNamed name (readings_of name.col table.now.rows)) }
    ensures small { IfSome result (λ reading. unsigned_abs reading.value ≤ 10 ^ 15) }
{
    // Each value is at most 10^15 in size.
    let _rows = rows_of(table);
    if name.from_row == name.to_row {
        reading_at(table, name.from_row, name.col)
    } else {
        None
    }
}

/// The bound of a rule on two readings with this name.
fn bound_of_pair(table: &Table, rule: RuleAt<'_>, d: u32, name: BoundName) -> Option<Bound>
    requires { IsBounded d (seen_rule rule) }
    ensures { Finds (bounds_of_pairs (pair_bound name.rule (seen_rule rule.entry) d name.col) (all_pairs (readings_of name.col table.now.rows))) name result }
{
    // The readings go up in time.
    let _rows = rows_of(table);
    match reading_at(table, name.from_row, name.col) {
        Some(from) => match reading_at(table, name.to_row, name.col) {
            Some(to) => bound_on_pair(rule, d, name, from.stamp, to.stamp),
            None => None,
        },
        None => None,
    }
}

/// The bound of a rule on the readings in two rows.
fn bound_on_pair(rule: RuleAt<'_>, d: u32, name: BoundName, from: Stamp, to: Stamp) -> Option<Bound>
    requires { IsBounded d (seen_rule rule) }
    ensures { result ≡ pair_bound name.rule (seen_rule rule.entry) d name.col from to name.side }
{
    let scope = Scope {
        number: name.rule,
        col: name.col,
        decimals: d,
    };
    pair_bound(scope, rule, &mut steps_of(rule, d), from, to, name.side)
}
