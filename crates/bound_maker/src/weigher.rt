//! The weights of readings one after another: each is kept for as long as it stays.
ghost use Rattle.std.specs.Prelude.{◌≡◌, ℕ, ◌&&◌, ◌≤◌, ◌++◌, ℤ, ◌≤ℤ◌, length, List, IfOk, OnOk};
ghost use Rattle.rule_file.specs.Numbers.{rules_in_order};
ghost use Rattle.rule_file.specs.declared.rules.Rules.{Rules};
ghost use Rattle.pair_bounds.specs.Pairs.{is_within};
ghost use Rattle.bound_maker.specs.Bounds.{with_columns};
ghost use Rattle.bound_maker.specs.Costs.{weights, weights_in, weight_of};
ghost use Rattle.bound_maker.specs.Weighed.{AreStays, IsStay, StaysSo, covering};

use crate::reading::rows_of;
use crate::rule::sensor_col;
use crate::values::is_between;
use crate::weight::{before_weights, last_weight};
use rule_file::{Rules, WeightRule};
use screen_model::MOST_COLUMNS;
use series_csv::{Header, Row, Table};
use std::alloc::{AllocError, Global};

/// Times between which the readings of a column have one weight.
#[derive(Clone, Copy)]
pub(crate) struct Stay {
    /// The first of them, in ticks.
    pub(crate) from: i64,
    /// The last of them, in ticks.
    pub(crate) until: i64,
    /// The weight.
    pub(crate) weight: u32,
}

/// Where nothing is known, at no time.
const NEVER: Stay = Stay {
    from: 1,
    until: 0,
    weight: 1,
};

/// What is known of the weights of each column. As long as times rise, the weight rules are gone over anew for a column only
/// where one of its rules begins or ends.
#[derive(Drop)]
pub(crate) struct Weigher {
    /// By column, counted from 1.
    pub(crate) stays: [Stay; MOST_COLUMNS as usize + 1],
}

impl Weigher {
    ghost use Rattle.std.specs.Prelude.{◌≡◌, ℕ, List};
    ghost use Rattle.rule_file.specs.Numbers.{rules_in_order};
    ghost use Rattle.rule_file.specs.declared.rules.Rules.{Rules};
    ghost use Rattle.bound_maker.specs.Bounds.{with_columns};
    ghost use Rattle.bound_maker.specs.Costs.{weight_of};
    ghost use Rattle.bound_maker.specs.Weighed.{AreStays, IsStay};

    /// A weigher that knows nothing.
    pub(crate) fn new() -> Weigher
        ensures { (rules : Rules) (cols : List ℕ) → AreStays rules cols result.stays }
    {
        Weigher {
            stays: [NEVER; MOST_COLUMNS as usize + 1],
        }
    }

    /// What is known of a column.
    fn stay_of(&self, col: u32) -> Stay
        ensures { (rules : Rules) (cols : List ℕ) → AreStays rules cols self.now.stays → IsStay rules cols col result }
    {
        match self.stays.get(col as usize) {
            Some(stay) => *stay,
            None => NEVER,
        }
    }

    /// Keeps what is known of a column.
    fn keep(&mut self, col: u32, stay: Stay)
        ensures { (rules : Rules) (cols : List ℕ) → AreStays rules cols self.old.stays → IsStay rules cols col stay → AreStays rules cols self.new.stays }
    {
        let place = col as usize;
        if place < self.stays.len() {
            self.stays[place] = stay;
        }
    }

    /// The weight of a reading in a column at a time.
    pub(crate) fn weight(&mut self, header: &Header, rules: &Rules, col: u32, ticks: i64) -> u32
        requires { AreStays rules.now header.now.sensor_cols self.old.stays }
        ensures stays { AreStays rules.now header.now.sensor_cols self.new.stays }
        ensures weight { result ≡ weight_of (with_columns 1 (rules_in_order rules.now) header.now.sensor_cols) col ticks }
    {
        let known = self.stay_of(col);
        if is_between(known.from, known.until, ticks) {
            return known.weight;
        }
        let stay = stay_from(header, rules, col, ticks);
        self.keep(col, stay);
        stay.weight
    }
}

/// The last time, no later than the one given, up to which a rule covers all times from this one on, or none of them.
fn last_alike(until: i64, rule: &WeightRule, of_column: bool, ticks: i64) -> i64
    ensures alike { StaysSo (λ (t : ℤ). of_column && is_within rule.now.from rule.now.to t) ticks result }
    ensures most { result ≤ℤ until }
{
    if !of_column || rule.to < ticks {
        until
    } else if ticks < rule.from {
        until.min(rule.from - 1)
    } else {
        until.min(rule.to)
    }
}

/// The last time up to which the same of these weight rules cover a column as at this time. The place is that of the first
/// rule's sensor among the sensors of all rules.
fn last_covered(header: &Header, weights: &[WeightRule], first: u32, col: u32, ticks: i64) -> i64
    requires first { first ≤ 10000 }
    requires few { length weights.now ≤ 10000 }
    ensures { StaysSo (covering first header.now.sensor_cols weights.now col) ticks result }
{
    let mut until = i64::MAX;
    let mut place = first;
    for rule in weights {
        until = last_alike(until, rule, sensor_col(header, place) == col, ticks);
        place += 1;
    }
    until
}

/// The weight of a column from a time on, and for how long it stays.
fn stay_from(header: &Header, rules: &Rules, col: u32, ticks: i64) -> Stay
    ensures stays { IsStay rules.now header.now.sensor_cols col result }
    ensures weight { result.weight ≡ weight_of (with_columns 1 (rules_in_order rules.now) header.now.sensor_cols) col ticks }
{
    let weights = rules.weights.as_slice();
    let first = before_weights(rules);
    Stay {
        from: ticks,
        until: last_covered(header, weights, first, col, ticks),
        weight: last_weight(header, weights, first, col, ticks),
    }
}

/// Adds the weights of the readings of a row.
fn push_weights(
    list: &mut Vec<u32>,
    weigher: &mut Weigher,
    header: &Header,
    rules: &Rules,
    row: &Row,
) -> Result<(), AllocError>
    requires { AreStays rules.now header.now.sensor_cols weigher.old.stays }
    ensures stays { AreStays rules.now header.now.sensor_cols weigher.new.stays }
    ensures weights { OnOk result (list.new.items ≡ list.old.items ++ weights_in (with_columns 1 (rules_in_order rules.now) header.now.sensor_cols) row.now) }
{
    let ticks = row.ticks();
    for reading in row.readings() {
        list.push(weigher.weight(header, rules, reading.col, ticks))?;
    }
    Ok(())
}

/// The weights of all readings in their order, of which `weight_of` tells one: that of the weight rule with the greatest
/// number that covers the reading's sensor and time, from 1 to 1,000, and 1 where none does. The table is one that was read
/// by these rules; a rule whose sensor has no column in the table covers no reading.
///
/// Room for all is taken at once. It takes time in proportion to the readings; besides, the weight rules are gone over once for
/// each sensor column and for each time at which one of them begins or ends.
///
/// # Errors
///
/// `AllocError` may come at any time.
pub fn weights_of(alloc: Global, table: &Table, rules: &Rules) -> Result<Vec<u32>, AllocError>
    ensures { IfOk result (λ list. list.items ≡ weights rules.now table.now) }
{
    let mut list = Vec::with_capacity(alloc, table.len() as usize)?;
    let mut weigher = Weigher::new();
    for row in rows_of(table) {
        push_weights(&mut list, &mut weigher, table.header(), rules, row)?;
    }
    Ok(list)
}
