//! The list of bounds.
ghost use Rattle.std.specs.Prelude.{◌≡◌, ◌≢◌, ℕ, ◌+◌, ◌<◌, ◌≤◌, ◌++◌, min, length, IfOk, IfErr, OnOk};
ghost use Rattle.std.specs.List.{AllByRecursion, flat_map};
ghost use Rattle.rule_file.specs.Numbers.{rules_in_order, seen_rule};
ghost use Rattle.series_csv.specs.Readings.{places};
ghost use Rattle.bound_maker.specs.Bounds.{bounds_of_kind, bounds_of_rule, made_bounds, made_pairs, size_bounds, with_columns};
ghost use Rattle.bound_maker.specs.Columns.{IsColumn};
ghost use Rattle.bound_maker.specs.Pairs.{IsBounded};
ghost use Rattle.bound_maker.specs.declared.maker.MakeFault.TheVariants.{Memory};

use crate::columns::{Column, column_at, columns_of};
use crate::count::{capped, count_rule};
use crate::reading::{gather, rows_of};
use crate::rule::{Ruled, push_rule, ruled_from, sensor_count};
use crate::values::push_sizes;
use rule_file::Rules;
use screen_model::BoundList;
use series_csv::Table;
use std::alloc::{AllocError, Global};

/// The most bounds of a list that is made.
pub const MOST_BOUNDS: u32 = 4_000_000;

/// Why there is no list of bounds.
#[derive(Clone, Copy, Debug, PartialEq, Eq, thiserror::Error, Drop)]
pub enum MakeFault {
    /// There are more than 4,000,000 bounds.
    #[error("there are more than 4,000,000 bounds")]
    TooManyBounds = 1,
    /// Memory ran out.
    #[error("out of memory")]
    Memory,
}

impl From<AllocError> for MakeFault {
    ghost use Rattle.std.specs.Prelude.{◌≡◌};
    ghost use Rattle.bound_maker.specs.declared.maker.MakeFault.TheVariants.{Memory};

    ghost from_gives = { λ _ fault. fault ≡ Memory };

    fn from(_: AllocError) -> MakeFault {
        MakeFault::Memory
    }
}

/// The bounds that the rules make of the table, in their order: by rule, then by the earlier and by the later row, then by
/// column, and up before down. Of a speed rule without a price these are the bounds on neighbouring readings alone.
///
/// The table is one that was read by these rules; a rule whose sensor has no column in the table makes no bound.
///
/// It takes the time of going over the rows once for each rule, and of the bounds. Where there are too many, none is made.
///
/// # Errors
///
/// `TooManyBounds` where there are more than 4,000,000. `Memory` may come at any time.
pub fn make(alloc: Global, table: &Table, rules: &Rules) -> Result<BoundList, MakeFault>
    ensures made { IfOk result (λ bounds. bounds ≡ made_bounds rules.now table.now) }
    ensures few { IfOk result (λ bounds. length bounds ≤ MOST_BOUNDS) }
    ensures too_many { IfErr result (λ fault. fault ≢ Memory → MOST_BOUNDS < length (made_bounds rules.now table.now)) }
{
    let columns = columns_of(alloc, table)?;
    let count = count_bounds(alloc, table, rules, &columns)?;
    if count > MOST_BOUNDS {
        return Err(MakeFault::TooManyBounds);
    }
    let mut bounds = BoundList::with_capacity(alloc, count as usize)?;
    push_sizes(&mut bounds, table.places().as_slice())?;
    push_rules(alloc, &mut bounds, table, rules, &columns)?;
    Ok(bounds)
}

/// How many bounds the rules make of the table, and no more than one above the most.
fn count_bounds(
    alloc: Global,
    table: &Table,
    rules: &Rules,
    columns: &[Column],
) -> Result<u32, AllocError>
    requires { AllByRecursion (IsColumn table.now.rows) columns.now }
    ensures { IfOk result (λ count. count ≡ min (length (made_bounds rules.now table.now)) (MOST_BOUNDS + 1)) }
{
    let mut count = count_sizes(table);
    let mut done = 0;
    let mut place = 0;
    while let Some(ruled) = ruled_from(table.header(), rules, done + 1, place) {
        if count > MOST_BOUNDS {
            return Ok(count);
        }
        let more = count_of(alloc, table, columns, &ruled)?;
        count = capped(count as usize + more as usize);
        done += 1;
        place += sensor_count(ruled.rule);
    }
    Ok(count)
}

/// How many bounds rule 0 makes of the table.
fn count_sizes(table: &Table) -> u32
    ensures { result ≡ min (length (size_bounds (places table.now))) (MOST_BOUNDS + 1) }
{
    // There are as many places as readings.
    let _places = table.places();
    capped(2 * table.len() as usize)
}

/// How many bounds a rule makes of the table.
fn count_of(
    alloc: Global,
    table: &Table,
    columns: &[Column],
    ruled: &Ruled<'_>,
) -> Result<u32, AllocError>
    requires { AllByRecursion (IsColumn table.now.rows) columns.now }
    ensures { IfOk result (λ count. (d : ℕ) → count ≡ min (length (bounds_of_kind made_pairs d table.now.rows ruled.now.number ruled.now.col ruled.now.second (seen_rule ruled.now.rule))) (MOST_BOUNDS + 1)) }
{
    let rows = rows_of(table);
    match column_at(columns, rows, ruled.col) {
        Some(readings) => Ok(count_rule(ruled, rows, readings)),
        None => {
            let readings = gather(alloc, rows, ruled.col)?;
            Ok(count_rule(ruled, rows, readings.as_slice()))
        }
    }
}

/// Adds the bounds of all rules.
fn push_rules(
    alloc: Global,
    bounds: &mut BoundList,
    table: &Table,
    rules: &Rules,
    columns: &[Column],
) -> Result<(), AllocError>
    requires { AllByRecursion (IsColumn table.now.rows) columns.now }
    ensures { OnOk result (bounds.new ≡ bounds.old ++ flat_map (bounds_of_rule made_pairs rules.now.format.decimals table.now.rows) (with_columns 1 (rules_in_order rules.now) table.now.header.sensor_cols)) }
{
    let mut done = 0;
    let mut place = 0;
    while let Some(ruled) = ruled_from(table.header(), rules, done + 1, place) {
        push_of(alloc, bounds, table, columns, &ruled, rules.format.decimals)?;
        done += 1;
        place += sensor_count(ruled.rule);
    }
    Ok(())
}

/// Adds the bounds of a rule.
fn push_of(
    alloc: Global,
    bounds: &mut BoundList,
    table: &Table,
    columns: &[Column],
    ruled: &Ruled<'_>,
    d: u32,
) -> Result<(), AllocError>
    requires columns { AllByRecursion (IsColumn table.now.rows) columns.now }
    requires bounded { IsBounded d (seen_rule ruled.now.rule) }
    ensures { OnOk result (bounds.new ≡ bounds.old ++ bounds_of_kind made_pairs d table.now.rows ruled.now.number ruled.now.col ruled.now.second (seen_rule ruled.now.rule)) }
{
    let rows = rows_of(table);
    match column_at(columns, rows, ruled.col) {
        Some(readings) => push_rule(bounds, ruled, d, rows, readings),
        None => {
            let readings = gather(alloc, rows, ruled.col)?;
            push_rule(bounds, ruled, d, rows, readings.as_slice())
        }
    }
}
