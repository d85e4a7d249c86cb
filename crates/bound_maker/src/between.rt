//! The bounds of rules between two columns.
ghost use Rattle.std.specs.Prelude.{◌≡◌, ◌≤◌, ◌++◌, ◌&&◌, is_some, length, OnOk};
ghost use Rattle.std.specs.List.{count_by};
ghost use Rattle.screen_model.specs.declared.limits.TheConstants.{MOST_ROWS};
ghost use Rattle.pair_bounds.specs.Pairs.{between_bound};
ghost use Rattle.bound_maker.specs.Bounds.{both_sides, bounds_in_rows, col_if_read};
ghost use Rattle.bound_maker.specs.Readings.{reading_in};

use crate::pairs::push_bound;
use crate::reading::reading_in;
use pair_bounds::between_bound;
use rule_file::BetweenRule;
use screen_model::{BoundList, Side};
use series_csv::Row;
use std::alloc::AllocError;

/// The column, if the row has a reading there.
pub(crate) fn col_if_read(row: &Row, col: u32) -> Option<u32>
    ensures { result ≡ col_if_read col row.now }
{
    match reading_in(row, col) {
        Some(_) => Some(col),
        None => None,
    }
}

/// Adds the bounds of a rule between two columns of the row of this number.
fn push_row(
    bounds: &mut BoundList,
    number: u32,
    rule: &BetweenRule,
    row: u32,
    first_col: Option<u32>,
    second_col: Option<u32>,
) -> Result<(), AllocError>
    ensures { OnOk result (bounds.new ≡ bounds.old ++ both_sides (between_bound number rule.now row first_col second_col)) }
{
    let up = between_bound(number, rule, row, first_col, second_col, Side::Up);
    push_bound(bounds, up)?;
    let down = between_bound(number, rule, row, first_col, second_col, Side::Down);
    push_bound(bounds, down)
}

/// Adds the bounds of a rule between two columns of rows.
pub(crate) fn push_rows(
    bounds: &mut BoundList,
    number: u32,
    rule: &BetweenRule,
    first_col: u32,
    second_col: u32,
    rows: &[Row],
) -> Result<(), AllocError>
    requires { length rows.now ≤ MOST_ROWS }
    ensures { OnOk result (bounds.new ≡ bounds.old ++ bounds_in_rows (between_bound number rule.now) first_col second_col 1 rows.now) }
{
    let mut row_number = 0;
    for row in rows {
        row_number += 1;
        let first = col_if_read(row, first_col);
        let second = col_if_read(row, second_col);
        push_row(bounds, number, rule, row_number, first, second)?;
    }
    Ok(())
}

/// Whether a row has a reading in both columns.
fn has_both(row: &Row, first_col: u32, second_col: u32) -> bool
    ensures { result ≡ (is_some (reading_in first_col row.now) && is_some (reading_in second_col row.now)) }
{
    reading_in(row, first_col).is_some() && reading_in(row, second_col).is_some()
}

/// How many rows have a reading in both columns.
pub(crate) fn count_rows(first_col: u32, second_col: u32, rows: &[Row]) -> usize
    ensures { result ≡ count_by (λ row. is_some (reading_in first_col row) && is_some (reading_in second_col row)) rows.now }
{
    let mut count = 0;
    for row in rows {
        count += usize::from(has_both(row, first_col, second_col));
    }
    count
}
