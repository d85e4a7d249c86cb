//! How many bounds there are, before any is made.
ghost use Rattle.std.specs.Prelude.{◌≡◌, ℕ, ◌+◌, ◌-◌, ◌*◌, ◌≤◌, min, length, if◌then◌else◌};
ghost use Rattle.std.specs.List.{count_by, list_any};
ghost use Rattle.screen_model.specs.declared.limits.TheConstants.{MOST_ROWS};
ghost use Rattle.rule_file.specs.Numbers.{seen_rule};
ghost use Rattle.bound_maker.specs.declared.maker.TheConstants.{MOST_BOUNDS};
ghost use Rattle.bound_maker.specs.Bounds.{bounds_of_kind, bounds_of_pairs, made_pairs};
ghost use Rattle.bound_maker.specs.Pairs.{pair_bound, pairs_of, with_next};
ghost use Rattle.bound_maker.specs.Readings.{all_pairs, neighbours, readings_of};
ghost use Rattle.bound_maker.specs.Windows.{IsWindow, StampsRise, is_pair_within};

use crate::between::count_rows;
use crate::maker::MOST_BOUNDS;
use crate::pairs::{elapsed, is_within};
use crate::reading::{Reading, first_of, later_of};
use crate::rule::{Ruled, is_of_neighbours, window_of};
use crate::values::count_in_time;
use crate::window::{Span, Window, slide};
use rule_file::RuleAt;
use series_csv::Row;

/// A number, but no more than one above the most bounds.
pub(crate) fn capped(count: usize) -> u32
    ensures { result ≡ min count (MOST_BOUNDS + 1) }
{
    count.min(MOST_BOUNDS as usize + 1) as u32
}

/// How many pairs of readings lie in a window. The count stops above the most bounds.
fn count_pairs(window: Window, readings: &[Reading]) -> u32
    requires window { IsWindow window }
    requires rise { StampsRise readings.now }
    ensures { result ≡ min (count_by (is_pair_within window) (all_pairs readings.now)) (MOST_BOUNDS + 1) }
{
    let mut count = 0;
    let mut rest = readings;
    let mut span = Span { start: 0, end: 0 };
    while let Some(from) = first_of(rest) {
        if count > MOST_BOUNDS {
            return count;
        }
        span = slide(window, rest, from.stamp.ticks, span);
        count = with_span(count, span);
        span = span.without_first();
        rest = later_of(rest);
    }
    count
}

/// A count and the readings of a span, but no more than one above the most bounds.
fn with_span(count: u32, span: Span) -> u32
    requires { span.start ≤ span.end }
    ensures { result ≡ min (count + (span.end - span.start)) (MOST_BOUNDS + 1) }
{
    capped((count as usize).saturating_add(span.end - span.start))
}

/// Whether the first of later readings lies in the window of a reading.
fn has_next(window: Window, from: Reading, later: &[Reading]) -> bool
    ensures { result ≡ list_any (is_pair_within window) (with_next from later.now) }
{
    match later {
        [to, ..] => is_within(window.least, window.most, elapsed(from.stamp, to.stamp)),
        [] => false,
    }
}

/// How many readings have the next one in a window.
fn count_neighbours(window: Window, readings: &[Reading]) -> u32
    ensures { result ≡ min (count_by (is_pair_within window) (neighbours readings.now)) (MOST_BOUNDS + 1) }
{
    let mut count = 0;
    let mut rest = readings;
    while let Some(from) = first_of(rest) {
        let later = later_of(rest);
        count += usize::from(has_next(window, from, later));
        rest = later;
    }
    capped(count)
}

/// How many bounds a rule makes; no more than is counted.
pub(crate) fn count_rule(ruled: &Ruled<'_>, rows: &[Row], readings: &[Reading]) -> u32
    requires few { length rows.now ≤ MOST_ROWS }
    requires readings { readings.now ≡ readings_of ruled.now.col rows.now }
    requires rise { StampsRise (readings_of ruled.now.col rows.now) }
    ensures { (d : ℕ) → result ≡ min (length (bounds_of_kind made_pairs d rows.now ruled.now.number ruled.now.col ruled.now.second (seen_rule ruled.now.rule))) (MOST_BOUNDS + 1) }
{
    capped(2 * count_spoken(ruled, rows, readings) as usize)
}

/// Of how many readings, pairs of them or rows a rule speaks; no more than is counted.
fn count_spoken(ruled: &Ruled<'_>, rows: &[Row], readings: &[Reading]) -> u32
    requires few { length rows.now ≤ MOST_ROWS }
    requires readings { readings.now ≡ readings_of ruled.now.col rows.now }
    requires rise { StampsRise (readings_of ruled.now.col rows.now) }
    ensures { (d : ℕ) → min (2 * result) (MOST_BOUNDS + 1) ≡ min (length (bounds_of_kind made_pairs d rows.now ruled.now.number ruled.now.col ruled.now.second (seen_rule ruled.now.rule))) (MOST_BOUNDS + 1) }
{
    match ruled.rule {
        RuleAt::Range(rule) => capped(count_in_time(rule.from, rule.to, readings)),
        RuleAt::Trust(rule) => capped(count_in_time(rule.from, rule.to, readings)),
        RuleAt::Weight(_) => 0,
        RuleAt::Between(_) => capped(count_rows(ruled.col, ruled.second, rows)),
        RuleAt::Speed(_) => count_of_pairs(ruled.rule, readings),
        RuleAt::Swing(_) => count_of_pairs(ruled.rule, readings),
        RuleAt::Drift(_) => count_of_pairs(ruled.rule, readings),
    }
}

/// Of how many pairs of readings a rule speaks; no more than is counted.
fn count_of_pairs(rule: RuleAt<'_>, readings: &[Reading]) -> u32
    requires { StampsRise readings.now }
    ensures { (number d col : ℕ) → min (2 * result) (MOST_BOUNDS + 1) ≡ min (length (bounds_of_pairs (pair_bound number (seen_rule rule.entry) d col) (pairs_of (seen_rule rule.entry) readings.now))) (MOST_BOUNDS + 1) }
{
    match window_of(rule) {
        Some(window) => count_in_window(window, is_of_neighbours(rule), readings),
        None => 0,
    }
}

/// How many pairs of readings, or of neighbours alone, lie in a window.
fn count_in_window(window: Window, of_neighbours: bool, readings: &[Reading]) -> u32
    requires window { IsWindow window }
    requires rise { StampsRise readings.now }
    ensures { result ≡ min (count_by (is_pair_within window) (if of_neighbours then neighbours readings.now else all_pairs readings.now)) (MOST_BOUNDS + 1) }
{
    if of_neighbours {
        count_neighbours(window, readings)
    } else {
        count_pairs(window, readings)
    }
}
