//! The bounds of one rule.
ghost use Rattle.std.specs.Prelude.{◌≡◌, ◌≤◌, ◌^◌, ◌++◌, length, get_or, unsigned_abs, None, OnOk, MatchOption};
ghost use Rattle.std.specs.List.{AllByRecursion};
ghost use Rattle.screen_model.specs.declared.limits.TheConstants.{MOST_ROWS};
ghost use Rattle.bound_maker.specs.declared.reading.Reading.{Reading};
ghost use Rattle.bound_maker.specs.Bounds.{bounds_of_kind, bounds_of_pairs, made_pairs};
ghost use Rattle.bound_maker.specs.Readings.{readings_of};
ghost use Rattle.bound_maker.specs.Windows.{HasWindow, SpeaksOfNone, StampsRise};
ghost use Rattle.rule_file.specs.Numbers.{rule_of, seen_rule, sensor_names};
ghost use Rattle.bound_maker.specs.Pairs.{HasSteps, IsBounded, is_of_neighbours, pair_bound, pairs_of};
ghost use Rattle.bound_maker.specs.Ruled.{IsRuled, named_before};

use crate::between::push_rows;
use crate::pairs::{Scope, push_neighbours, push_pairs};
use crate::reading::Reading;
use crate::values::{push_range, push_trust};
use crate::window::Window;
use fix_point::{Rate, Steps};
use rule_file::{RuleAt, Rules};
use screen_model::BoundList;
use series_csv::{Header, Row};
use std::alloc::AllocError;

/// A rule with its number and the columns of its sensors.
#[derive(Clone, Copy)]
pub(crate) struct Ruled<'a> {
    /// The number of the rule.
    pub(crate) number: u32,
    /// The rule.
    pub(crate) rule: RuleAt<'a>,
    /// The column of its sensor, or of its first one.
    pub(crate) col: u32,
    /// The column of its second sensor.
    pub(crate) second: u32,
}

/// The column of a sensor, by its place among the sensors of all rules.
pub(crate) fn sensor_col(header: &Header, place: u32) -> u32
    ensures { result ≡ get_or header.now.sensor_cols place 0 }
{
    header.sensor_col(place).unwrap_or(0)
}

/// The rule of a number with the columns of its sensors, if there is one; the place is that of its first sensor among the
/// sensors of all rules.
pub(crate) fn ruled_from<'a>(
    header: &Header,
    rules: &'a Rules,
    number: u32,
    place: u32,
) -> Option<Ruled<'a>>
    requires { place ≤ 10000 }
    ensures { MatchOption result (rule_of rules.now number ≡ None)
        (λ ruled. IsRuled rules.now header.now.sensor_cols number place (seen_rule ruled.rule) ruled.number ruled.col ruled.second) }
{
    let rule = rules.rule_at(number)?;
    Some(Ruled {
        number,
        rule,
        col: sensor_col(header, place),
        second: sensor_col(header, place + 1),
    })
}

/// The rule of a number with the columns of its sensors, if there is one.
pub(crate) fn ruled_at<'a>(header: &Header, rules: &'a Rules, number: u32) -> Option<Ruled<'a>>
    ensures { MatchOption result (rule_of rules.now number ≡ None)
        (λ ruled. IsRuled rules.now header.now.sensor_cols number (named_before rules.now number) (seen_rule ruled.rule) ruled.number ruled.col ruled.second) }
{
    match rules.sensor_index(number) {
        Some(place) => ruled_from(header, rules, number, place),
        None => None,
    }
}

/// How many sensors a rule speaks of.
pub(crate) fn sensor_count(rule: RuleAt<'_>) -> u32
    ensures count { result ≡ length (sensor_names (seen_rule rule.entry)) }
    ensures most { result ≤ 2 }
{
    match rule {
        RuleAt::Between(_) => 2,
        _ => 1,
    }
}

/// How much later a reading is of which a rule speaks with another, and nothing for a rule that speaks of no two readings
/// of a column.
pub(crate) fn window_of(rule: RuleAt<'_>) -> Option<Window>
    ensures { MatchOption result (SpeaksOfNone (seen_rule rule.entry)) (HasWindow (seen_rule rule.entry)) }
{
    match rule {
        RuleAt::Speed(rule) => Some(Window {
            least: 1,
            most: rule.window,
        }),
        RuleAt::Swing(rule) => Some(Window {
            least: 1,
            most: rule.window,
        }),
        RuleAt::Drift(rule) => Some(Window {
            least: rule.over,
            most: rule.window,
        }),
        RuleAt::Range(_) | RuleAt::Trust(_) | RuleAt::Weight(_) | RuleAt::Between(_) => None,
    }
}

/// The steps of a speed rule; for any other some steps.
pub(crate) fn steps_of(rule: RuleAt<'_>, d: u32) -> Steps
    ensures { HasSteps d (seen_rule rule.entry) result }
{
    match rule {
        RuleAt::Speed(rule) => Steps::new(rule.min, rule.max, d),
        _ => {
            let rate = Rate {
                millionths: 0,
                per: 1,
            };
            Steps::new(rate, rate, d)
        }
    }
}

/// Whether a rule speaks of neighbouring readings alone, as a speed rule without a price.
pub(crate) fn is_of_neighbours(rule: RuleAt<'_>) -> bool
    ensures { result ≡ is_of_neighbours (seen_rule rule.entry) }
{
    match rule {
        RuleAt::Speed(rule) => rule.price == 0,
        _ => false,
    }
}

/// Adds the bounds of a rule over rows, where a unit is 10^-d; the readings are those of its first column.
pub(crate) fn push_rule(
    bounds: &mut BoundList,
    ruled: &Ruled<'_>,
    d: u32,
    rows: &[Row],
    readings: &[Reading],
) -> Result<(), AllocError>
    requires few { length rows.now ≤ MOST_ROWS }
    requires readings { readings.now ≡ readings_of ruled.now.col rows.now }
    requires rise { StampsRise (readings_of ruled.now.col rows.now) }
    requires small { AllByRecursion (λ (reading : Reading). unsigned_abs reading.value ≤ 10 ^ 15) (readings_of ruled.now.col rows.now) }
    requires bounded { IsBounded d (seen_rule ruled.now.rule) }
    ensures { OnOk result (bounds.new ≡ bounds.old ++ bounds_of_kind made_pairs d rows.now ruled.now.number ruled.now.col ruled.now.second (seen_rule ruled.now.rule)) }
{
    let Ruled {
        number,
        rule,
        col,
        second,
    } = *ruled;
    let scope = Scope {
        number,
        col,
        decimals: d,
    };
    match rule {
        RuleAt::Range(rule) => push_range(bounds, number, col, rule, readings),
        RuleAt::Trust(rule) => push_trust(bounds, number, col, rule, readings),
        RuleAt::Weight(_) => Ok(()),
        RuleAt::Between(rule) => push_rows(bounds, number, rule, col, second, rows),
        RuleAt::Speed(_) | RuleAt::Swing(_) | RuleAt::Drift(_) => {
            push_of_pairs(bounds, scope, rule, readings)
        }
    }
}

/// Adds the bounds of a rule on two readings of a column.
fn push_of_pairs(
    bounds: &mut BoundList,
    scope: Scope,
    rule: RuleAt<'_>,
    readings: &[Reading],
) -> Result<(), AllocError>
    requires rise { StampsRise readings.now }
    requires bounded { IsBounded scope.decimals (seen_rule rule) }
    ensures { OnOk result (bounds.new ≡ bounds.old ++ bounds_of_pairs (pair_bound scope.number (seen_rule rule.entry) scope.decimals scope.col) (pairs_of (seen_rule rule.entry) readings.now)) }
{
    let mut steps = steps_of(rule, scope.decimals);
    if is_of_neighbours(rule) {
        return push_neighbours(bounds, scope, rule, &mut steps, readings);
    }
    match window_of(rule) {
        Some(window) => push_pairs(bounds, scope, rule, window, &mut steps, readings),
        None => Ok(()),
    }
}
