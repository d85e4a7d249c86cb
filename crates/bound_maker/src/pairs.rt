//! The bounds of rules on two readings of a column.
ghost use Rattle.std.specs.Prelude.{◌≡◌, ◌*◌, ◌^◌, ◌≤◌, ◌++◌, neg_ℤ, option_to_list, unsigned_abs, OnOk, Some};
ghost use Rattle.std.specs.List.{flat_map};
ghost use Rattle.fix_point.specs.RateLimits.{AreWithinReach};
ghost use Rattle.pair_bounds.specs.Pairs.{elapsed, is_within, limit_on, place_in, rate_limit, rise_bound, swing_bound};
ghost use Rattle.rule_file.specs.Limits.{AreInReach};
ghost use Rattle.rule_file.specs.Numbers.{seen_rule};
ghost use Rattle.bound_maker.specs.Bounds.{both_sides, bounds_of_pairs, speed_bound};
ghost use Rattle.bound_maker.specs.Pairs.{HasSteps, IsBounded, pair_bound, speed_limits, with_next};
ghost use Rattle.bound_maker.specs.Readings.{all_pairs, neighbours};
ghost use Rattle.bound_maker.specs.Windows.{HasWindow, StampsRise};

use crate::reading::{Reading, first_of, later_of};
use crate::window::{Span, Window, part_of, slide};
use fix_point::Steps;
use pair_bounds::{Stamp, drift_bound, swing_bound};
use rule_file::{RuleAt, SpeedRule, SwingRule};
use screen_model::{Bound, BoundList, BoundName, End, Place, Side};
use std::alloc::AllocError;

/// What the bounds of a rule on the readings of a column have in common.
#[derive(Clone, Copy, Debug, PartialEq, Eq)]
pub(crate) struct Scope {
    /// The number of the rule.
    pub(crate) number: u32,
    /// The column.
    pub(crate) col: u32,
    /// The decimals of a value.
    pub(crate) decimals: u32,
}

/// The place of a column in a row.
pub(crate) fn place_in(col: u32, stamp: Stamp) -> Place
    ensures { result ≡ place_in col stamp }
{
    Place {
        row: stamp.row,
        col,
    }
}

/// The ticks from one row to another.
pub(crate) fn elapsed(from: Stamp, to: Stamp) -> i128
    ensures { result ≡ elapsed from to }
{
    i128::from(to.ticks) - i128::from(from.ticks)
}

/// Whether ticks lie between two numbers.
pub(crate) fn is_within(least: i64, most: i64, ticks: i128) -> bool
    ensures { result ≡ is_within least most ticks }
{
    i128::from(least) <= ticks && ticks <= i128::from(most)
}

/// The opposite of a number of units.
pub(crate) fn opposite(units: i64) -> i64
    requires { unsigned_abs units ≤ 4 * 10 ^ 15 }
    ensures { result ≡ neg_ℤ units }
{
    -units
}

/// The bound of a rule on the rise from the value at one place to that at another.
fn rise_bound(number: u32, from: Place, to: Place, limit: i64, side: Side) -> Bound
    ensures { result ≡ rise_bound number from to limit side }
{
    let name = BoundName {
        rule: number,
        from_row: from.row,
        to_row: to.row,
        col: from.col,
        side,
    };
    let (first, second) = match side {
        Side::Up => (from, to),
        Side::Down => (to, from),
    };
    Bound {
        name,
        first: End::At(first),
        second: End::At(second),
        limit,
    }
}

/// The limit on one side of a rise by whole steps between two rates.
fn step_limit(steps: &mut Steps, dt: i64, side: Side) -> i64
    requires { AreWithinReach steps.old dt }
    ensures limit { result ≡ rate_limit steps.old.min steps.old.max steps.old.decimals dt side }
    ensures steps { steps.new ≡ steps.old }
{
    let step = steps.step(dt);
    match side {
        Side::Up => step.greatest,
        Side::Down => opposite(step.least),
    }
}

/// The bound of a speed rule on the readings of its column in two rows; none where the rule does not speak of them.
pub(crate) fn speed_bound(
    scope: Scope,
    rule: &SpeedRule,
    steps: &mut Steps,
    from: Stamp,
    to: Stamp,
    side: Side,
) -> Option<Bound>
    requires steps { steps.old ≡ speed_limits scope.decimals rule.now }
    requires decimals { scope.decimals ≤ 6 }
    requires reach { AreInReach scope.decimals rule.now.min rule.now.max rule.now.window }
    ensures bound { result ≡ speed_bound scope.number rule.now scope.decimals scope.col from to side }
    ensures steps { steps.new ≡ steps.old }
{
    let ticks = elapsed(from, to);
    if !is_within(1, rule.window, ticks) {
        return None;
    }
    let limit = step_limit(steps, ticks as i64, side);
    Some(rise_bound(
        scope.number,
        place_in(scope.col, from),
        place_in(scope.col, to),
        limit,
        side,
    ))
}

/// The bound of a rule on the readings of its column in two rows; none where the rule does not speak of them.
pub(crate) fn pair_bound(
    scope: Scope,
    rule: RuleAt<'_>,
    steps: &mut Steps,
    from: Stamp,
    to: Stamp,
    side: Side,
) -> Option<Bound>
    requires steps { HasSteps scope.decimals (seen_rule rule) steps.old }
    requires bounded { IsBounded scope.decimals (seen_rule rule) }
    ensures bound { result ≡ pair_bound scope.number (seen_rule rule.entry) scope.decimals scope.col from to side }
    ensures steps { steps.new ≡ steps.old }
{
    match rule {
        RuleAt::Speed(rule) => speed_bound(scope, rule, steps, from, to, side),
        RuleAt::Swing(rule) => swing_bound(scope.number, rule, scope.col, from, to, side),
        RuleAt::Drift(rule) => {
            drift_bound(
                scope.number,
                rule,
                scope.decimals,
                scope.col,
                from,
                to,
                side,
            )
        }
        RuleAt::Range(_) | RuleAt::Trust(_) | RuleAt::Weight(_) | RuleAt::Between(_) => None,
    }
}

/// Adds a bound, if there is one.
pub(crate) fn push_bound(bounds: &mut BoundList, bound: Option<Bound>) -> Result<(), AllocError>
    ensures { OnOk result (bounds.new ≡ bounds.old ++ option_to_list bound) }
{
    match bound {
        Some(bound) => bounds.push(bound),
        None => Ok(()),
    }
}

/// Adds the bounds of a rise that is at least the one number and at most the other.
fn push_rise(
    bounds: &mut BoundList,
    number: u32,
    from: Place,
    to: Place,
    least: i64,
    most: i64,
) -> Result<(), AllocError>
    requires { unsigned_abs least ≤ 4 * 10 ^ 15 }
    ensures { OnOk result (bounds.new ≡ bounds.old ++ both_sides (λ side. Some (rise_bound number from to (limit_on side least most) side))) }
{
    bounds.push(rise_bound(number, from, to, most, Side::Up))?;
    bounds.push(rise_bound(number, from, to, opposite(least), Side::Down))?;
    Ok(())
}

/// Adds the bounds of a swing rule on the readings of its column in two rows. The pair is looked at once.
fn push_swing(
    bounds: &mut BoundList,
    scope: Scope,
    rule: &SwingRule,
    from: Stamp,
    to: Stamp,
) -> Result<(), AllocError>
    ensures { OnOk result (bounds.new ≡ bounds.old ++ both_sides (swing_bound scope.number rule.now scope.col from to)) }
{
    if !is_within(1, rule.window, elapsed(from, to)) {
        return Ok(());
    }
    let first = place_in(scope.col, from);
    let second = place_in(scope.col, to);
    push_rise(
        bounds,
        scope.number,
        first,
        second,
        opposite(rule.most),
        rule.most,
    )
}

/// Adds the bounds of a rule on the readings of its column in two rows.
fn push_pair(
    bounds: &mut BoundList,
    scope: Scope,
    rule: RuleAt<'_>,
    steps: &mut Steps,
    from: Stamp,
    to: Stamp,
) -> Result<(), AllocError>
    requires steps { HasSteps scope.decimals (seen_rule rule) steps.old }
    requires bounded { IsBounded scope.decimals (seen_rule rule) }
    ensures bounds { OnOk result (bounds.new ≡ bounds.old ++ both_sides (pair_bound scope.number (seen_rule rule.entry) scope.decimals scope.col from to)) }
    ensures steps { steps.new ≡ steps.old }
{
    if let RuleAt::Swing(rule) = rule {
        return push_swing(bounds, scope, rule, from, to);
    }
    let up = pair_bound(scope, rule, steps, from, to, Side::Up);
    push_bound(bounds, up)?;
    let down = pair_bound(scope, rule, steps, from, to, Side::Down);
    push_bound(bounds, down)
}

/// Adds the bounds of a rule on a reading and each of some others.
fn push_with_each(
    bounds: &mut BoundList,
    scope: Scope,
    rule: RuleAt<'_>,
    steps: &mut Steps,
    from: Stamp,
    others: &[Reading],
) -> Result<(), AllocError>
    requires steps { HasSteps scope.decimals (seen_rule rule) steps.old }
    requires bounded { IsBounded scope.decimals (seen_rule rule) }
    ensures bounds { OnOk result (bounds.new ≡ bounds.old ++ flat_map (λ to. both_sides (pair_bound scope.number (seen_rule rule.entry) scope.decimals scope.col from to.stamp)) others.now) }
    ensures steps { steps.new ≡ steps.old }
{
    for to in others {
        push_pair(bounds, scope, rule, steps, from, to.stamp)?;
    }
    Ok(())
}

/// Adds the bounds of a rule on each two readings, which go up in time. Readings that are not within the window of the
/// first are passed over, by two ends that only go on.
pub(crate) fn push_pairs(
    bounds: &mut BoundList,
    scope: Scope,
    rule: RuleAt<'_>,
    window: Window,
    steps: &mut Steps,
    readings: &[Reading],
) -> Result<(), AllocError>
    requires steps { HasSteps scope.decimals (seen_rule rule) steps.old }
    requires bounded { IsBounded scope.decimals (seen_rule rule) }
    requires window { HasWindow (seen_rule rule) window }
    requires rise { StampsRise readings.now }
    ensures { OnOk result (bounds.new ≡ bounds.old ++ bounds_of_pairs (pair_bound scope.number (seen_rule rule.entry) scope.decimals scope.col) (all_pairs readings.now)) }
{
    let mut rest = readings;
    let mut span = Span { start: 0, end: 0 };
    while let Some(from) = first_of(rest) {
        span = slide(window, rest, from.stamp.ticks, span);
        push_with_each(bounds, scope, rule, steps, from.stamp, part_of(rest, span))?;
        span = span.without_first();
        rest = later_of(rest);
    }
    Ok(())
}

/// Adds the bounds of a rule on a reading and the first of the later ones, if there is one.
fn push_with_next(
    bounds: &mut BoundList,
    scope: Scope,
    rule: RuleAt<'_>,
    steps: &mut Steps,
    from: Reading,
    later: &[Reading],
) -> Result<(), AllocError>
    requires steps { HasSteps scope.decimals (seen_rule rule) steps.old }
    requires bounded { IsBounded scope.decimals (seen_rule rule) }
    ensures bounds { OnOk result (bounds.new ≡ bounds.old ++ bounds_of_pairs (pair_bound scope.number (seen_rule rule.entry) scope.decimals scope.col) (with_next from later.now)) }
    ensures steps { steps.new ≡ steps.old }
{
    match later {
        [to, ..] => push_pair(bounds, scope, rule, steps, from.stamp, to.stamp),
        [] => Ok(()),
    }
}

/// Adds the bounds of a rule on each reading and the next one.
pub(crate) fn push_neighbours(
    bounds: &mut BoundList,
    scope: Scope,
    rule: RuleAt<'_>,
    steps: &mut Steps,
    readings: &[Reading],
) -> Result<(), AllocError>
    requires steps { HasSteps scope.decimals (seen_rule rule) steps.old }
    requires bounded { IsBounded scope.decimals (seen_rule rule) }
    ensures { OnOk result (bounds.new ≡ bounds.old ++ bounds_of_pairs (pair_bound scope.number (seen_rule rule.entry) scope.decimals scope.col) (neighbours readings.now)) }
{
    let mut rest = readings;
    while let Some(from) = first_of(rest) {
        let later = later_of(rest);
        push_with_next(bounds, scope, rule, steps, from, later)?;
        rest = later;
    }
    Ok(())
}
