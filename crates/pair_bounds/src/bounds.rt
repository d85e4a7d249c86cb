//! The bound that a rule makes of one pair of readings.
ghost use Rattle.std.specs.Prelude.{◌≡◌, ◌≤◌};
ghost use Rattle.rule_file.specs.Limits.{AreInReach};
ghost use Rattle.pair_bounds.specs.Pairs.{between_bound, drift_bound, swing_bound};

use crate::rise::{is_within, limit_on, opposite, rate_limit, rise_bound};
use crate::stamp::{Stamp, elapsed, place_in};
use rule_file::{BetweenRule, DriftRule, SwingRule};
use screen_model::{Bound, Place, Side};

/// The bound of a swing rule, which has this number, on the readings of its column in two rows; none where the rule does
/// not speak of them: the second row is not later, or is later by more than the window. It takes no memory.
pub fn swing_bound(
    number: u32,
    rule: &SwingRule,
    col: u32,
    from: Stamp,
    to: Stamp,
    side: Side,
) -> Option<Bound>
    ensures { result ≡ swing_bound number rule.now col from to side }
{
    if !is_within(1, rule.window, elapsed(from, to)) {
        return None;
    }
    let limit = limit_on(side, opposite(rule.most), rule.most);
    Some(rise_bound(number, place_in(col, from), place_in(col, to), limit, side))
}

/// The bound of a drift rule, which has this number, on the readings of its column in two rows, where a unit is 10^-d; none
/// where the rule does not speak of them: the second row is later by less than `over` or by more than the window. It takes
/// no memory.
pub fn drift_bound(
    number: u32,
    rule: &DriftRule,
    d: u32,
    col: u32,
    from: Stamp,
    to: Stamp,
    side: Side,
) -> Option<Bound>
    requires decimals { d ≤ 6 }
    requires reach { AreInReach d rule.now.min rule.now.max rule.now.window }
    ensures { result ≡ drift_bound number rule.now d col from to side }
{
    let ticks = elapsed(from, to);
    if !is_within(rule.over, rule.window, ticks) {
        return None;
    }
    let limit = rate_limit(rule.min, rule.max, d, ticks as i64, side);
    Some(rise_bound(number, place_in(col, from), place_in(col, to), limit, side))
}

/// The bound of a between rule, which has this number, on the readings of its two columns in a row; a column is None where
/// the row has no reading there. None where the row lacks one of the two. It takes no memory.
pub fn between_bound(
    number: u32,
    rule: &BetweenRule,
    row: u32,
    first_col: Option<u32>,
    second_col: Option<u32>,
    side: Side,
) -> Option<Bound>
    ensures { result ≡ between_bound number rule.now row first_col second_col side }
{
    let first = Place {
        row,
        col: first_col?,
    };
    let second = Place {
        row,
        col: second_col?,
    };
    Some(rise_bound(
        number,
        first,
        second,
        limit_on(side, rule.min, rule.max),
        side,
    ))
}
