//! Ordered windows, and the medians of all candidates, one by one.

ghost use Rattle.std.specs.Prelude.{◌≤◌, All, IsTrue};
ghost use Rattle.fix_point.specs.Rates.{IsInReach, IsRate};
ghost use Rattle.rule_file.specs.Limits.{IsSpan};
ghost use Rattle.order_window.specs.Window.{AreApart, IsAfter};

use crate::rules::{Rule, is_in_reach, is_rate, is_span};
use fix_point::Rate;
use order_window::{Key, OrderWindow};
use rule_file::{Name, SpeedRule};
use std::alloc::{AllocError, Global};
use window_median::median_plain;

/// Whether two keys may stand in one window.
fn are_apart(span: i64, key: Key, other: Key) -> bool
    ensures { IsTrue result → AreApart span key other }
{
    let apart = key.ticks.abs_diff(other.ticks);
    if apart == 0 {
        return false;
    }
    i128::from(apart) <= i128::from(span)
}

/// Whether a key may be added to these.
fn all_apart(span: i64, key: Key, keys: &[Key]) -> bool
    ensures { IsTrue result → All (AreApart span key) keys.now }
{
    for other in keys {
        if !are_apart(span, key, *other) {
            return false;
        }
    }
    true
}

/// Whether a key comes after a reading, within the window.
fn is_after(span: i64, own: Key, key: Key) -> bool
    ensures { IsTrue result → IsAfter span own key }
{
    if own.ticks < key.ticks {
        are_apart(span, key, own)
    } else {
        false
    }
}

/// Whether a reading has these keys as its successors.
fn all_after(span: i64, own: Key, keys: &[Key]) -> bool
    ensures { IsTrue result → All (IsAfter span own) keys.now }
{
    for key in keys {
        if !is_after(span, own, *key) {
            return false;
        }
    }
    true
}

/// Adds a key where it may be added.
pub(crate) fn try_insert(order: &mut OrderWindow, key: Key) -> bool {
    let fits = order.keys().len() < order.room() as usize
        && key.value.unsigned_abs() <= 1_000_000_000_000_000
        && all_apart(order.span(), key, order.keys());
    if fits {
        order.insert(key);
    }
    fits
}

/// The median of a reading that the keys follow.
pub(crate) fn try_median(order: &OrderWindow, own: Key) -> Option<i64> {
    if all_after(order.span(), own, order.keys()) {
        Some(order.median(own))
    } else {
        None
    }
}

/// So many millionths for so many seconds, in units and as a whole number, rounded down.
fn floor(millionths: i64, rule: Rule, dt: i64) -> Option<i64> {
    let unit = 10i128.checked_pow(rule.decimals)?;
    let change = i128::from(millionths).checked_mul(unit)?;
    let change = change.checked_mul(i128::from(dt))?;
    let parts = i128::from(rule.per).checked_mul(1_000_000_000_000_000)?;
    i64::try_from(change.checked_div_euclid(parts)?).ok()
}

/// The least and the greatest whole step in so many ticks.
pub(crate) fn steps_of(rule: Rule, dt: i64) -> Option<(i64, i64)> {
    let most = floor(rule.max, rule, dt)?;
    let least = floor(rule.min.checked_neg()?, rule, dt)?.checked_neg()?;
    Some((least, most))
}

/// The two candidates of a key.
fn candidates_of(rule: Rule, own: Key, key: Key) -> Option<(i64, i64)> {
    let (least, most) = steps_of(rule, key.ticks.checked_sub(own.ticks)?)?;
    Some((key.value.checked_sub(most)?, key.value.checked_sub(least)?))
}

/// The median of all candidates, one by one.
pub(crate) fn plain(
    alloc: Global,
    rule: Rule,
    own: Key,
    keys: &[Key],
) -> Result<Option<i64>, AllocError> {
    let mut candidates = Vec::new(alloc);
    candidates.push(own.value)?;
    for key in keys {
        let Some((first, second)) = candidates_of(rule, own, *key) else {
            return Ok(None);
        };
        candidates.push(first)?;
        candidates.push(second)?;
    }
    if candidates.len() % 2 == 1 {
        Ok(Some(median_plain(&mut candidates)))
    } else {
        Ok(None)
    }
}

/// A window under a rule, where a file may have this rule.
pub(crate) fn window_for(alloc: Global, rule: Rule) -> Result<Option<OrderWindow>, AllocError> {
    let min = Rate {
        millionths: rule.min,
        per: rule.per,
    };
    let max = Rate {
        millionths: rule.max,
        per: rule.per,
    };
    if !is_rate(min) || !is_rate(max) || rule.max < rule.min {
        return Ok(None);
    }
    if rule.decimals > 6 || !is_span(rule.window) {
        return Ok(None);
    }
    if !is_in_reach(min, rule.decimals, rule.window)
        || !is_in_reach(max, rule.decimals, rule.window)
    {
        return Ok(None);
    }
    let speed = SpeedRule {
        sensor: Name::new(alloc),
        min,
        max,
        window: rule.window,
        price: 0,
    };
    Ok(Some(OrderWindow::with_room(alloc, rule.room, &speed, rule.decimals)?))
}
