//! The median of the candidates of a reading.
ghost use Rattle.std.specs.Prelude.{◌≡◌, ◌-◌, ◌<◌, ◌≤◌, ◌-ℤ◌, length};
ghost use Rattle.fix_point.specs.Rates.{IsWithinReach};
ghost use Rattle.rule_file.specs.Limits.{IsUnits};
ghost use Rattle.order_window.specs.Orders.{window_of};
ghost use Rattle.order_window.specs.Selection.{AreAfter, IsLowerEnd, IsSplit, IsSplitBetween, IsUpperEnd, before_ceil, before_floor, count_of, max_at, min_at};
ghost use Rattle.order_window.specs.Window.{IsMedianOf};

use crate::key::Key;
use crate::order::Bounds;
use crate::orders::Orders;
use fix_point::{Rate, ceil_rate, floor_rate};

/// The median of the candidates of a reading before the keys.
pub(crate) fn median_of(orders: &Orders, own: Key) -> i64
    requires { AreAfter own orders.now }
    ensures { IsMedianOf (window_of orders.now) own result }
{
    let count = orders.by_time.len();
    if count == 0 {
        return own.value;
    }
    let split = split_of(orders, own);
    let low = lower_end(orders, own, split);
    let high = upper_end(orders, own, split);
    own.value.max(low).min(high)
}

/// How many of the lower half of the candidates are from the order of the greatest rate.
fn split_of(orders: &Orders, own: Key) -> usize
    requires { AreAfter own orders.now }
    ensures { IsSplit (max_at orders.now own) (min_at orders.now own) (count_of orders.now) result }
{
    let mut bounds = Bounds {
        low: 0,
        high: orders.by_time.len(),
    };
    'search: while bounds.low < bounds.high {
        bounds = halved(orders, own, bounds);
    }
    bounds.low
}

/// The half of what is left of a search in which the split is.
fn halved(orders: &Orders, own: Key, bounds: Bounds) -> Bounds
    requires after { AreAfter own orders.now }
    requires searched { IsSplitBetween (max_at orders.now own) (min_at orders.now own) (count_of orders.now) bounds.low bounds.high }
    requires left { bounds.low < bounds.high }
    ensures searched { IsSplitBetween (max_at orders.now own) (min_at orders.now own) (count_of orders.now) result.low result.high }
    ensures smaller { result.high - result.low < bounds.high - bounds.low }
{
    let middle = bounds.low + (bounds.high - bounds.low) / 2;
    let first = from_max(orders, own, middle);
    let second = from_min(orders, own, orders.by_time.len() - 1 - middle);
    if first < second {
        Bounds {
            low: middle + 1,
            high: bounds.high,
        }
    } else {
        Bounds {
            low: bounds.low,
            high: middle,
        }
    }
}

/// The greatest candidate of the lower half.
fn lower_end(orders: &Orders, own: Key, split: usize) -> i64
    requires after { AreAfter own orders.now }
    requires some { 0 < count_of orders.now }
    requires split { split ≤ count_of orders.now }
    ensures { IsLowerEnd (max_at orders.now own) (min_at orders.now own) (count_of orders.now) split result }
{
    let count = orders.by_time.len();
    if split == 0 {
        return from_min(orders, own, count - 1);
    }
    let first = from_max(orders, own, split - 1);
    if split == count {
        return first;
    }
    let second = from_min(orders, own, count - 1 - split);
    first.max(second)
}

/// The least candidate of the upper half.
fn upper_end(orders: &Orders, own: Key, split: usize) -> i64
    requires after { AreAfter own orders.now }
    requires some { 0 < count_of orders.now }
    requires split { split ≤ count_of orders.now }
    ensures { IsUpperEnd (max_at orders.now own) (min_at orders.now own) (count_of orders.now) split result }
{
    let count = orders.by_time.len();
    if split == count {
        return from_min(orders, own, 0);
    }
    let first = from_max(orders, own, split);
    if split == 0 {
        return first;
    }
    let second = from_min(orders, own, count - split);
    first.min(second)
}

/// The candidate of the greatest rate at a place of its order.
fn from_max(orders: &Orders, own: Key, place: usize) -> i64
    requires after { AreAfter own orders.now }
    requires place { place < count_of orders.now }
    ensures { result ≡ max_at orders.now own place }
{
    let key = orders.by_max[place];
    under_floor(orders.max, orders.decimals, own, key)
}

/// The candidate of the least rate at a place of its order.
fn from_min(orders: &Orders, own: Key, place: usize) -> i64
    requires after { AreAfter own orders.now }
    requires place { place < count_of orders.now }
    ensures { result ≡ min_at orders.now own place }
{
    let key = orders.by_min[place];
    under_ceil(orders.min, orders.decimals, own, key)
}

/// The number from which the greatest whole step at the rate leads to the key.
fn under_floor(rate: Rate, d: u32, own: Key, key: Key) -> i64
    requires reach { IsWithinReach rate d (key.ticks -ℤ own.ticks) }
    requires units { IsUnits key.value }
    ensures { result ≡ before_floor rate d own key }
{
    let dt = key.ticks - own.ticks;
    let step = floor_rate(rate, d, dt);
    key.value - step
}

/// The number from which the least whole step at the rate leads to the key.
fn under_ceil(rate: Rate, d: u32, own: Key, key: Key) -> i64
    requires reach { IsWithinReach rate d (key.ticks -ℤ own.ticks) }
    requires units { IsUnits key.value }
    ensures { result ≡ before_ceil rate d own key }
{
    let dt = key.ticks - own.ticks;
    let step = ceil_rate(rate, d, dt);
    key.value - step
}
