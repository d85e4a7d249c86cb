//! The keys of a window in their three orders.
ghost use Rattle.std.specs.Prelude.{◌≡◌, ◌<◌, ◌≤◌, [], length, All, IfNone, IfOk, IfSome, ◌≢◌};
ghost use Rattle.fix_point.specs.RateLimits.{AreWithinReach};
ghost use Rattle.rule_file.specs.Limits.{IsUnits};
ghost use Rattle.order_window.specs.Orders.{AreOrders, StayInPlace, window_of};
ghost use Rattle.order_window.specs.Window.{AreApart, IsAdded};

use crate::key::Key;
use crate::line::{rate_line, ticks_line};
use crate::order::{put, take, take_at};
use fix_point::Rate;
use std::alloc::{AllocError, Global};

/// The keys of a window by time and by their heights over the lines of the two rates, and what limits them.
#[derive(Drop)]
pub(crate) struct Orders {
    pub(crate) by_time: Vec<Key>,
    pub(crate) by_max: Vec<Key>,
    pub(crate) by_min: Vec<Key>,
    pub(crate) room: u32,
    pub(crate) min: Rate,
    pub(crate) max: Rate,
    pub(crate) decimals: u32,
    pub(crate) span: i64,
}

/// No keys, with room for so many.
pub(crate) fn no_keys(
    alloc: Global,
    room: u32,
    min: Rate,
    max: Rate,
    decimals: u32,
    span: i64,
) -> Result<Orders, AllocError>
    requires { AreWithinReach (record { min = min; max = max; decimals = decimals }) span }
    ensures sorted { IfOk result AreOrders }
    ensures window { IfOk result (λ orders. window_of orders ≡ record { keys = []; room = room; rates = record { min = min; max = max; decimals = decimals }; span = span }) }
{
    let by_time = Vec::with_capacity(alloc, room as usize)?;
    let by_max = Vec::with_capacity(alloc, room as usize)?;
    let by_min = Vec::with_capacity(alloc, room as usize)?;
    Ok(Orders {
        by_time,
        by_max,
        by_min,
        room,
        min,
        max,
        decimals,
        span,
    })
}

/// Adds a key at its place in each order. It takes no memory.
pub(crate) fn add(orders: &mut Orders, key: Key)
    requires sorted { AreOrders orders.old }
    requires room { length orders.old.by_time.items < orders.old.room }
    requires size { IsUnits key.value }
    requires apart { All (AreApart orders.old.span key) orders.old.by_time.items }
    ensures sorted { AreOrders orders.new }
    ensures added { IsAdded key orders.old.by_time.items orders.new.by_time.items }
    ensures in_place { StayInPlace orders.old orders.new }
    ensures kept { window_of orders.new ≡ record (window_of orders.old) { keys = orders.new.by_time.items } }
{
    let max_line = rate_line(orders.max, orders.decimals);
    let min_line = rate_line(orders.min, orders.decimals);
    put(&mut orders.by_time, ticks_line(), key);
    put(&mut orders.by_max, max_line, key);
    put(&mut orders.by_min, min_line, key);
}

/// Takes the key out that has this time, if there is one.
pub(crate) fn remove(orders: &mut Orders, ticks: i64) -> Option<Key>
    requires { AreOrders orders.old }
    ensures sorted { AreOrders orders.new }
    ensures time { IfSome result (λ key. key.ticks ≡ ticks) }
    ensures taken { IfSome result (λ key. IsAdded key orders.new.by_time.items orders.old.by_time.items) }
    ensures none { IfNone result (All (λ key. key.ticks ≢ ticks) orders.old.by_time.items) }
    ensures left { IfNone result (orders.new.by_time.items ≡ orders.old.by_time.items) }
    ensures in_place { StayInPlace orders.old orders.new }
    ensures kept { window_of orders.new ≡ record (window_of orders.old) { keys = orders.new.by_time.items } }
{
    let key = take_at(&mut orders.by_time, ticks)?;
    let max_line = rate_line(orders.max, orders.decimals);
    let min_line = rate_line(orders.min, orders.decimals);
    take(&mut orders.by_max, max_line, key);
    take(&mut orders.by_min, min_line, key);
    Some(key)
}
