//! A sliding window of readings.
ghost use Rattle.std.specs.Prelude.{◌≡◌, ◌≢◌, ◌<◌, ◌≤◌, [], length, All, IfNone, IfOk, IfSome};
ghost use Rattle.rule_file.specs.Limits.{AreInReach, IsUnits};
ghost use Rattle.order_window.specs.Window.{AreApart, IsAdded, IsAfter, IsMedianOf};

use crate::key::Key;
use crate::orders::{Orders, add, no_keys, remove};
use crate::selection::median_of;
use rule_file::SpeedRule;
use std::alloc::{AllocError, Global};
use std::marker::Model;

/// A sliding window of readings of one sensor, with room for a number of them, under a speed rule.
///
/// Contracts see the keys in order of time, the room, and the rates, the decimals and the window of the rule.
///
/// All memory is taken when the window is made: 48 bytes for each key that there is room for.
#[derive(Drop)]
pub struct OrderWindow {
    orders: Orders,
}

impl Model for OrderWindow {
    ghost use Rattle.order_window.specs.Orders.{AreOrders, window_of};
    ghost use Rattle.order_window.specs.Window.{Window};

    ghost Value = { Window };

    ghost view = { λ window. window_of window.orders };

    ghost invariant = { λ window. AreOrders window.orders };
}

impl OrderWindow {
    /// A window without keys, with room for `room` of them, in units of 10^-d. Fails only where memory runs out.
    ///
    /// The rates of the rule reach no further within its window than rules of a file do.
    pub fn with_room(
        alloc: Global,
        room: u32,
        rule: &SpeedRule,
        d: u32,
    ) -> Result<OrderWindow, AllocError>
        requires decimals { d ≤ 6 }
        requires reach { AreInReach d rule.now.min rule.now.max rule.now.window }
        ensures { IfOk result (λ window. window ≡ record { keys = []; room = room; rates = record { min = rule.now.min; max = rule.now.max; decimals = d }; span = rule.now.window }) }
    {
        Ok(OrderWindow {
            orders: no_keys(alloc, room, rule.min, rule.max, d, rule.window)?,
        })
    }

    /// Adds a key. It takes no memory; its places are found in logarithmic time, and the keys after them are moved.
    pub fn insert(&mut self, key: Key)
        requires room { length self.old.keys < self.old.room }
        requires size { IsUnits key.value }
        requires apart { All (AreApart self.old.span key) self.old.keys }
        ensures added { IsAdded key self.old.keys self.new.keys }
        ensures kept { self.new ≡ record self.old { keys = self.new.keys } }
    {
        add(&mut self.orders, key);
    }

    /// Takes out the key that has this time, and gives it; there is none where no key has this time. It takes no memory;
    /// the places of the key are found in logarithmic time, and the keys after them are moved.
    pub fn remove(&mut self, ticks: i64) -> Option<Key>
        ensures time { IfSome result (λ key. key.ticks ≡ ticks) }
        ensures taken { IfSome result (λ key. IsAdded key self.new.keys self.old.keys) }
        ensures none { IfNone result (All (λ key. key.ticks ≢ ticks) self.old.keys) }
        ensures left { IfNone result (self.new.keys ≡ self.old.keys) }
        ensures kept { self.new ≡ record self.old { keys = self.new.keys } }
    {
        remove(&mut self.orders, ticks)
    }

    /// The median of the candidates of a reading that all keys follow within the window, in logarithmic time. It takes no
    /// memory.
    pub fn median(&self, own: Key) -> i64
        requires { All (IsAfter self.now.span own) self.now.keys }
        ensures { IsMedianOf self.now own result }
    {
        median_of(&self.orders, own)
    }

    /// The keys in order of time.
    pub fn keys(&self) -> &[Key]
        ensures { result.now ≡ self.now.keys }
    {
        self.orders.by_time.as_slice()
    }

    /// For how many keys there is room.
    pub fn room(&self) -> u32
        ensures { result ≡ self.now.room }
    {
        self.orders.room
    }

    /// The window of the rule, in ticks.
    pub fn span(&self) -> i64
        ensures { result ≡ self.now.span }
    {
        self.orders.span
    }
}
