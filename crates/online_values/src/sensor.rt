//! The repair of a sensor, one reading after the other.
ghost use Rattle.std.specs.Prelude.{◌≡◌, ◌*◌, ◌^◌, ◌≤◌, ◌↔◌, ◌+ℤ◌, ◌≤ℤ◌, ◌<ℤ◌, IsTrue, unsigned_abs};
ghost use Rattle.rule_file.specs.Limits.{IsUnits};
ghost use Rattle.window_median.specs.LocalCost.{clamped};
ghost use Rattle.online_values.specs.Sensor.{IsTimeWithin};

use fix_point::{Step, Steps};
use order_window::{Key, OrderWindow};
use rule_file::SpeedRule;
use std::alloc::{AllocError, Global};
use std::marker::Model;

/// The repair of a sensor under a speed rule: the window of the readings after the last one that was repaired, and its
/// result. All memory is taken when it is made.
#[derive(Drop)]
pub struct SensorRepair {
    window: OrderWindow,
    steps: Steps,
    span: i64,
    last: Option<Key>,
}

impl Model for SensorRepair {
    ghost use Rattle.online_values.specs.Sensor.{SensorView, sensor_view, KeepsSensor};

    ghost Value = { SensorView };

    ghost view = { λ s. sensor_view s.window s.last };

    ghost invariant = { λ s. KeepsSensor s.window s.steps s.span s.last };
}

impl SensorRepair {
    ghost use Rattle.std.specs.Prelude.{◌≡◌, ◌≢◌, ◌<◌, ◌≤◌, ◌<ℤ◌, ◌↔◌, [], ◌∷◌, ◌++◌, List, All, IfOk, IfSome, IsTrue, length, Some, None};
    ghost use Rattle.rule_file.specs.Limits.{AreInReach, IsUnits};
    ghost use Rattle.order_window.specs.declared.key.Key.{Key};
    ghost use Rattle.order_window.specs.Window.{AreApart, IsAfter};
    ghost use Rattle.online_values.specs.Results.{clamped_after, median_before};
    ghost use Rattle.online_values.specs.Sensor.{HasStep, speed_of, window_in};

    /// No reading was repaired, and no key is in the window, which has room for so many; in units of 10^-d. Fails only
    /// where memory runs out.
    pub fn new(
        alloc: Global,
        room: u32,
        rule: &SpeedRule,
        d: u32,
    ) -> Result<SensorRepair, AllocError>
        requires decimals { d ≤ 6 }
        requires reach { AreInReach d rule.now.min rule.now.max rule.now.window }
        ensures { IfOk result (λ sensor. sensor ≡ record { speed = speed_of rule.now d; keys = []; room = room; last = None }) }
    {
        Ok(SensorRepair {
            window: OrderWindow::with_room(alloc, room, rule, d)?,
            steps: Steps::new(rule.min, rule.max, d),
            span: rule.window,
            last: None,
        })
    }

    /// The window.
    pub fn window(&self) -> &OrderWindow
        ensures { result.now ≡ window_in self.now }
    {
        &self.window
    }

    /// Whether there is a whole step from a time to a later one, or that is beyond the window.
    pub fn has_step(&mut self, before: i64, now: i64) -> bool
        requires { before <ℤ now }
        ensures step { IsTrue result ↔ HasStep self.old.speed before now }
        ensures kept { self.new ≡ self.old }
    {
        match within(self.span, before, now) {
            Some(dt) => is_a_step(self.steps.step(dt)),
            None => true,
        }
    }

    /// The reading is the next one to be repaired: it leaves the window, if it is there.
    pub fn leave(&mut self, own: Key)
        ensures first { (others : List Key) → self.old.keys ≡ own ∷ others → self.new.keys ≡ others }
        ensures none { All (λ key. key.ticks ≢ own.ticks) self.old.keys → self.new.keys ≡ self.old.keys }
        ensures kept { self.new ≡ record self.old { keys = self.new.keys } }
    {
        let _ = self.window.remove(own.ticks);
    }

    /// A reading comes into the window, after all that are there.
    pub fn enter(&mut self, key: Key)
        requires room { length self.old.keys < self.old.room }
        requires size { IsUnits key.value }
        requires apart { All (AreApart self.old.speed.span key) self.old.keys }
        requires later { All (λ other. other.ticks <ℤ key.ticks) self.old.keys }
        ensures { self.new ≡ record self.old { keys = self.old.keys ++ key ∷ [] } }
    {
        self.window.insert(key);
    }

    /// The result for a reading of which the keys in the window are the successors.
    pub fn result(&mut self, own: Key) -> i64
        requires after { All (IsAfter self.old.speed.span own) self.old.keys }
        requires later { IfSome self.old.last (λ last. last.ticks <ℤ own.ticks) }
        ensures result { result ≡ clamped_after self.old.speed self.old.last own (median_before self.old.speed own self.old.keys) }
        ensures kept { self.new ≡ self.old }
    {
        let median = self.window.median(own);
        let Some(last) = self.last else {
            return median;
        };
        match within(self.span, last.ticks, own.ticks) {
            Some(dt) => clamped_to(median, last.value, self.steps.step(dt)),
            None => median,
        }
    }

    /// This is the result for the last reading that was repaired.
    pub fn keep(&mut self, last: Key)
        requires { IsUnits last.value }
        ensures { self.new ≡ record self.old { last = Some last } }
    {
        self.last = Some(last);
    }
}

/// The ticks from one time to a later one, where they are no more than the window.
fn within(span: i64, before: i64, now: i64) -> Option<i64>
    requires { before <ℤ now }
    ensures { IsTimeWithin span before now result }
{
    let dt = now.checked_sub(before)?;
    if dt <= span { Some(dt) } else { None }
}

/// Whether the least step is no more than the greatest.
fn is_a_step(step: Step) -> bool
    ensures { IsTrue result ↔ step.least ≤ℤ step.greatest }
{
    step.least <= step.greatest
}

/// A number, clamped to what steps allow after another one.
fn clamped_to(number: i64, last: i64, step: Step) -> i64
    requires last { IsUnits last }
    requires least { unsigned_abs step.least ≤ 4 * 10 ^ 15 }
    requires greatest { unsigned_abs step.greatest ≤ 4 * 10 ^ 15 }
    ensures { result ≡ clamped (last +ℤ step.least) (last +ℤ step.greatest) number }
{
    let low = last + step.least;
    let high = last + step.greatest;
    low.max(number.min(high))
}
