//! The whole steps between two rates, where the time is mostly the same from one to the next.
ghost use Rattle.std.specs.Prelude.{◌≡◌, ◌*◌, ◌^◌, ◌≤◌, unsigned_abs};
ghost use Rattle.fix_point.specs.RateLimits.{AreSteps, AreWithinReach};

use crate::rate::{Rate, ceil_rate, floor_rate};
use std::marker::Model;

/// The least and the greatest whole step between two rates.
#[derive(Clone, Copy, Debug, PartialEq, Eq)]
pub struct Step {
    /// The least whole step that is at least the lower rate.
    pub least: i64,
    /// The greatest whole step that is at most the upper rate.
    pub greatest: i64,
}

/// A lower and an upper rate, for units of 10^-d. The steps that were asked for last are kept, since most rows
/// are as far apart as the two before.
#[derive(Drop)]
pub struct Steps {
    lower: Rate,
    upper: Rate,
    d: u32,
    /// The ticks that were asked for last, at first 0.
    dt: i64,
    /// The steps in these ticks.
    last: Step,
}

impl Model for Steps {
    ghost use Rattle.fix_point.specs.RateLimits.{RateLimits, AreSteps};

    ghost Value = { RateLimits };

    ghost view = { λ s. record { min = s.lower; max = s.upper; decimals = s.d } };

    ghost invariant = { λ s. AreSteps (record { min = s.lower; max = s.upper; decimals = s.d }) s.dt s.last.least s.last.greatest };
}

impl Steps {
    /// The steps between these rates.
    pub fn new(min: Rate, max: Rate, d: u32) -> Self
        requires min { 1 ≤ min.per }
        requires max { 1 ≤ max.per }
        ensures { result ≡ record { min = min; max = max; decimals = d } }
    {
        Steps {
            lower: min,
            upper: max,
            d,
            dt: 0,
            last: Step {
                least: 0,
                greatest: 0,
            },
        }
    }

    /// The least and the greatest whole step in dt ticks of 10^-9 seconds. It takes no memory.
    pub fn step(&mut self, dt: i64) -> Step
        requires { AreWithinReach self.old dt }
        ensures steps { AreSteps self.old dt result.least result.greatest }
        ensures least_small { unsigned_abs result.least ≤ 4 * 10 ^ 15 }
        ensures greatest_small { unsigned_abs result.greatest ≤ 4 * 10 ^ 15 }
        ensures rates { self.new ≡ self.old }
    {
        if dt == self.dt {
            return self.last;
        }
        let step = Step {
            least: ceil_rate(self.lower, self.d, dt),
            greatest: floor_rate(self.upper, self.d, dt),
        };
        self.dt = dt;
        self.last = step;
        step
    }
}
