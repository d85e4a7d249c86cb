//! The cost of a chain of readings by the value of its last one, as a convex function of which the slope is kept.
//!
//! This is the slope trick: the values at which the slope changes lie in two heaps, those below the least cost and those above
//! it, and one addition shifts all of a heap. With one of the heaps alone it finds isotonic regressions, a problem of Ayer,
//! Brunk, Ewing, Reid and Silverman (An empirical distribution function for sampling with incomplete information, 1955), as
//! Rote does (Isotonic regression by dynamic programming, 2019).
use crate::keys::{Keys, pass};
use crate::links::FAR;
use std::alloc::{AllocError, Global};

/// No shift is greater.
const MOST_SHIFT: i64 = 1 << 61;

/// A convex cost over a range of values.
#[derive(Drop)]
pub(crate) struct Slope {
    /// Where the slope rises, below the least cost: at a key and the shift of the left ones.
    left: Keys,
    left_shift: i64,
    /// Where the slope rises, above the least cost: at the shift of the right ones less a key.
    right: Keys,
    right_shift: i64,
    /// The least value.
    least: i64,
    /// The most.
    most: i64,
}

impl Slope {
    /// Room for the cost of a chain of so many readings.
    pub(crate) fn for_readings(alloc: Global, count: u32) -> Result<Slope, AllocError> {
        let keys = 2 * count as usize;
        Ok(Slope {
            left: Keys::for_keys(alloc, keys)?,
            left_shift: 0,
            right: Keys::for_keys(alloc, keys)?,
            right_shift: 0,
            least: 0 - FAR,
            most: FAR,
        })
    }

    /// Lets nothing cost anything.
    pub(crate) fn clear(&mut self) {
        self.left.clear();
        self.left_shift = 0;
        self.right.clear();
        self.right_shift = 0;
        self.least = 0 - FAR;
        self.most = FAR;
    }

    /// The cost by the value of the next reading, which lies above the last one by at least and at most so much.
    pub(crate) fn step(&mut self, low: i64, high: i64) {
        self.left_shift = self.left_shift.saturating_add(low).max(0 - MOST_SHIFT);
        self.right_shift = self.right_shift.saturating_add(high).min(MOST_SHIFT);
        self.least = self.least.saturating_add(low).max(0 - FAR);
        self.most = self.most.saturating_add(high).min(FAR);
    }

    /// Takes away the values outside a range.
    pub(crate) fn clip(&mut self, least: i64, most: i64) {
        if most < self.most {
            self.most = most;
            self.left.cut(most.saturating_sub(self.left_shift));
        }
        if least > self.least {
            self.least = least;
            self.right.cut(self.right_shift.saturating_sub(least));
        }
        self.most = self.most.max(self.least);
    }

    /// Adds the distance to a value, times a weight.
    pub(crate) fn add_distance(&mut self, value: i64, weight: u64) {
        let both = weight.saturating_mul(2);
        if value < self.lowest() {
            self.tilt_up(value, both, weight);
        } else if value > self.highest() {
            self.tilt_down(value, both, weight);
        } else {
            self.left
                .push(value.saturating_sub(self.left_shift), weight);
            self.right
                .push(self.right_shift.saturating_sub(value), weight);
        }
    }

    /// Adds by how much the value lies above another one, times a weight.
    pub(crate) fn add_above(&mut self, value: i64, weight: u64) {
        if value >= self.most {
            return;
        }
        if value >= self.highest() {
            self.right
                .push(self.right_shift.saturating_sub(value), weight);
        } else {
            self.tilt_up(value, weight, weight);
        }
    }

    /// Adds by how much the value lies below another one, times a weight.
    pub(crate) fn add_below(&mut self, value: i64, weight: u64) {
        if value <= self.least {
            return;
        }
        if value <= self.lowest() {
            self.left
                .push(value.saturating_sub(self.left_shift), weight);
        } else {
            self.tilt_down(value, weight, weight);
        }
    }

    /// The least of the values that cost least.
    fn lowest(&self) -> i64 {
        match self.left.top() {
            Some(key) => key.at.saturating_add(self.left_shift).max(self.least),
            None => self.least,
        }
    }

    /// The greatest of the values that cost least.
    pub(crate) fn highest(&self) -> i64 {
        match self.right.top() {
            Some(key) => self.right_shift.saturating_sub(key.at).min(self.most),
            None => self.most,
        }
    }

    /// Raises the slope everywhere, and lowers it below a value, which lies below all that cost least.
    fn tilt_up(&mut self, value: i64, bend: u64, weight: u64) {
        if value > self.least {
            self.left.push(value.saturating_sub(self.left_shift), bend);
        }
        let gap = self.right_shift.saturating_sub(self.left_shift);
        let limit = self.least.saturating_sub(self.left_shift);
        pass(&mut self.left, &mut self.right, gap, limit, weight);
    }

    /// Lowers the slope everywhere, and raises it above a value, which lies above all that cost least.
    fn tilt_down(&mut self, value: i64, bend: u64, weight: u64) {
        if value < self.most {
            self.right
                .push(self.right_shift.saturating_sub(value), bend);
        }
        let gap = self.right_shift.saturating_sub(self.left_shift);
        let limit = self.right_shift.saturating_sub(self.most);
        pass(&mut self.right, &mut self.left, gap, limit, weight);
    }
}
