//! Medians of values, and local costs.

ghost use Rattle.std.specs.Prelude.{◌↔◌, IsTrue, All};
ghost use Rattle.window_median.specs.LocalCost.{HasSteps};

use crate::texts::{at, numbers, text_of, told, told_number};
use case_file::{Answers, Settings};
use std::alloc::{AllocError, Global};
use window_median::{Near, local_cost, median_plain};

/// Medians and local costs.
pub struct Medians;

impl Answers for Medians {
    fn answer(
        &self,
        alloc: Global,
        settings: &Settings,
        key: &str,
        input: &[u8],
    ) -> Result<Vec<u8>, AllocError> {
        let list = numbers(alloc, text_of(input))?;
        match key {
            "median" => median(alloc, list),
            "cost" => cost(alloc, settings, at(list.as_slice(), 0)),
            _ => told(alloc, "no such key"),
        }
    }
}

/// The middle one of an odd number of values.
fn median(alloc: Global, values: Vec<i64>) -> Result<Vec<u8>, AllocError> {
    let mut values = values;
    if values.len() % 2 == 1 {
        told_number(alloc, Some(i128::from(median_plain(&mut values))))
    } else {
        told_number(alloc, None)
    }
}

/// Whether each least step is at most the greatest.
fn have_steps(near: &[Near]) -> bool
    ensures { IsTrue result ↔ All HasSteps near.now }
{
    near.iter()
        .all(|successor| successor.least <= successor.most)
}

/// The local cost, where the steps are in order and few.
fn cost_of(v: i64, own: i64, near: &[Near]) -> Option<i128> {
    if near.len() < 100 && have_steps(near) {
        Some(local_cost(v, own, near))
    } else {
        None
    }
}

/// The local cost of a value, where a reading has the value `own` and these successors.
fn cost(alloc: Global, settings: &Settings, v: i64) -> Result<Vec<u8>, AllocError> {
    let near = near_of(alloc, settings.text("near"))?;
    told_number(alloc, cost_of(v, settings.number("own"), near.as_slice()))
}

/// The successors of a text. They stand between commas: each a value, its least and its greatest step.
fn near_of(alloc: Global, text: &str) -> Result<Vec<Near>, AllocError> {
    let mut near = Vec::new(alloc);
    for item in text.split(',') {
        let numbers = numbers(alloc, item)?;
        let numbers = numbers.as_slice();
        if !numbers.is_empty() {
            near.push(Near {
                value: at(numbers, 0),
                least: at(numbers, 1),
                most: at(numbers, 2),
            })?;
        }
    }
    Ok(near)
}
