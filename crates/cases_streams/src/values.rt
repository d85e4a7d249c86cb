//! The repair of a sensor.

ghost use Rattle.std.specs.Prelude.{◌≡◌, [], IfOk, IfSome, None};

use crate::rules::{Rule, is_in_reach, is_rate, is_span, rule_of};
use crate::texts::{at, numbers, text_of, told, told_number};
use case_file::{Answers, Settings};
use fix_point::Rate;
use online_values::SensorRepair;
use order_window::Key;
use rule_file::{Name, SpeedRule};
use std::alloc::{AllocError, Global};

/// Results for readings.
pub struct Values;

impl Answers for Values {
    fn answer(
        &self,
        alloc: Global,
        settings: &Settings,
        key: &str,
        input: &[u8],
    ) -> Result<Vec<u8>, AllocError> {
        let rule = rule_of(alloc, settings.text("rule"))?;
        let list = numbers(alloc, text_of(input))?;
        let own = Key {
            value: at(list.as_slice(), 0),
            ticks: at(list.as_slice(), 1),
        };
        let result = match key {
            "alone" => alone(alloc, rule, own)?,
            "after" => after(alloc, rule, settings.number("last"), own)?,
            _ => return told(alloc, "no such key"),
        };
        told_number(alloc, result.map(i128::from))
    }
}

/// The repair of a sensor under a rule, where a file may have this rule.
fn sensor_for(alloc: Global, case: Rule) -> Result<Option<SensorRepair>, AllocError>
    ensures keys { IfOk result (λ made. IfSome made (λ sensor. sensor.keys ≡ [])) }
    ensures last { IfOk result (λ made. IfSome made (λ sensor. sensor.last ≡ None)) }
    ensures room { IfOk result (λ made. IfSome made (λ sensor. sensor.room ≡ case.room)) }
    ensures span { IfOk result (λ made. IfSome made (λ sensor. sensor.speed.span ≡ case.window)) }
{
    let min = Rate {
        millionths: case.min,
        per: case.per,
    };
    let max = Rate {
        millionths: case.max,
        per: case.per,
    };
    if !is_rate(min) || !is_rate(max) || case.max < case.min {
        return Ok(None);
    }
    if case.decimals > 6 || !is_span(case.window) {
        return Ok(None);
    }
    if !is_in_reach(min, case.decimals, case.window)
        || !is_in_reach(max, case.decimals, case.window)
    {
        return Ok(None);
    }
    let rule = SpeedRule {
        sensor: Name::new(alloc),
        min,
        max,
        window: case.window,
        price: 0,
    };
    match SensorRepair::new(alloc, case.room, &rule, case.decimals) {
        Ok(sensor) => Ok(Some(sensor)),
        Err(fault) => Err(fault),
    }
}

/// The result for a reading alone, as the first one of its sensor.
fn alone(alloc: Global, rule: Rule, own: Key) -> Result<Option<i64>, AllocError> {
    match sensor_for(alloc, rule)? {
        Some(mut sensor) => Ok(Some(sensor.result(own))),
        None => Ok(None),
    }
}

/// The result for a reading after the result for another one at the time 0, with none after it.
fn after(alloc: Global, rule: Rule, last: i64, own: Key) -> Result<Option<i64>, AllocError> {
    match sensor_for(alloc, rule)? {
        Some(mut sensor) if last.unsigned_abs() <= 1_000 && 0 < own.ticks => {
            sensor.keep(Key {
                value: last,
                ticks: 0,
            });
            Ok(Some(sensor.result(own)))
        }
        _ => Ok(None),
    }
}
