//! What stands at a key, read as a value of each kind.
ghost use Rattle.std.specs.Prelude.{◌≡◌, ◌*◌, ◌^◌, ◌≤◌};
ghost use Rattle.toml.specs.View.{view};
ghost use Rattle.rule_keys.specs.Seen.{meant, meant_number};
ghost use Rattle.rule_keys.specs.Values.{IsAtLeast, ReadsChosen, ReadsInteger, ReadsMoment, ReadsName, ReadsScaled, ReadsScaledText, ReadsScaledWhole, ReadsTime, ReadsValue, ReadsWhole, ReadsWithin, ReadsWord};

use crate::cause::KeyCause;
use crate::entries::Entry;
use crate::key::{Choice, Kind};
use crate::read::Scale;
use crate::texts::meaning_of;
use fix_point::{Extra, MOST_MILLIONTHS, MOST_SPAN, MOST_UNITS};
use itoa::Buffer;
use std::alloc::Global;
use time_text::{TimeForm, ticks, trimmed_text};
use toml::Value;

/// The decimals of a rate.
const RATE_DECIMALS: u32 = 6;

/// The decimals of a span in seconds.
const TICK_DECIMALS: u32 = 9;

/// What stands at a key of this kind.
pub(crate) fn read_value<'a>(
    alloc: Global,
    scale: Scale,
    kind: Kind,
    value: &'a Value,
) -> Result<Entry<'a>, KeyCause>
    requires { scale.decimals ≤ 6 }
    ensures { ReadsValue scale kind (view value.now) (meant result) }
{
    match kind {
        Kind::Whole { least, most } => numbered(whole(least, most, value)),
        Kind::Value => numbered(scaled(scale.decimals, MOST_UNITS as u64, value)),
        Kind::Amount => numbered(at_least(0, scaled(scale.decimals, MOST_UNITS as u64, value))),
        Kind::Rate => numbered(scaled(RATE_DECIMALS, MOST_MILLIONTHS, value)),
        Kind::Span => numbered(at_least(1, scaled(TICK_DECIMALS, MOST_SPAN, value))),
        Kind::Moment => numbered(moment(alloc, scale.form, value)),
        Kind::Name => name(value),
        Kind::Word(choice) => word(choice, value),
    }
}

/// The number as an entry.
fn numbered<'a>(number: Result<i64, KeyCause>) -> Result<Entry<'a>, KeyCause>
    ensures { meant result ≡ meant_number number }
{
    match number {
        Ok(number) => Ok(Entry::Number(number)),
        Err(cause) => Err(cause),
    }
}

/// A TOML integer within limits.
fn whole(least: u32, most: u32, value: &Value) -> Result<i64, KeyCause>
    ensures { ReadsWhole least most (view value.now) result }
{
    match value {
        Value::Integer(number) => within(i64::from(least), i64::from(most), *number),
        _ => Err(KeyCause::WrongKind),
    }
}

/// A number within limits.
fn within(least: i64, most: i64, number: i64) -> Result<i64, KeyCause>
    ensures { ReadsWithin least most number result }
{
    if least <= number && number <= most {
        Ok(number)
    } else {
        Err(KeyCause::OutOfLimit)
    }
}

/// The number, unless it is less than the least.
fn at_least(least: i64, number: Result<i64, KeyCause>) -> Result<i64, KeyCause>
    ensures { IsAtLeast least number result }
{
    match number {
        Ok(number) if number < least => Err(KeyCause::OutOfLimit),
        _ => number,
    }
}

/// Units of 10^-d: of a TOML integer, which is that many wholes, or of a number text.
fn scaled(d: u32, most: u64, value: &Value) -> Result<i64, KeyCause>
    requires decimals { d ≤ 9 }
    requires most { most ≤ 9 * 10 ^ 18 }
    ensures { ReadsScaled d most (view value.now) result }
{
    match value {
        Value::Integer(wholes) => scaled_whole(d, most, *wholes),
        Value::String(text) => scaled_text(d, most, text.as_bytes()),
        _ => Err(KeyCause::WrongKind),
    }
}

/// So many wholes as units of 10^-d.
fn scaled_whole(d: u32, most: u64, wholes: i64) -> Result<i64, KeyCause>
    requires decimals { d ≤ 9 }
    requires most { most ≤ 9 * 10 ^ 18 }
    ensures { ReadsScaledWhole d most wholes result }
{
    match wholes.checked_mul(10_i64.pow(d)) {
        Some(units) if units.unsigned_abs() <= most => Ok(units),
        _ => Err(KeyCause::BadNumber),
    }
}

/// The units of 10^-d of a number text.
fn scaled_text(d: u32, most: u64, text: &[u8]) -> Result<i64, KeyCause>
    requires decimals { d ≤ 9 }
    requires most { most ≤ 9 * 10 ^ 18 }
    ensures { ReadsScaledText d most text.now result }
{
    match fix_point::scaled(text, d, Extra::Refuse, most as i64) {
        Ok(units) => Ok(units),
        Err(_) => Err(KeyCause::BadNumber),
    }
}

/// The ticks of a time text, or of a TOML integer where times are numbers.
fn moment(alloc: Global, form: TimeForm, value: &Value) -> Result<i64, KeyCause>
    ensures { ReadsMoment form (view value.now) result }
{
    match value {
        Value::String(text) => time(alloc, form, text.as_bytes()),
        Value::Integer(number) => numeric_time(alloc, form, *number),
        _ => Err(KeyCause::WrongKind),
    }
}

/// The ticks of a TOML integer, where times are numbers.
fn numeric_time(alloc: Global, form: TimeForm, number: i64) -> Result<i64, KeyCause>
    ensures { ReadsInteger form number result }
{
    match form {
        TimeForm::Instant | TimeForm::Civil => Err(KeyCause::WrongKind),
        TimeForm::Sec | TimeForm::Milli | TimeForm::Micro | TimeForm::Nano => {
            let mut digits = Buffer::new();
            time(alloc, form, digits.format(number).as_bytes())
        }
    }
}

/// The ticks of a time text.
fn time(alloc: Global, form: TimeForm, text: &[u8]) -> Result<i64, KeyCause>
    ensures { ReadsTime form text.now result }
{
    match ticks(alloc, form, text) {
        Ok(ticks) => Ok(ticks),
        Err(_) => Err(KeyCause::BadNumber),
    }
}

/// What a word of a list means.
fn word<'a>(choice: Choice, value: &Value) -> Result<Entry<'a>, KeyCause>
    ensures { ReadsWord choice (view value.now) (meant result) }
{
    match value {
        Value::String(word) => chosen(choice, word.as_str()),
        _ => Err(KeyCause::WrongKind),
    }
}

/// What this word of a list means.
fn chosen<'a>(choice: Choice, word: &str) -> Result<Entry<'a>, KeyCause>
    ensures { ReadsChosen choice word.now (meant result) }
{
    match meaning_of(choice, word) {
        Some(chosen) => Ok(Entry::Chosen(chosen)),
        None => Err(KeyCause::OutOfLimit),
    }
}

/// A string without the blanks at its ends.
fn name(value: &Value) -> Result<Entry<'_>, KeyCause>
    ensures { ReadsName (view value.now) (meant result) }
{
    match value {
        Value::String(text) => Ok(Entry::Name(trimmed_text(text.as_bytes()))),
        _ => Err(KeyCause::WrongKind),
    }
}
