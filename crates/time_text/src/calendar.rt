//! Calendar texts as ticks, read by `jiff`.
ghost use Rattle.std.specs.Prelude.{◌≡◌, ◌<◌, ◌≤◌, length, take, unsigned_abs, IfOk, IfErr, IsErrOf, Ok, Err, IsUtf8};
ghost use Rattle.time_text.specs.Calendar.{with_designator, IsInstant, IsNoInstant, IsCivil, IsNoCivil};
ghost use Rattle.time_text.specs.Ticks.{IsCalendar, CalendarRefuses};

use crate::form::{MOST_TICKS, TimeFault};
use jiff::Timestamp;
use jiff::civil::DateTime;
use std::str;

/// The most bytes of a calendar text.
pub const LONGEST: usize = 64;

/// Where the `T` stands between a date and a time: how many bytes are before it.
pub const DESIGNATOR: usize = 10;

/// The text as it is read, with other bytes after it.
fn designated(text: &[u8]) -> Result<[u8; LONGEST], TimeFault>
    ensures read { IfOk result (λ room. take (length text.now) room ≡ with_designator text.now) }
    ensures short { IfOk result (λ room. length text.now ≤ LONGEST) }
    ensures long { IfErr result (λ fault. LONGEST < length text.now) }
    ensures fault { IfErr result (λ fault. fault ≡ TimeFault.NotTime) }
{
    if text.len() > LONGEST {
        return Err(TimeFault::NotTime);
    }
    let mut room = [0; LONGEST];
    room[..text.len()].copy_from_slice(text);
    if text.get(DESIGNATOR) == Some(&b' ') {
        room[DESIGNATOR] = b'T';
    }
    Ok(room)
}

/// The bytes as text.
fn text_of(bytes: &[u8]) -> Result<&str, TimeFault>
    ensures same { IfOk result (λ text. text.now ≡ bytes.now) }
    ensures utf8 { IfOk result (λ text. IsUtf8 bytes.now) }
    ensures other { IfErr result (λ fault. ¬ IsUtf8 bytes.now) }
    ensures fault { IfErr result (λ fault. fault ≡ TimeFault.NotTime) }
{
    match str::from_utf8(bytes) {
        Ok(text) => Ok(text),
        Err(_) => Err(TimeFault::NotTime),
    }
}

/// The nanosecond of an instant.
fn instant(text: &str) -> Result<i128, TimeFault>
    ensures read { IfOk result (IsInstant text.now) }
    ensures refused { IfErr result (λ fault. IsNoInstant text.now) }
    ensures fault { IfErr result (λ fault. fault ≡ TimeFault.NotTime) }
{
    match text.parse::<Timestamp>() {
        Ok(timestamp) => Ok(timestamp.as_nanosecond()),
        Err(_) => Err(TimeFault::NotTime),
    }
}

/// The nanosecond of a date and a time of day in UTC.
fn civil(text: &str) -> Result<i128, TimeFault>
    ensures read { IfOk result (IsCivil text.now) }
    ensures refused { IfErr result (λ fault. IsNoCivil text.now) }
    ensures fault { IfErr result (λ fault. fault ≡ TimeFault.NotTime) }
{
    match text.parse::<DateTime>() {
        Ok(datetime) => Ok(datetime.to_plain().to_nanosecond()),
        Err(_) => Err(TimeFault::NotTime),
    }
}

/// The nanosecond as ticks.
fn in_range(nanosecond: i128) -> Result<i64, TimeFault>
    ensures same { IfOk result (λ ticks. ticks ≡ nanosecond) }
    ensures small { IfOk result (λ ticks. unsigned_abs nanosecond ≤ unsigned_abs MOST_TICKS) }
    ensures large { IfErr result (λ fault. unsigned_abs MOST_TICKS < unsigned_abs nanosecond) }
    ensures fault { IfErr result (λ fault. fault ≡ TimeFault.TimeOutOfRange) }
{
    let most = i128::from(MOST_TICKS);
    if nanosecond < -most || nanosecond > most {
        return Err(TimeFault::TimeOutOfRange);
    }
    Ok(nanosecond as i64)
}

/// The ticks of an instant.
pub(crate) fn instant_ticks(text: &[u8]) -> Result<i64, TimeFault>
    ensures accepted { IfOk result (IsCalendar IsInstant text.now) }
    ensures refused { IfErr result (CalendarRefuses IsInstant IsNoInstant text.now) }
    ensures no_allocation { ¬ IsErrOf result TimeFault.Memory }
{
    let room = designated(text)?;
    in_range(instant(text_of(&room[..text.len()])?)?)
}

/// The ticks of a date and a time of day in UTC.
pub(crate) fn civil_ticks(text: &[u8]) -> Result<i64, TimeFault>
    ensures accepted { IfOk result (IsCalendar IsCivil text.now) }
    ensures refused { IfErr result (CalendarRefuses IsCivil IsNoCivil text.now) }
    ensures no_allocation { ¬ IsErrOf result TimeFault.Memory }
{
    let room = designated(text)?;
    in_range(civil(text_of(&room[..text.len()])?)?)
}
