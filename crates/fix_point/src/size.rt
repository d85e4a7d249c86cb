//! A mantissa and its tens as a whole number.
ghost use Rattle.std.specs.Prelude.{◌≡◌, ℕ, ◌+◌, ◌*◌, ◌/◌, ◌%◌, ◌<◌, ◌≤◌, ◌^◌, IfOk, IfErr, IfSome, IfNone};
ghost use Rattle.fix_point.specs.Sizes.{IsSize, IsTakenFor, RefusesSize};

use crate::number::Tens;
use crate::scale::{Extra, NumFault};

/// The tens from which on a mantissa divided by so many is below a half.
const ALL_TENS: u32 = 31;

/// A mantissa times 10^above over 10^below, as a whole number of at most this size.
pub(crate) fn size_of(mantissa: u128, tens: Tens, extra: Extra, most: u64) -> Result<u64, NumFault>
    requires mantissa { mantissa < 10 ^ 30 }
    requires most { most ≤ 9 * 10 ^ 18 }
    ensures accepted { IfOk result (λ size. IsSize extra (mantissa * 10 ^ tens.above) (10 ^ tens.below) most size) }
    ensures refused { IfErr result (RefusesSize extra (mantissa * 10 ^ tens.above) (10 ^ tens.below) most) }
{
    if tens.above >= tens.below {
        multiplied(mantissa, tens.above - tens.below, most).ok_or(NumFault::OutOfRange)
    } else {
        let Some(size) = divided(mantissa, tens.below - tens.above, extra) else {
            return Err(NumFault::TooFine);
        };
        if size > u128::from(most) {
            return Err(NumFault::OutOfRange);
        }
        Ok(size as u64)
    }
}

/// A mantissa times 10^tens, if that is at most so much.
fn multiplied(mantissa: u128, tens: u32, most: u64) -> Option<u64>
    requires { most ≤ 9 * 10 ^ 18 }
    ensures some { IfSome result (λ size. size ≡ mantissa * 10 ^ tens) }
    ensures small { IfSome result (λ size. size ≤ most) }
    ensures none { IfNone result (most < mantissa * 10 ^ tens) }
{
    if mantissa == 0 {
        return Some(0);
    }
    if mantissa > u128::from(most) {
        return None;
    }
    let mut size = mantissa as u64;
    let most_before = most / 10;
    for _done in 0..tens {
        if size > most_before {
            return None;
        }
        size *= 10;
    }
    Some(size)
}

/// A mantissa over 10^tens, as a whole number. There is none for a fraction that is refused.
fn divided(mantissa: u128, tens: u32, extra: Extra) -> Option<u128>
    requires mantissa { mantissa < 10 ^ 30 }
    requires tens { 0 < tens }
    ensures some { IfSome result (λ size. IsTakenFor extra mantissa (10 ^ tens) size) }
    ensures none { IfNone result (extra ≡ Extra.Refuse) }
    ensures fraction { IfNone result ((size : ℕ) → ¬ (size * 10 ^ tens ≡ mantissa)) }
{
    let power = 10u128.pow(tens.min(ALL_TENS));
    let (whole, left) = quotient(mantissa, power);
    match extra {
        Extra::Refuse if left != 0 => None,
        Extra::Round if left >= power - left => Some(whole + 1),
        _ => Some(whole),
    }
}

/// The quotient and the remainder, by a division of 64 bits where that is enough.
fn quotient(number: u128, by: u128) -> (u128, u128)
    requires { 0 < by }
    ensures whole { result.0 ≡ number / by }
    ensures left { result.1 ≡ number % by }
{
    match (u64::try_from(number), u64::try_from(by)) {
        (Ok(number), Ok(by)) => (u128::from(number / by), u128::from(number % by)),
        _ => (number / by, number % by),
    }
}
