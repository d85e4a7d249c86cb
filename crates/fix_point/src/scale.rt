//! Decimal texts as whole numbers of a unit.
ghost use Rattle.std.specs.Prelude.{◌≡◌, ◌*◌, ◌^◌, ◌<◌, ◌≤◌, ℕ, ℤ, pos, ◌≤ℤ◌, List, Result, IfOk, IfErr, unsigned_abs};
ghost use Rattle.fix_point.specs.Grammar.{Parts, IsNumberText};
ghost use Rattle.fix_point.specs.Scaled.{Reads, Spells, Refuses};
ghost use Rattle.fix_point.specs.PartsOf.{signed_by};

use crate::number::{Number, Tens, number_of};
use crate::size::size_of;
use thiserror::Error;

/// The greatest size of a number of units, 10^15.
pub const MOST_UNITS: i64 = 1_000_000_000_000_000;

/// What is done with a number that has more decimals than are kept.
#[derive(Clone, Copy, Debug, PartialEq, Eq)]
pub enum Extra {
    /// It is refused.
    Refuse,
    /// The nearest number is taken; of two that are as near, the one further from 0.
    Round,
}

/// Why a text is refused as a number.
#[derive(Clone, Copy, Debug, PartialEq, Eq, Error)]
pub enum NumFault {
    /// It is no number text.
    #[error("not a number")]
    NotNumber,
    /// It has more decimals than are kept.
    #[error("more decimals than are kept")]
    TooFine,
    /// It is too great in size.
    #[error("out of range")]
    OutOfRange,
}

/// The number of a text times 10^d, as a whole number: units of 10^-d, at most `most` in size.
///
/// A number text is: spaces and tabs; `+`, `-` or nothing; 1 to 30 digits, perhaps with one point before,
/// among or after them; perhaps `e` or `E`, a sign or none, and one to three digits; spaces and tabs. It
/// has at most 64 bytes. With `Extra::Round` the nearest whole number is taken, and of two that are as
/// near the one further from 0. It takes no memory.
///
/// # Errors
///
/// `NotNumber` for a text that is none; then `TooFine` for a number that is not whole, where such are
/// refused; then `OutOfRange`.
pub fn scaled(text: &[u8], d: u32, extra: Extra, most: i64) -> Result<i64, NumFault>
    requires decimals { d ≤ 9 }
    requires least { pos 0 ≤ℤ most }
    requires greatest { most ≤ℤ pos (9 * 10 ^ 18) }
    ensures accepted { IfOk result (Spells text.now d extra most) }
    ensures refused { IfErr result (Refuses text.now d extra most) }
    ensures small { IfOk result (λ value. unsigned_abs value ≤ unsigned_abs most) }
    ensures only { (answer : Result ℤ NumFault) → Reads text.now d extra most answer → result ≡ answer }
{
    // The law of `only`; it does nothing.
    one_answer();
    signed_size(text, d, extra, most)
}

/// What the text is read as.
fn signed_size(text: &[u8], d: u32, extra: Extra, most: i64) -> Result<i64, NumFault>
    requires decimals { d ≤ 9 }
    requires least { pos 0 ≤ℤ most }
    requires greatest { most ≤ℤ pos (9 * 10 ^ 18) }
    ensures accepted { IfOk result (Spells text.now d extra most) }
    ensures refused { IfErr result (Refuses text.now d extra most) }
{
    let Some(number) = number_of(text) else {
        return Err(NumFault::NotNumber);
    };
    let tens = Tens {
        above: d + number.tens.above,
        below: number.tens.below,
    };
    let size = size_of(number.mantissa, tens, extra, most.unsigned_abs())?;
    Ok(signed(number.negative, size))
}

/// The number of a text times 10^d, as a whole number of units: at most 10^15 in size.
///
/// # Errors
///
/// As `scaled`.
pub fn units(text: &[u8], d: u32, extra: Extra) -> Result<i64, NumFault>
    requires { d ≤ 9 }
    ensures accepted { IfOk result (Spells text.now d extra MOST_UNITS) }
    ensures refused { IfErr result (Refuses text.now d extra MOST_UNITS) }
    ensures small { IfOk result (λ value. unsigned_abs value ≤ unsigned_abs MOST_UNITS) }
    ensures only { (answer : Result ℤ NumFault) → Reads text.now d extra MOST_UNITS answer → result ≡ answer }
{
    scaled(text, d, extra, MOST_UNITS)
}

/// A text is a number in one way only.
pub fn one_value()
    ensures { (text : List ℕ) (one other : Parts) → IsNumberText text one → IsNumberText text other → one ≡ other }
{}

/// A text has one answer only: one value, or one refusal.
pub fn one_answer()
    ensures { (text : List ℕ) (d : ℕ) (extra : Extra) (most : ℤ) (one other : Result ℤ NumFault) → Reads text d extra most one → Reads text d extra most other → one ≡ other }
{}

/// Every text has an answer: a value, or a refusal.
pub fn an_answer()
    ensures { (text : List ℕ) (d : ℕ) (extra : Extra) (most : ℤ) → (answer : Result ℤ NumFault) × Reads text d extra most answer }
{}

/// A number of this size, below 0 where it is negative.
fn signed(negative: bool, size: u64) -> i64
    requires { size < 2 ^ 63 }
    ensures { result ≡ signed_by negative size }
{
    if negative {
        -(size as i64)
    } else {
        size as i64
    }
}
