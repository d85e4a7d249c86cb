//! Decimal numbers as ticks.
ghost use Rattle.std.specs.Prelude.{◌≤◌, IfOk, IfErr, IsErrOf};
ghost use Rattle.time_text.specs.Ticks.{IsNumber, NumberRefuses};

use crate::form::{MOST_TICKS, TimeFault};
use fix_point::{Extra, NumFault, scaled};

/// The ticks of a decimal number of units of 10^d ticks.
pub(crate) fn number_ticks(text: &[u8], d: u32) -> Result<i64, TimeFault>
    requires { d ≤ 9 }
    ensures accepted { IfOk result (IsNumber d text.now) }
    ensures refused { IfErr result (NumberRefuses d text.now) }
    ensures no_allocation { ¬ IsErrOf result TimeFault.Memory }
{
    match scaled(text, d, Extra::Refuse, MOST_TICKS) {
        Ok(ticks) => Ok(ticks),
        Err(NumFault::NotNumber) => Err(TimeFault::NotTime),
        Err(NumFault::TooFine) => Err(TimeFault::TimeTooFine),
        Err(NumFault::OutOfRange) => Err(TimeFault::TimeOutOfRange),
    }
}
