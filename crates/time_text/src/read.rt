//! Time texts as ticks.
ghost use Rattle.std.specs.Prelude.{◌≡◌, ◌≤◌, ℕ, ℤ, List, Result, IfOk, IfErr, IsErrOf, unsigned_abs};
ghost use Rattle.time_text.specs.Ticks.{IsTrimmedTicks, RefusesTrimmed, Reads, Spells, Refuses};

use crate::calendar::{civil_ticks, instant_ticks};
use crate::form::{MOST_TICKS, TimeFault, TimeForm};
use crate::number::number_ticks;
use crate::trim::trimmed_text;
use std::alloc::Global;

/// The ticks of a time text: whole nanoseconds, at most 9 * 10^18 in size.
///
/// Spaces and tabs at both ends are left out first, in every form.
///
/// The numbers are those of [`fix_point::scaled`], of a unit of 10^9 ticks for [`TimeForm::Sec`], 10^6 for
/// [`TimeForm::Milli`], 10^3 for [`TimeForm::Micro`] and 1 for [`TimeForm::Nano`].
///
/// The other two are read by `jiff`, and a space in the place of the `T` between the date and the time is
/// read as the `T`. Their ticks are counted from 1970-01-01T00:00:00Z, with no leap seconds: the second 60 is
/// read as the second 59. An instant has to have its offset from UTC, or `Z`. A civil text may be a date
/// alone, which is its midnight; it may not end in `Z`, and of another offset only the date and the time are
/// taken.
///
/// # Errors
///
/// - [`TimeFault::NotTime`] if the text has no time in the form. A text of more than 64 bytes, and a calendar
///   text that is not UTF-8, has none.
/// - [`TimeFault::TimeTooFine`] if it is a number with a part of a tick.
/// - [`TimeFault::TimeOutOfRange`] if it is more than 9 * 10^18 ticks in size: outside of about 1684 to 2255,
///   where ticks are counted from 1970.
/// - [`TimeFault::Memory`] never, for now: nothing is allocated.
pub fn ticks(alloc: Global, form: TimeForm, text: &[u8]) -> Result<i64, TimeFault>
    ensures accepted { IfOk result (Spells form text.now) }
    ensures refused { IfErr result (Refuses form text.now) }
    ensures small { IfOk result (λ ticks. unsigned_abs ticks ≤ unsigned_abs MOST_TICKS) }
    ensures only { (answer : Result ℤ TimeFault) → Reads form text.now answer → result ≡ answer }
    ensures no_allocation { ¬ IsErrOf result TimeFault.Memory }
{
    let _ = alloc;
    // The law of `only`; it does nothing.
    one_answer();
    trimmed_ticks(form, trimmed_text(text))
}

/// A text has one answer only: one number of ticks, or one reason why it has none.
pub fn one_answer()
    ensures { (form : TimeForm) (text : List ℕ) (one other : Result ℤ TimeFault) → Reads form text one → Reads form text other → one ≡ other }
{
    fix_point::one_answer();
}

/// Every text has an answer: a number of ticks, or a reason why it has none.
pub fn an_answer()
    ensures { (form : TimeForm) (text : List ℕ) → (answer : Result ℤ TimeFault) × Reads form text answer }
{
    fix_point::an_answer();
}

/// The ticks of a text without blanks at its ends.
fn trimmed_ticks(form: TimeForm, text: &[u8]) -> Result<i64, TimeFault>
    ensures accepted { IfOk result (IsTrimmedTicks form text.now) }
    ensures refused { IfErr result (RefusesTrimmed form text.now) }
    ensures no_allocation { ¬ IsErrOf result TimeFault.Memory }
{
    match form {
        TimeForm::Sec => number_ticks(text, 9),
        TimeForm::Milli => number_ticks(text, 6),
        TimeForm::Micro => number_ticks(text, 3),
        TimeForm::Nano => number_ticks(text, 0),
        TimeForm::Instant => instant_ticks(text),
        TimeForm::Civil => civil_ticks(text),
    }
}
