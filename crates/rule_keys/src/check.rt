//! What is looked at once all keys of a table are read.
ghost use Rattle.std.specs.Prelude.{◌≡◌, ◌≢◌, ◌*◌, ◌^◌, ◌≤◌, ◌↔◌, ◌≤ℤ◌, unsigned_abs, option_map, IsTrue, MatchOption};
ghost use Rattle.std.specs.List.{AllByRecursion};
ghost use Rattle.fix_point.specs.Rates.{IsInReach};
ghost use Rattle.rule_keys.specs.Table.{Fails, Passes, cause_of, rate_of};
ghost use Rattle.rule_keys.specs.Within.{HasSmallNumbers};

use crate::cause::KeyCause;
use crate::entries::Entries;
use crate::key::{Check, KeyName};
use fix_point::{MOST_MILLIONTHS, MOST_PER, MOST_REACH, MOST_SPAN};

/// The cause of the first check that does not pass.
pub(crate) fn check_all(d: u32, entries: &Entries, checks: &[Check]) -> Option<KeyCause>
    requires decimals { d ≤ 6 }
    requires within { AllByRecursion (HasSmallNumbers entries.now) checks.now }
    ensures { MatchOption result (AllByRecursion (Passes d entries.now) checks.now) (Fails d entries.now checks.now) }
{
    for check in checks {
        if !passes(d, entries, *check) {
            return Some(cause_of(*check));
        }
    }
    None
}

/// The cause to refuse a table where the check does not pass.
fn cause_of(check: Check) -> KeyCause
    ensures { result ≡ cause_of check }
{
    match check {
        Check::Order { .. } => KeyCause::Order,
        Check::Reach(_) => KeyCause::ReachTooLarge,
        Check::Differ(..) => KeyCause::SameSensor,
    }
}

/// Whether a check passes.
fn passes(d: u32, entries: &Entries, check: Check) -> bool
    requires decimals { d ≤ 6 }
    requires within { HasSmallNumbers entries.now check }
    ensures { IsTrue result ↔ Passes d entries.now check }
{
    match check {
        Check::Order { low, high } => is_in_order(entries.number(low), entries.number(high)),
        Check::Reach(rate) => reaches(
            d,
            entries.number(rate),
            entries.number(KeyName::Per),
            entries.number(KeyName::Window),
        ),
        Check::Differ(first, second) => differ(entries.name(first), entries.name(second)),
    }
}

/// Whether the first number is not above the second.
fn is_in_order(low: i64, high: i64) -> bool
    ensures { IsTrue result ↔ (low ≤ℤ high) }
{
    low <= high
}

/// Whether a rate of so many millionths for each `per` seconds allows at most 4·10^15 units of 10^-d within
/// the window.
fn reaches(d: u32, millionths: i64, per: i64, window: i64) -> bool
    requires decimals { d ≤ 6 }
    requires rate { unsigned_abs millionths ≤ MOST_MILLIONTHS }
    requires per { unsigned_abs per ≤ MOST_PER }
    requires window { unsigned_abs window ≤ MOST_SPAN }
    ensures { IsTrue result ↔ IsInReach d (rate_of millionths per) window }
{
    let reach = u128::from(millionths.unsigned_abs())
        * 10_u128.pow(d)
        * u128::from(window.unsigned_abs());
    reach <= MOST_REACH * u128::from(per.unsigned_abs())
}

/// Whether the names differ, or only one is there.
fn differ(first: Option<&[u8]>, second: Option<&[u8]>) -> bool
    ensures { IsTrue result ↔ (option_map (λ text. text.now) first.entry ≢ option_map (λ text. text.now) second.entry) }
{
    first != second
}
