//! Rates of change, and the whole steps that they allow.
ghost use Rattle.std.specs.Prelude.{◌≡◌, ◌↔◌, ℕ, ◌*◌, ◌^◌, ◌≤◌, ℤ, pos, neg_ℤ, ◌+ℤ◌, ◌*ℤ◌, ◌≤ℤ◌, unsigned_abs};
ghost use Rattle.fix_point.specs.declared.rate.Rate.{Rate};
ghost use Rattle.fix_point.specs.declared.rate.TheConstants.{MOST_MILLIONTHS, MOST_SPAN};
ghost use Rattle.fix_point.specs.Rates.{IsFloor, IsCeil, IsWithinReach, ceil_step, floor_step, opposite};

/// A rate of change: millionths of a whole in each `per` seconds.
#[derive(Clone, Copy, Debug, PartialEq, Eq)]
pub struct Rate {
    /// Millionths; at most `MOST_MILLIONTHS` in size in every use.
    pub millionths: i64,
    /// Seconds; 1 to `MOST_PER` in every use.
    pub per: u32,
}

/// The greatest size of a rate, in millionths: 10^15.
pub const MOST_MILLIONTHS: u64 = 1_000_000_000_000_000;

/// The greatest number of seconds of a rate.
pub const MOST_PER: u32 = 10_000_000;

/// The longest span in ticks: 10^17.
pub const MOST_SPAN: u64 = 100_000_000_000_000_000;

/// The greatest reach of a rate in a span, 4·10^15 units, in the units of a rate times ticks: 10^-15 of them.
pub const MOST_REACH: u128 = 4_000_000_000_000_000_000_000_000_000_000;

/// Parts in which a rate is counted: millionths of a whole, times the ticks of a second.
const PARTS: i128 = 1_000_000_000_000_000;

/// The greatest whole step of units of 10^-d in dt ticks of 10^-9 seconds that is at most the rate.
pub fn floor_rate(rate: Rate, d: u32, dt: i64) -> i64
    requires { IsWithinReach rate d dt }
    ensures floor { IsFloor rate d dt result }
    ensures small { unsigned_abs result ≤ 4 * 10 ^ 15 }
{
    let change = change_of(rate.millionths, d, dt);
    change.div_euclid(i128::from(rate.per) * PARTS) as i64
}

/// The least whole step of units of 10^-d in dt ticks of 10^-9 seconds that is at least the rate.
pub fn ceil_rate(rate: Rate, d: u32, dt: i64) -> i64
    requires { IsWithinReach rate d dt }
    ensures ceil { IsCeil rate d dt result }
    ensures small { unsigned_abs result ≤ 4 * 10 ^ 15 }
{
    let opposite = Rate {
        millionths: -rate.millionths,
        per: rate.per,
    };
    -floor_rate(opposite, d, dt)
}

/// Millionths of a whole as millionths of a unit, times ticks.
fn change_of(millionths: i64, d: u32, dt: i64) -> i128
    requires millionths { unsigned_abs millionths ≤ MOST_MILLIONTHS }
    requires decimals { d ≤ 6 }
    requires ticks { unsigned_abs dt ≤ MOST_SPAN }
    ensures { result ≡ (millionths *ℤ pos (10 ^ d)) *ℤ dt }
{
    i128::from(millionths) * 10i128.pow(d) * i128::from(dt)
}

/// A rate that reaches no further than it may in some ticks does so in any fewer ticks too.
pub fn reach_of_fewer_ticks()
    ensures { (rate : Rate) (d : ℕ) (window dt : ℤ) → IsWithinReach rate d window → pos 1 ≤ℤ dt → dt ≤ℤ window → IsWithinReach rate d dt }
{}

/// A rate has one greatest whole step only, and one least.
pub fn one_step()
    ensures floor { (rate : Rate) (d : ℕ) (dt one other : ℤ) → IsFloor rate d dt one → IsFloor rate d dt other → one ≡ other }
    ensures ceil { (rate : Rate) (d : ℕ) (dt one other : ℤ) → IsCeil rate d dt one → IsCeil rate d dt other → one ≡ other }
{}

/// Each rate has a greatest and a least whole step: the change in the ticks rounded down, and rounded up.
pub fn whole_steps()
    ensures floor { (rate : Rate) (d : ℕ) (dt : ℤ) → 1 ≤ rate.per → IsFloor rate d dt (floor_step rate d dt) }
    ensures ceil { (rate : Rate) (d : ℕ) (dt : ℤ) → 1 ≤ rate.per → IsCeil rate d dt (ceil_step rate d dt) }
{}

/// The least step of a rate is the greatest step of the opposite rate, turned.
pub fn least_is_greatest_turned()
    ensures { (rate : Rate) (d : ℕ) (dt step : ℤ) → IsCeil rate d dt (neg_ℤ step) ↔ IsFloor (opposite rate) d dt step }
{}

/// The greatest steps of a rate for some ticks and for some more ticks are together at most the greatest step
/// for all those ticks, and the least steps are together at least the least step for them all.
pub fn steps_add_up()
    ensures floors { (rate : Rate) (d : ℕ) (p q a b c : ℤ) → IsFloor rate d p a → IsFloor rate d q b → IsFloor rate d (p +ℤ q) c → (a +ℤ b) ≤ℤ c }
    ensures ceils { (rate : Rate) (d : ℕ) (p q a b c : ℤ) → IsCeil rate d p a → IsCeil rate d q b → IsCeil rate d (p +ℤ q) c → c ≤ℤ (a +ℤ b) }
{}
