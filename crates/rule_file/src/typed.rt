//! Rules from the entries of their tables.
ghost use Rattle.std.specs.Prelude.{◌≢◌, ◌≤ℤ◌, IfOk};
ghost use Rattle.rule_keys.specs.Entries.{Fit, number_at, name_at};
ghost use Rattle.rule_keys.specs.Keys.{keys_of};
ghost use Rattle.rule_file.specs.Meaning.{IsSpeed, IsSwing, IsDrift, IsRange, IsTrust, IsWeight, IsBetween};

use crate::name::name_from;
use crate::rate::{rate_from, small_number};
use crate::rules::{
    BetweenRule, DriftRule, RangeRule, SpeedRule, SwingRule, TrustRule, WeightRule,
};
use rule_keys::{Entries, KeyName, TableKind};
use std::alloc::{AllocError, Global};

#[tactic(auto, using(crate::proofs::Facts::speed_sensor, crate::proofs::Facts::speed_rates, crate::proofs::Facts::speed_window, crate::proofs::Facts::speed_price))]
pub(crate) fn speed_from(alloc: Global, entries: &Entries<'_>) -> Result<SpeedRule, AllocError>
    requires fit { Fit (keys_of TableKind.Speed) entries.now }
    requires rates { number_at KeyName.Min entries.now ≤ℤ number_at KeyName.Max entries.now }
    ensures { IfOk result (IsSpeed entries.now) }
{
    Ok(SpeedRule {
        sensor: name_from(alloc, entries, KeyName::Sensor)?,
        min: rate_from(entries, KeyName::Min),
        max: rate_from(entries, KeyName::Max),
        window: entries.number(KeyName::Window),
        price: small_number(entries, KeyName::Price),
    })
}

#[tactic(auto, using(crate::proofs::Facts::swing_sensor, crate::proofs::Facts::swing_most, crate::proofs::Facts::swing_window, crate::proofs::Facts::swing_price))]
pub(crate) fn swing_from(alloc: Global, entries: &Entries<'_>) -> Result<SwingRule, AllocError>
    requires fit { Fit (keys_of TableKind.Swing) entries.now }
    ensures { IfOk result (IsSwing entries.now) }
{
    Ok(SwingRule {
        sensor: name_from(alloc, entries, KeyName::Sensor)?,
        most: entries.number(KeyName::Most),
        window: entries.number(KeyName::Window),
        price: small_number(entries, KeyName::Price),
    })
}

#[tactic(auto, using(crate::proofs::Facts::drift_sensor, crate::proofs::Facts::drift_rates, crate::proofs::Facts::drift_price))]
pub(crate) fn drift_from(alloc: Global, entries: &Entries<'_>) -> Result<DriftRule, AllocError>
    requires fit { Fit (keys_of TableKind.Drift) entries.now }
    requires rates { number_at KeyName.Min entries.now ≤ℤ number_at KeyName.Max entries.now }
    requires times { number_at KeyName.Over entries.now ≤ℤ number_at KeyName.Window entries.now }
    ensures { IfOk result (IsDrift entries.now) }
{
    Ok(DriftRule {
        sensor: name_from(alloc, entries, KeyName::Sensor)?,
        min: rate_from(entries, KeyName::Min),
        max: rate_from(entries, KeyName::Max),
        over: entries.number(KeyName::Over),
        window: entries.number(KeyName::Window),
        price: small_number(entries, KeyName::Price),
    })
}

#[tactic(auto, using(crate::proofs::Facts::range_sensor, crate::proofs::Facts::range_price))]
pub(crate) fn range_from(alloc: Global, entries: &Entries<'_>) -> Result<RangeRule, AllocError>
    requires fit { Fit (keys_of TableKind.Range) entries.now }
    requires values { number_at KeyName.Min entries.now ≤ℤ number_at KeyName.Max entries.now }
    requires times { number_at KeyName.From entries.now ≤ℤ number_at KeyName.To entries.now }
    ensures { IfOk result (IsRange entries.now) }
{
    Ok(RangeRule {
        sensor: name_from(alloc, entries, KeyName::Sensor)?,
        min: entries.number(KeyName::Min),
        max: entries.number(KeyName::Max),
        from: entries.number(KeyName::From),
        to: entries.number(KeyName::To),
        price: small_number(entries, KeyName::Price),
    })
}

#[tactic(auto, using(crate::proofs::Facts::trust_sensor, crate::proofs::Facts::trust_from, crate::proofs::Facts::trust_to))]
pub(crate) fn trust_from(alloc: Global, entries: &Entries<'_>) -> Result<TrustRule, AllocError>
    requires fit { Fit (keys_of TableKind.Trust) entries.now }
    requires times { number_at KeyName.From entries.now ≤ℤ number_at KeyName.To entries.now }
    ensures { IfOk result (IsTrust entries.now) }
{
    Ok(TrustRule {
        sensor: name_from(alloc, entries, KeyName::Sensor)?,
        from: entries.number(KeyName::From),
        to: entries.number(KeyName::To),
    })
}

#[tactic(auto, using(crate::proofs::Facts::weight_sensor, crate::proofs::Facts::weight_weight, crate::proofs::Facts::weight_from, crate::proofs::Facts::weight_to))]
pub(crate) fn weight_from(alloc: Global, entries: &Entries<'_>) -> Result<WeightRule, AllocError>
    requires fit { Fit (keys_of TableKind.Weight) entries.now }
    requires times { number_at KeyName.From entries.now ≤ℤ number_at KeyName.To entries.now }
    ensures { IfOk result (IsWeight entries.now) }
{
    Ok(WeightRule {
        sensor: name_from(alloc, entries, KeyName::Sensor)?,
        weight: small_number(entries, KeyName::Weight),
        from: entries.number(KeyName::From),
        to: entries.number(KeyName::To),
    })
}

#[tactic(auto, using(crate::proofs::Facts::between_first, crate::proofs::Facts::between_second, crate::proofs::Facts::between_min, crate::proofs::Facts::between_max, crate::proofs::Facts::between_price))]
pub(crate) fn between_from(alloc: Global, entries: &Entries<'_>) -> Result<BetweenRule, AllocError>
    requires fit { Fit (keys_of TableKind.Between) entries.now }
    requires values { number_at KeyName.Min entries.now ≤ℤ number_at KeyName.Max entries.now }
    requires apart { name_at KeyName.First entries.now ≢ name_at KeyName.Second entries.now }
    ensures { IfOk result (IsBetween entries.now) }
{
    Ok(BetweenRule {
        first: name_from(alloc, entries, KeyName::First)?,
        second: name_from(alloc, entries, KeyName::Second)?,
        min: entries.number(KeyName::Min),
        max: entries.number(KeyName::Max),
        price: small_number(entries, KeyName::Price),
    })
}
