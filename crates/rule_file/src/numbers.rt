//! The rules by their numbers, and the sensors in the order of these numbers.
ghost use Rattle.std.specs.Prelude.{◌≡◌, ◌+◌, Some, length, slice_get, if◌then◌else◌, MatchResult};
ghost use Rattle.rule_file.specs.Numbers.{AreNumbered, price_of, seen_rule};
ghost use Rattle.rule_file.specs.Single.{first_name};

use crate::rules::{
    BetweenRule, DriftRule, RangeRule, Rules, SpeedRule, SwingRule, TrustRule, WeightRule,
};
use rule_keys::TableKind;
use sequence::Sequence;

/// A rule of some kind.
#[derive(Clone, Copy)]
pub enum RuleAt<'a> {
    /// The readings of a sensor change only so fast.
    Speed(&'a SpeedRule),
    /// The readings of a sensor differ by only so much within a window.
    Swing(&'a SwingRule),
    /// The readings of a sensor change only so fast over a longer time.
    Drift(&'a DriftRule),
    /// The readings of a sensor stay within limits.
    Range(&'a RangeRule),
    /// The readings of a sensor are right.
    Trust(&'a TrustRule),
    /// The readings of a sensor count more than others.
    Weight(&'a WeightRule),
    /// The readings of two sensors in a row differ by only so much.
    Between(&'a BetweenRule),
}

impl<'a> RuleAt<'a> {
    /// What a unit beyond a bound of the rule costs: 1 to 1,000, and 0 where the rule has no price.
    pub fn price(&self) -> u32
        ensures { result ≡ price_of (seen_rule self.now) }
    {
        match self {
            RuleAt::Speed(rule) => rule.price,
            RuleAt::Swing(rule) => rule.price,
            RuleAt::Drift(rule) => rule.price,
            RuleAt::Range(rule) => rule.price,
            RuleAt::Trust(_) | RuleAt::Weight(_) => 0,
            RuleAt::Between(rule) => rule.price,
        }
    }
}

/// A sensor that a rule speaks of.
#[derive(Clone, Copy)]
pub struct NamedSensor<'a> {
    /// The number of the rule.
    pub rule: u32,
    /// The name of the sensor's column.
    pub name: &'a [u8],
}

impl Rules {
    ghost use Rattle.std.specs.Prelude.{◌≡◌, None, length, option_map, slice_get, MatchOption};
    ghost use Rattle.rule_file.specs.Numbers.{count_before, rule_of, seen_rule, seen_sensor, sensors, SensorsStandFrom};

    /// The rule of a number, counted from 1: the speed rules in the order of the file, then the swing, drift, range,
    /// trust, weight and between rules. `None` exactly where there is no such number. Takes constant time and no
    /// memory.
    pub fn rule_at(&self, number: u32) -> Option<RuleAt<'_>>
        ensures { option_map seen_rule result ≡ rule_of self.now number }
    {
        if number == 0 {
            return None;
        }
        let swing_place = match at(&self.speeds, number as usize - 1) {
            Ok(rule) => return Some(RuleAt::Speed(rule)),
            Err(past) => past,
        };
        let drift_place = match at(&self.swings, swing_place) {
            Ok(rule) => return Some(RuleAt::Swing(rule)),
            Err(past) => past,
        };
        let range_place = match at(&self.drifts, drift_place) {
            Ok(rule) => return Some(RuleAt::Drift(rule)),
            Err(past) => past,
        };
        let trust_place = match at(&self.ranges, range_place) {
            Ok(rule) => return Some(RuleAt::Range(rule)),
            Err(past) => past,
        };
        let weight_place = match at(&self.trusts, trust_place) {
            Ok(rule) => return Some(RuleAt::Trust(rule)),
            Err(past) => past,
        };
        match at(&self.weights, weight_place) {
            Ok(rule) => Some(RuleAt::Weight(rule)),
            Err(past) => self.betweens.get(past).map(RuleAt::Between),
        }
    }

    /// How many sensors `sensor` tells: one for each rule, and two for a rule between two sensors.
    pub fn sensor_count(&self) -> u32
        ensures { result ≡ length (sensors self.now) }
    {
        self.single_count() + 2 * self.betweens.len() as u32
    }

    /// The sensor at a place, counted from 0, among the sensors of all rules in the order of their numbers, of a
    /// rule between two sensors the first before the second. `None` exactly where there is no such place. Takes
    /// constant time and no memory.
    pub fn sensor(&self, i: u32) -> Option<NamedSensor<'_>>
        ensures { option_map seen_sensor result ≡ slice_get (sensors self.now) i }
    {
        let single = self.single_count();
        if i < single {
            let rule = self.rule_at(i + 1)?;
            return Some(NamedSensor {
                rule: i + 1,
                name: first_sensor(&rule),
            });
        }
        let past = i - single;
        let Some(rule) = self.betweens.get((past / 2) as usize) else {
            return None;
        };
        Some(NamedSensor {
            rule: single + past / 2 + 1,
            name: sensor_between(rule, past % 2 == 1),
        })
    }

    /// The place of the rule's sensor, or of its first sensor, among the sensors that `sensor` tells; the second
    /// sensor of a rule between two stands directly after it. `None` exactly where there is no such rule. Takes
    /// constant time and no memory.
    pub fn sensor_index(&self, number: u32) -> Option<u32>
        ensures { MatchOption result (rule_of self.now number ≡ None) (SensorsStandFrom self.now number) }
    {
        if number == 0 || number > self.count() {
            return None;
        }
        let place = number - 1;
        Some(place + place.saturating_sub(self.single_count()))
    }

    /// How many rules speak of one sensor each.
    fn single_count(&self) -> u32
        ensures { result ≡ count_before TableKind.Between self.now }
    {
        (self.speeds.len()
            + self.swings.len()
            + self.drifts.len()
            + self.ranges.len()
            + self.trusts.len()
            + self.weights.len()) as u32
    }
}

/// The element at a place, or how far the place is past the end.
fn at<T: Drop>(list: &Sequence<T>, place: usize) -> Result<&T, usize>
    ensures { MatchResult result (λ element. slice_get list.now place ≡ Some element.now) (λ past. place ≡ length list.now + past) }
{
    match list.get(place) {
        Some(element) => Ok(element),
        None => Err(place - list.len()),
    }
}

/// The name of the sensor of a rule, of a rule between two sensors that of the first.
fn first_sensor<'a>(rule: &RuleAt<'a>) -> &'a [u8]
    ensures { result.now ≡ first_name (seen_rule rule.now) }
{
    match rule {
        RuleAt::Speed(rule) => rule.sensor.bytes(),
        RuleAt::Swing(rule) => rule.sensor.bytes(),
        RuleAt::Drift(rule) => rule.sensor.bytes(),
        RuleAt::Range(rule) => rule.sensor.bytes(),
        RuleAt::Trust(rule) => rule.sensor.bytes(),
        RuleAt::Weight(rule) => rule.sensor.bytes(),
        RuleAt::Between(rule) => rule.first.bytes(),
    }
}

/// The name of the first or of the second sensor of a rule between two.
fn sensor_between(rule: &BetweenRule, second: bool) -> &[u8]
    ensures { result.now ≡ (if second then rule.now.second else rule.now.first) }
{
    if second {
        rule.second.bytes()
    } else {
        rule.first.bytes()
    }
}

/// The law of the numbers: speed rules in the order of the file, then swing, drift, range, trust, weight and between
/// rules.
pub fn rules_are_numbered()
    ensures { (rules : Rules) → AreNumbered rules }
{}
