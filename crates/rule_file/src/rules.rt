//! The rules of a rule file. Each type keeps its limits.
ghost use Rattle.std.specs.Prelude.{◌≢◌, ◌≤◌, pos, ◌≤ℤ◌, All};
ghost use Rattle.rule_keys.specs.declared.limits.TheConstants.{MOST_PRICE, MOST_WEIGHT};
ghost use Rattle.rule_file.specs.declared.rules.TheConstants.{MOST_RULES};
ghost use Rattle.rule_file.specs.Limits.{AreRates, IsFormat, IsMoment, IsPeriod, IsSpan, IsUnits, AreInReach};
ghost use Rattle.rule_file.specs.Count.{count_of};

use fix_point::{Extra, Rate};
use sequence::Sequence;
use time_text::TimeForm;

/// The greatest number of rules.
pub const MOST_RULES: usize = 1_000;

/// The name of a column, as bytes; `read_rules` leaves out the blanks at its ends.
pub type Name = Sequence<u8>;

/// How the file of readings is written.
#[derive(Drop)]
pub struct Format {
    /// The decimals of a value, 0 to 6: a unit is 10^-decimals.
    pub decimals: u32,
    /// The name of the time column; the first column where there is none.
    pub time: Option<Name>,
    /// How times are written.
    pub form: TimeForm,
    /// The byte between two fields: a comma, a semicolon, a tab or a vertical bar.
    pub separator: u8,
    /// What is done with a reading that has more decimals.
    pub extra: Extra,
    /// How many rows a repair of a stream may hold back, 1 to 20,000.
    pub hold: u32,
    pub ghost limits: { IsFormat decimals separator hold },
}

/// The readings of a sensor change only so fast: of every two no further apart than the window, the later is
/// above the earlier by at least the least and at most the greatest rate times the time between them.
///
/// After the speed constraint of Song, Zhang, Wang and Yu (SCREEN, SIGMOD 2015).
#[derive(Drop)]
pub struct SpeedRule {
    /// The sensor's column.
    pub sensor: Name,
    /// The least rate.
    pub min: Rate,
    /// The greatest rate, for as many seconds.
    pub max: Rate,
    /// The window, in ticks: 1 to 10^17.
    pub window: i64,
    /// What a unit beyond a bound of the rule costs, 1 to 1,000; 0 where the rule has no price.
    pub price: u32,
    pub ghost rates: { AreRates min max },
    pub ghost span: { IsSpan window },
    pub ghost price_most: { price ≤ MOST_PRICE },
}

/// The readings of a sensor no further apart than the window differ by only so much.
#[derive(Drop)]
pub struct SwingRule {
    /// The sensor's column.
    pub sensor: Name,
    /// The greatest difference, in units: 0 to 10^15.
    pub most: i64,
    /// The window, in ticks: 1 to 10^17.
    pub window: i64,
    /// What a unit beyond a bound of the rule costs, 1 to 1,000; 0 where the rule has no price.
    pub price: u32,
    pub ghost least: { pos 0 ≤ℤ most },
    pub ghost size: { IsUnits most },
    pub ghost span: { IsSpan window },
    pub ghost price_most: { price ≤ MOST_PRICE },
}

/// The readings of a sensor change only so fast over times from `over` to `window`.
#[derive(Drop)]
pub struct DriftRule {
    /// The sensor's column.
    pub sensor: Name,
    /// The least rate.
    pub min: Rate,
    /// The greatest rate, for as many seconds.
    pub max: Rate,
    /// The shortest time that it speaks of, in ticks: 1 to the window.
    pub over: i64,
    /// The longest time that it speaks of, in ticks: at most 10^17.
    pub window: i64,
    /// What a unit beyond a bound of the rule costs, 1 to 1,000; 0 where the rule has no price.
    pub price: u32,
    pub ghost rates: { AreRates min max },
    pub ghost least: { pos 1 ≤ℤ over },
    pub ghost ordered: { over ≤ℤ window },
    pub ghost span: { IsSpan window },
    pub ghost price_most: { price ≤ MOST_PRICE },
}

/// The readings of a sensor lie within limits, from one time to another.
#[derive(Drop)]
pub struct RangeRule {
    /// The sensor's column.
    pub sensor: Name,
    /// The least value, in units, at most 10^15 in size.
    pub min: i64,
    /// The greatest value, in units, at most 10^15 in size.
    pub max: i64,
    /// The first tick that it speaks of, at most 9·10^18 in size.
    pub from: i64,
    /// The last tick that it speaks of, at most 9·10^18 in size.
    pub to: i64,
    /// What a unit beyond a bound of the rule costs, 1 to 1,000; 0 where the rule has no price.
    pub price: u32,
    pub ghost least: { IsUnits min },
    pub ghost most: { IsUnits max },
    pub ghost ordered: { min ≤ℤ max },
    pub ghost period: { IsPeriod from to },
    pub ghost price_most: { price ≤ MOST_PRICE },
}

/// The readings of a sensor are right, from one time to another.
#[derive(Drop)]
pub struct TrustRule {
    /// The sensor's column.
    pub sensor: Name,
    /// The first tick that it speaks of, at most 9·10^18 in size.
    pub from: i64,
    /// The last tick that it speaks of, at most 9·10^18 in size.
    pub to: i64,
    pub ghost period: { IsPeriod from to },
}

/// A change of the readings of a sensor counts so many times, from one time to another.
#[derive(Drop)]
pub struct WeightRule {
    /// The sensor's column.
    pub sensor: Name,
    /// The weight, 1 to 1,000.
    pub weight: u32,
    /// The first tick that it speaks of, at most 9·10^18 in size.
    pub from: i64,
    /// The last tick that it speaks of, at most 9·10^18 in size.
    pub to: i64,
    pub ghost least: { 1 ≤ weight },
    pub ghost most: { weight ≤ MOST_WEIGHT },
    pub ghost period: { IsPeriod from to },
}

/// In a row that has both, the reading of the second sensor is above that of the first by at least `min` and
/// at most `max`.
#[derive(Drop)]
pub struct BetweenRule {
    /// The column of the first sensor.
    pub first: Name,
    /// The column of the second sensor, which is another one.
    pub second: Name,
    /// The least difference, in units, at most 10^15 in size.
    pub min: i64,
    /// The greatest difference, in units, at most 10^15 in size.
    pub max: i64,
    /// What a unit beyond a bound of the rule costs, 1 to 1,000; 0 where the rule has no price.
    pub price: u32,
    pub ghost apart: { first ≢ second },
    pub ghost least: { IsUnits min },
    pub ghost most: { IsUnits max },
    pub ghost ordered: { min ≤ℤ max },
    pub ghost price_most: { price ≤ MOST_PRICE },
}

/// Speed rules in the order of the file.
pub type SpeedList = Sequence<SpeedRule>;
/// Swing rules in the order of the file.
pub type SwingList = Sequence<SwingRule>;
/// Drift rules in the order of the file.
pub type DriftList = Sequence<DriftRule>;
/// Range rules in the order of the file.
pub type RangeList = Sequence<RangeRule>;
/// Trust rules in the order of the file.
pub type TrustList = Sequence<TrustRule>;
/// Weight rules in the order of the file.
pub type WeightList = Sequence<WeightRule>;
/// Between rules in the order of the file.
pub type BetweenList = Sequence<BetweenRule>;

/// The rules of a rule file.
///
/// They are numbered from 1, kind after kind in the order of these fields, and within a kind in the order of
/// the file.
#[derive(Drop)]
pub struct Rules {
    /// How the file of readings is written.
    pub format: Format,
    pub speeds: SpeedList,
    pub swings: SwingList,
    pub drifts: DriftList,
    pub ranges: RangeList,
    pub trusts: TrustList,
    pub weights: WeightList,
    pub betweens: BetweenList,
    pub ghost few: { count_of speeds swings drifts ranges trusts weights betweens ≤ MOST_RULES },
    pub ghost speed_reach: { All (λ rule. AreInReach format.decimals rule.min rule.max rule.window) speeds },
    pub ghost drift_reach: { All (λ rule. AreInReach format.decimals rule.min rule.max rule.window) drifts },
}

impl Rules {
    ghost use Rattle.std.specs.Prelude.{◌≡◌};
    ghost use Rattle.rule_file.specs.Count.{count_of};

    /// The number of rules, at most 1,000. Takes no memory.
    pub fn count(&self) -> u32
        ensures { result ≡ count_of self.now.speeds self.now.swings self.now.drifts self.now.ranges self.now.trusts self.now.weights self.now.betweens }
    {
        (self.speeds.len()
            + self.swings.len()
            + self.drifts.len()
            + self.ranges.len()
            + self.trusts.len()
            + self.weights.len()
            + self.betweens.len()) as u32
    }
}
