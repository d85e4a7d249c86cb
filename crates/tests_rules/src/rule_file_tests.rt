//! Rule files and what is read from them.

use fix_point::Extra;
use rule_file::{Rules, read_rules};
use std::test::Fail;
use time_text::TimeForm;

/// 10^15, the greatest size of a value.
const MOST: i64 = 1_000_000_000_000_000;

/// 9*10^18, the greatest size of a tick.
const LAST: i64 = 9_000_000_000_000_000_000;

const BASE: &str = "[format]
decimals = 0
[[speed]]
sensor = \"x\"
min = -1
max = 1
per = 1
window = 10
";

const FUEL: &str = "[format]
decimals = 2
time = \"time\"
form = \"instant\"
[[speed]]
sensor = \"fuel\"
min = \"-0.05\"
max = \"0.05\"
window = 60
[[range]]
sensor = \"fuel\"
min = 0
max = 120
";

/// The example of `docs/FORMATS.md`.
const TANK: &str = "[format]
decimals = 3
time = \"when\"
form = \"instant\"

[[speed]]
sensor = \"level\"
min = \"-0.005\"
max = \"0.005\"
window = 120

[[range]]
sensor = \"level\"
min = 0
max = 4

# The sensor was calibrated in this hour.
[[trust]]
sensor = \"level\"
from = \"2026-05-01T09:00:00Z\"
to = \"2026-05-01T10:00:00Z\"
";

/// Rules of all kinds, in no order of their kinds.
pub(crate) const MIXED: &str = "[[between]]
first = \"a\"
second = \"b\"
min = -1
max = 1
[[weight]]
sensor = \"a\"
weight = 3
[[trust]]
sensor = \" a\t\"
from = 5
to = \"9\"
[[speed]]
sensor = \"a\"
min = 0
max = 1
window = 1
[[range]]
sensor = \"b\"
[[drift]]
sensor = \"a\"
min = -2
max = \"2\"
per = 3600
over = 60
window = 600
[[swing]]
sensor = \"b\"
most = \"1.5\"
window = 2
[[speed]]
sensor = \"c\"
min = 0
max = 1
window = 1
[format]
decimals = 1
separator = \";\"
extra = \"round\"
hold = 20000
";

/// The sensor, the rates and the window of a speed rule.
fn speed_at(rules: &Rules, place: usize) -> Option<(&[u8], i64, i64, u32, i64)> {
    let rule = rules.speeds.get(place)?;
    let (min, max) = (rule.min, rule.max);
    Some((
        rule.sensor.bytes(),
        min.millionths,
        max.millionths,
        min.per,
        rule.window,
    ))
}

/// The rates and the times of a drift rule.
fn drift_at(rules: &Rules, place: usize) -> Option<(i64, i64, u32, i64, i64)> {
    let rule = rules.drifts.get(place)?;
    let (min, max) = (rule.min, rule.max);
    Some((
        min.millionths,
        max.millionths,
        max.per,
        rule.over,
        rule.window,
    ))
}

/// The sensor, the values and the period of a range rule.
fn range_at(rules: &Rules, place: usize) -> Option<(&[u8], i64, i64, i64, i64)> {
    let rule = rules.ranges.get(place)?;
    Some((rule.sensor.bytes(), rule.min, rule.max, rule.from, rule.to))
}

/// The sensor and the period of a trust rule.
fn trust_at(rules: &Rules, place: usize) -> Option<(&[u8], i64, i64)> {
    let rule = rules.trusts.get(place)?;
    Some((rule.sensor.bytes(), rule.from, rule.to))
}

/// The weight and the period of a weight rule.
fn weight_at(rules: &Rules, place: usize) -> Option<(u32, i64, i64)> {
    let rule = rules.weights.get(place)?;
    Some((rule.weight, rule.from, rule.to))
}

/// The sensors and the limits of a between rule.
fn between_at(rules: &Rules, place: usize) -> Option<(&[u8], &[u8], i64, i64)> {
    let rule = rules.betweens.get(place)?;
    Some((rule.first.bytes(), rule.second.bytes(), rule.min, rule.max))
}

/// A file of one rule.
#[test]
fn a_speed_rule(rt: HostRuntime) -> Result<(), Fail> {
    let rules = read_rules(rt.alloc(), BASE.as_bytes())?;
    let speed = (b"x".as_slice(), -1_000_000, 1_000_000, 1, 10_000_000_000);
    assert_eq!(rt; speed_at(&rules, 0), Some(speed));
    assert_eq!(rt; rules.count(), 1);
    let format = &rules.format;
    assert!(rt; format.time.is_none() && format.form == TimeForm::Sec);
    assert_eq!(rt;
        (format.separator, format.extra, format.hold),
        (b',', Extra::Refuse, 4096)
    );
    Ok(())
}

/// Values, rates and times as the format counts them.
#[test]
fn rules_of_a_fuel_tank(rt: HostRuntime) -> Result<(), Fail> {
    let rules = read_rules(rt.alloc(), FUEL.as_bytes())?;
    let speed = (b"fuel".as_slice(), -50_000, 50_000, 1, 60_000_000_000);
    assert_eq!(rt; speed_at(&rules, 0), Some(speed));
    assert_eq!(rt;
        range_at(&rules, 0),
        Some((b"fuel".as_slice(), 0, 12_000, -LAST, LAST))
    );
    let format = &rules.format;
    assert_eq!(rt; (format.decimals, format.form), (2, TimeForm::Instant));
    assert!(rt; matches!(&format.time, Some(name) if name.bytes() == b"time".as_slice()));
    Ok(())
}

/// The example of `docs/FORMATS.md`.
#[test]
fn rules_of_a_water_tank(rt: HostRuntime) -> Result<(), Fail> {
    let rules = read_rules(rt.alloc(), TANK.as_bytes())?;
    assert_eq!(rt; rules.count(), 3);
    assert_eq!(rt;
        (rules.speeds.len(), rules.ranges.len(), rules.trusts.len()),
        (1, 1, 1)
    );
    let level = b"level".as_slice();
    let speed = (level, -5_000, 5_000, 1, 120_000_000_000);
    assert_eq!(rt; speed_at(&rules, 0), Some(speed));
    assert_eq!(rt; range_at(&rules, 0), Some((level, 0, 4_000, -LAST, LAST)));
    // 1,777,626,000 seconds after 1970, and an hour later.
    let trust = (level, 1_777_626_000_000_000_000, 1_777_629_600_000_000_000);
    assert_eq!(rt; trust_at(&rules, 0), Some(trust));
    Ok(())
}

/// Rules of all kinds.
#[test]
fn rules_of_all_kinds(rt: HostRuntime) -> Result<(), Fail> {
    let rules = read_rules(rt.alloc(), MIXED.as_bytes())?;
    assert_eq!(rt; rules.count(), 8);
    let format = &rules.format;
    assert!(rt; format.time.is_none());
    assert_eq!(rt; (format.decimals, format.form), (1, TimeForm::Sec));
    assert_eq!(rt;
        (format.separator, format.extra, format.hold),
        (b';', Extra::Round, 20_000)
    );
    let second = (b"c".as_slice(), 0, 1_000_000, 1, 1_000_000_000);
    assert_eq!(rt; speed_at(&rules, 1), Some(second));
    let swing = rules.swings.get(0).map(|rule| (rule.most, rule.window));
    assert_eq!(rt; swing, Some((15, 2_000_000_000)));
    let drift = (-2_000_000, 2_000_000, 3600, 60_000_000_000, 600_000_000_000);
    assert_eq!(rt; drift_at(&rules, 0), Some(drift));
    assert_eq!(rt;
        range_at(&rules, 0),
        Some((b"b".as_slice(), -MOST, MOST, -LAST, LAST))
    );
    let trust = (b"a".as_slice(), 5_000_000_000, 9_000_000_000);
    assert_eq!(rt; trust_at(&rules, 0), Some(trust));
    assert_eq!(rt; weight_at(&rules, 0), Some((3, -LAST, LAST)));
    let between = (b"a".as_slice(), b"b".as_slice(), -10, 10);
    assert_eq!(rt; between_at(&rules, 0), Some(between));
    Ok(())
}
