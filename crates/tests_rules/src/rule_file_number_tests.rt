//! The numbers of rules, and the sensors in their order.

use crate::rule_file_tests::MIXED;
use rule_file::{NamedSensor, RuleAt, Rules, read_rules, rules_are_numbered};
use std::test::Fail;

/// One more rule between two sensors.
const ANOTHER: &str = "[[between]]
first = \"c\"
second = \"d\"
min = 0
max = 0
";

/// What kind a rule is of, and what tells it from others of the kind.
fn kind_and_mark(rule: &RuleAt<'_>) -> (&'static str, i64) {
    match rule {
        RuleAt::Speed(rule) => ("speed", rule.window),
        RuleAt::Swing(rule) => ("swing", rule.most),
        RuleAt::Drift(rule) => ("drift", rule.over),
        RuleAt::Range(rule) => ("range", rule.min),
        RuleAt::Trust(rule) => ("trust", rule.from),
        RuleAt::Weight(rule) => ("weight", i64::from(rule.weight)),
        RuleAt::Between(rule) => ("between", rule.max),
    }
}

/// The number and the name of a sensor.
fn number_and_name<'a>(sensor: NamedSensor<'a>) -> (u32, &'a [u8]) {
    (sensor.rule, sensor.name)
}

/// The number of the rule at a place in the list of sensors, and the name there.
fn sensor_at(rules: &Rules, place: u32) -> Option<(u32, &[u8])> {
    rules.sensor(place).map(number_and_name)
}

/// What the rules of all kinds and another one are, by their numbers: of no rule, of each, and of no rule again.
const KINDS: [Option<(&str, i64)>; 11] = [
    None,
    Some(("speed", 1_000_000_000)),
    Some(("speed", 1_000_000_000)),
    Some(("swing", 15)),
    Some(("drift", 60_000_000_000)),
    Some(("range", -1_000_000_000_000_000)),
    Some(("trust", 5_000_000_000)),
    Some(("weight", 3)),
    Some(("between", 0)),
    Some(("between", 10)),
    None,
];

/// The sensors of these rules, each with the number of its rule.
const NAMES: [(u32, &str); 11] = [
    (1, "a"),
    (2, "c"),
    (3, "b"),
    (4, "a"),
    (5, "b"),
    (6, "a"),
    (7, "a"),
    (8, "c"),
    (8, "d"),
    (9, "a"),
    (9, "b"),
];

/// The rules, the sensors and their places, by the numbers of the rules.
#[test]
fn rules_and_sensors_by_number(rt: HostRuntime) -> Result<(), Fail> {
    rules_are_numbered();
    let text = format!(in rt.alloc(); "{ANOTHER}{MIXED}")?;
    let rules = read_rules(rt.alloc(), text.as_bytes())?;
    for (number, row) in KINDS.iter().enumerate() {
        let found = rules.rule_at(number as u32);
        assert_eq!(rt; found.map(|rule| kind_and_mark(&rule)), *row, "{number}");
    }
    assert_eq!(rt; rules.sensor_count(), 11);
    for (place, (number, name)) in NAMES.iter().enumerate() {
        let found = sensor_at(&rules, place as u32);
        assert_eq!(rt; found, Some((*number, name.as_bytes())), "{place}");
    }
    assert_eq!(rt; sensor_at(&rules, 11), None);
    for (number, place) in [(1, 0), (7, 6), (8, 7), (9, 9)] {
        assert_eq!(rt; rules.sensor_index(number), Some(place), "{number}");
    }
    assert_eq!(rt;
        (rules.sensor_index(0), rules.sensor_index(10)),
        (None, None)
    );
    Ok(())
}
