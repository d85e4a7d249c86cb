//! The rules that the online method repairs by.
ghost use Rattle.std.specs.Prelude.{◌≡◌, bytes_eq};
ghost use Rattle.online_repair.specs.NotOnline.{not_online};
ghost use Rattle.online_repair.specs.Named.{is_named};

use rule_file::{Rules, SpeedRule};

/// The number of the first rule that is no speed rule, or whose sensor a rule of a lower number names.
pub(crate) fn not_online(rules: &Rules) -> Option<u32>
    ensures { result ≡ not_online rules.now }
{
    let speeds = rules.speeds.as_slice();
    for i in 0..speeds.len() {
        if is_named(&speeds[..i], speeds[i].sensor.bytes()) {
            return Some(i as u32 + 1);
        }
    }
    if rules.count() as usize > speeds.len() {
        return Some(speeds.len() as u32 + 1);
    }
    None
}

/// Whether one of these rules names a sensor.
fn is_named(speeds: &[SpeedRule], sensor: &[u8]) -> bool
    ensures { result ≡ is_named sensor.now speeds.now }
{
    speeds.iter().any(|rule| names(rule, sensor))
}

/// Whether a rule names a sensor.
fn names(rule: &SpeedRule, sensor: &[u8]) -> bool
    ensures { result ≡ bytes_eq sensor.now rule.now.sensor }
{
    sensor == rule.sensor.bytes()
}
