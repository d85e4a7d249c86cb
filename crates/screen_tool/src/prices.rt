//! Whether a rule has a price.
ghost use Rattle.std.specs.Prelude.{◌≡◌, nat_lt};
ghost use Rattle.std.specs.List.{list_any};
ghost use Rattle.rule_file.specs.declared.rules.BetweenRule.{BetweenRule};
ghost use Rattle.rule_file.specs.declared.rules.DriftRule.{DriftRule};
ghost use Rattle.rule_file.specs.declared.rules.RangeRule.{RangeRule};
ghost use Rattle.rule_file.specs.declared.rules.SpeedRule.{SpeedRule};
ghost use Rattle.rule_file.specs.declared.rules.SwingRule.{SwingRule};
ghost use Rattle.screen_tool.specs.Certificates.{has_price};

use rule_file::{BetweenRule, DriftRule, RangeRule, Rules, SpeedRule, SwingRule};

/// Whether some rule has a price. Trust and weight rules have none.
pub(crate) fn has_price(rules: &Rules) -> bool
    ensures { result ≡ has_price rules.now }
{
    let speeds = any_speed(rules.speeds.as_slice());
    let swings = any_swing(rules.swings.as_slice());
    let drifts = any_drift(rules.drifts.as_slice());
    let ranges = any_range(rules.ranges.as_slice());
    let betweens = any_between(rules.betweens.as_slice());
    speeds | swings | drifts | ranges | betweens
}

fn any_speed(rules: &[SpeedRule]) -> bool
    ensures { result ≡ list_any (λ (rule : SpeedRule). nat_lt 0 rule.price) rules.now }
{
    rules.iter().any(|rule| rule.price > 0)
}

fn any_swing(rules: &[SwingRule]) -> bool
    ensures { result ≡ list_any (λ (rule : SwingRule). nat_lt 0 rule.price) rules.now }
{
    rules.iter().any(|rule| rule.price > 0)
}

fn any_drift(rules: &[DriftRule]) -> bool
    ensures { result ≡ list_any (λ (rule : DriftRule). nat_lt 0 rule.price) rules.now }
{
    rules.iter().any(|rule| rule.price > 0)
}

fn any_range(rules: &[RangeRule]) -> bool
    ensures { result ≡ list_any (λ (rule : RangeRule). nat_lt 0 rule.price) rules.now }
{
    rules.iter().any(|rule| rule.price > 0)
}

fn any_between(rules: &[BetweenRule]) -> bool
    ensures { result ≡ list_any (λ (rule : BetweenRule). nat_lt 0 rule.price) rules.now }
{
    rules.iter().any(|rule| rule.price > 0)
}
