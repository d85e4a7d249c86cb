//! Rule files: the bytes of a TOML text as the rules that they spell, or the first reason why they spell
//! none.
#![tactic(auto)]

mod answered;
mod document;
mod draft;
mod each;
mod fault;
mod format;
mod name;
mod numbers;
mod rate;
mod read;
mod rules;
mod tables;
mod typed;

pub use answered::an_answer;
pub use fault::{RuleCause, RuleFault};
pub use numbers::{NamedSensor, RuleAt, rules_are_numbered};
pub use read::{LONGEST, one_answer, read_rules};
pub use rules::{
    BetweenList, BetweenRule, DriftList, DriftRule, Format, MOST_RULES, Name, RangeList, RangeRule,
    Rules, SpeedList, SpeedRule, SwingList, SwingRule, TrustList, TrustRule, WeightList,
    WeightRule,
};
pub use tables::key_of;
