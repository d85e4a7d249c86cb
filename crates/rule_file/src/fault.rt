//! Why a rule file is refused, and the rule that is to blame.
ghost use Rattle.std.specs.Prelude.{◌≡◌};
ghost use Rattle.rule_file.specs.Fault.{cause_of_key, of_rule, of_the_file};

use rule_keys::KeyCause;
use thiserror::Error;

/// Why a rule file is refused.
#[derive(Clone, Copy, Debug, PartialEq, Eq, Error)]
pub enum RuleCause {
    /// The bytes are no TOML text.
    #[error("the rules are no TOML text")]
    Syntax,
    /// A table has a key that it may not have.
    #[error("a key is unknown")]
    UnknownKey,
    /// A table lacks a key that it must have.
    #[error("a key is missing")]
    MissingKey,
    /// What stands at a key is of another kind than it must be.
    #[error("an entry is of the wrong kind")]
    WrongKind,
    /// What stands at a key is no number or time in range, or a finer one than is kept.
    #[error("an entry is no number in range")]
    BadNumber,
    /// What should be the less of two is the greater.
    #[error("two entries are in the wrong order")]
    Order,
    /// A rate allows more than 4·10^15 units within the window.
    #[error("a rate reaches too far within the window")]
    ReachTooLarge,
    /// A number is beyond its limits, or a word is not in its list.
    #[error("an entry is beyond its limits")]
    OutOfLimit,
    /// There are more than 1,000 rules.
    #[error("there are more than 1,000 rules")]
    TooMany,
    /// Two sensors that must differ have the same name.
    #[error("both sensors are the same")]
    SameSensor,
    /// There are more than 1,048,576 bytes.
    #[error("the rule file is longer than 1,048,576 bytes")]
    FileTooLong,
    /// Memory ran out.
    #[error("memory ran out")]
    Memory,
}

impl RuleCause {
    /// Why a file is refused that has a table which is refused.
    pub(crate) fn of_key(cause: KeyCause) -> RuleCause
        ensures { result ≡ cause_of_key cause }
    {
        match cause {
            KeyCause::UnknownKey => RuleCause::UnknownKey,
            KeyCause::MissingKey => RuleCause::MissingKey,
            KeyCause::WrongKind => RuleCause::WrongKind,
            KeyCause::BadNumber => RuleCause::BadNumber,
            KeyCause::OutOfLimit => RuleCause::OutOfLimit,
            KeyCause::Order => RuleCause::Order,
            KeyCause::ReachTooLarge => RuleCause::ReachTooLarge,
            KeyCause::SameSensor => RuleCause::SameSensor,
        }
    }
}

/// A rule file that is refused.
#[derive(Clone, Copy, Debug, PartialEq, Eq, Error)]
#[error("rule {rule}: {cause}")]
pub struct RuleFault {
    /// Why.
    pub cause: RuleCause,
    /// The number of the rule that is to blame, and 0 where no numbered rule is.
    pub rule: u32,
}

impl RuleFault {
    /// A fault of no numbered rule.
    pub fn of_the_file(cause: RuleCause) -> RuleFault
        ensures { result ≡ of_the_file cause }
    {
        RuleFault { cause, rule: 0 }
    }

    /// The fault of a file of more than 1,048,576 bytes.
    pub fn too_long() -> RuleFault
        ensures { result ≡ of_the_file RuleCause.FileTooLong }
    {
        RuleFault::of_the_file(RuleCause::FileTooLong)
    }

    /// The fault of a file whose rule of this number is refused.
    pub(crate) fn of_rule(number: u32, cause: KeyCause) -> RuleFault
        ensures { result ≡ of_rule number cause }
    {
        RuleFault {
            cause: RuleCause::of_key(cause),
            rule: number,
        }
    }
}
