//! Rates and other numbers of rules.
ghost use Rattle.std.specs.Prelude.{◌≡◌, ◌^◌, ℤ, pos, ◌≤ℤ◌};
ghost use Rattle.rule_keys.specs.Entries.{number_at};
ghost use Rattle.rule_file.specs.Meaning.{IsRateAt};

use fix_point::Rate;
use rule_keys::{Entries, KeyName};

/// The number at a key that is small and not below 0.
pub(crate) fn small_number(entries: &Entries<'_>, key: KeyName) -> u32
    requires least { pos 0 ≤ℤ number_at key entries.now }
    requires most { number_at key entries.now ≤ℤ pos (10 ^ 7) }
    ensures { number_at key entries.now ≡ pos result }
{
    entries.number(key) as u32
}

/// The rate at a key.
pub(crate) fn rate_from(entries: &Entries<'_>, key: KeyName) -> Rate
    requires least { pos 0 ≤ℤ number_at KeyName.Per entries.now }
    requires most { number_at KeyName.Per entries.now ≤ℤ pos (10 ^ 7) }
    ensures { IsRateAt key entries.now result }
{
    Rate {
        millionths: entries.number(key),
        per: small_number(entries, KeyName::Per),
    }
}
