//! The format of a rule file.
ghost use Rattle.std.specs.Prelude.{◌≡◌, IfOk};
ghost use Rattle.rule_keys.specs.Entries.{Fit};
ghost use Rattle.rule_keys.specs.Keys.{keys_of};
ghost use Rattle.rule_file.specs.Meaning.{IsFormatOf};

use crate::name::optional_name;
use crate::rate::small_number;
use crate::rules::Format;
use rule_keys::{Entries, KeyName, Scale, TableKind};
use std::alloc::{AllocError, Global};

/// The format that the entries of its table mean.
#[tactic(auto, using(crate::proofs::Facts::format_limits))]
pub(crate) fn format_from(alloc: Global, entries: &Entries<'_>) -> Result<Format, AllocError>
    requires { Fit (keys_of TableKind.Format) entries.now }
    ensures { IfOk result (IsFormatOf entries.now) }
{
    let time = optional_name(alloc, entries, KeyName::Time)?;
    Ok(Format {
        decimals: small_number(entries, KeyName::Decimals),
        time,
        form: entries.form(KeyName::Form).unwrap(),
        separator: entries.separator(KeyName::Separator).unwrap(),
        extra: entries.extra(KeyName::Extra).unwrap(),
        hold: small_number(entries, KeyName::Hold),
    })
}

/// What the values and times in the rules are counted in.
pub(crate) fn scale_of(format: &Format) -> Scale
    ensures decimals { result.decimals ≡ format.now.decimals }
    ensures form { result.form ≡ format.now.form }
{
    Scale {
        decimals: format.decimals,
        form: format.form,
    }
}
