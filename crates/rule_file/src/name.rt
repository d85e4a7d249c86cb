//! Names of columns.
ghost use Rattle.std.specs.Prelude.{◌≡◌, Some, IsSome, IfOk};
ghost use Rattle.rule_keys.specs.Entries.{name_at};

use crate::rules::Name;
use rule_keys::{Entries, KeyName};
use sequence::Sequence;
use std::alloc::{AllocError, Global};

/// A copy of the name at a key.
pub(crate) fn name_from(
    alloc: Global,
    entries: &Entries<'_>,
    key: KeyName,
) -> Result<Name, AllocError>
    requires { IsSome (name_at key entries.now) }
    ensures { IfOk result (λ name. name_at key entries.now ≡ Some name) }
{
    Sequence::from_slice(alloc, entries.name(key).unwrap())
}

/// A copy of the name at a key, if there is one.
pub(crate) fn optional_name(
    alloc: Global,
    entries: &Entries<'_>,
    key: KeyName,
) -> Result<Option<Name>, AllocError>
    ensures { IfOk result (λ name. name_at key entries.now ≡ name) }
{
    match entries.name(key) {
        Some(text) => Ok(Some(Sequence::from_slice(alloc, text)?)),
        None => Ok(None),
    }
}
