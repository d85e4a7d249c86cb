//! A table of a rule file, read by the description of its keys.
ghost use Rattle.std.specs.Prelude.{◌≡◌, ◌≤◌, List, Result, length, string_bytes, IfOk, IfErr};
ghost use Rattle.std.specs.List.{list_all};
ghost use Rattle.std.specs.Map.{keys_of as keys_of_map};
ghost use Rattle.std.specs.Str.{bytes_eq};
ghost use Rattle.toml.specs.Data.{Members};
ghost use Rattle.toml.specs.View.{table_view};
ghost use Rattle.rule_keys.specs.declared.key.KeyName.{KeyName};
ghost use Rattle.rule_keys.specs.Entries.{Fit, Meaning};
ghost use Rattle.rule_keys.specs.Keys.{keys_of};
ghost use Rattle.rule_keys.specs.Known.{is_known};
ghost use Rattle.rule_keys.specs.Table.{Reads, ReadsAbsent, ReadsKey, ReadsKeys, Refuses, Spells};
ghost use Rattle.rule_keys.specs.Seen.{meant, seen_all};
ghost use Rattle.rule_keys.specs.Words.{key_text};

use crate::cause::KeyCause;
use crate::check::check_all;
use crate::entries::{Entries, Entry, Found, MOST_KEYS};
use crate::key::{Absent, Key, TableKind};
use crate::keys::{checks_of, keys_of};
use crate::texts::key_text;
use crate::value::read_value;
use arrayvec::ArrayVec;
use std::alloc::Global;
use time_text::TimeForm;
use toml::Table;

/// What the numbers and times in the rules are counted in.
#[derive(Clone, Copy)]
pub struct Scale {
    /// The decimals of a value: a unit is 10^-decimals.
    pub decimals: u32,
    /// The form of a time.
    pub form: TimeForm,
}

/// Reads a table of this kind, or answers the first cause to refuse it.
///
/// The keys of each kind, what may stand at them and what is taken where they are absent are those of
/// `keys_of` in `specs/Keys.antt`. A table of `TableKind::Format` is read the same under any scale. The
/// entries lend their names from the table. It takes no memory: the allocator is handed on to the reader of
/// times, which takes none either.
///
/// # Errors
///
/// The first cause in this order: `UnknownKey` for a key that the kind does not have; then key by key
/// `MissingKey`, `WrongKind`, `BadNumber`, `OutOfLimit`; then `Order`, `ReachTooLarge` and `SameSensor` for
/// the checks that the kind has.
pub fn read_table<'a>(
    alloc: Global,
    scale: Scale,
    kind: TableKind,
    table: &'a Table,
) -> Result<Entries<'a>, KeyCause>
    requires decimals { scale.decimals ≤ 6 }
    ensures accepted { IfOk result (Spells scale kind (table_view table.now)) }
    ensures refused { IfErr result (Refuses scale kind (table_view table.now)) }
    ensures only { (answer : Result (List (KeyName × Meaning)) KeyCause) → Reads scale kind (table_view table.now) answer → result ≡ answer }
    ensures fit { IfOk result (Fit (keys_of kind)) }
{
    // The law of the clause `only`; it does nothing.
    one_answer();
    table_entries(alloc, scale, kind, table)
}

/// What the table is read as.
fn table_entries<'a>(
    alloc: Global,
    scale: Scale,
    kind: TableKind,
    table: &'a Table,
) -> Result<Entries<'a>, KeyCause>
    requires decimals { scale.decimals ≤ 6 }
    ensures answer { Reads scale kind (table_view table.now) result }
    ensures fit { IfOk result (Fit (keys_of kind)) }
{
    let keys = keys_of(kind);
    if !has_only(keys, table) {
        return Err(KeyCause::UnknownKey);
    }
    let found = read_keys(alloc, scale, keys, table)?;
    let entries = Entries { found };
    match check_all(scale.decimals, &entries, checks_of(kind)) {
        Some(cause) => Err(cause),
        None => Ok(entries),
    }
}

/// A table has one answer only: its entries, or one cause to refuse it.
pub fn one_answer()
    ensures { (scale : Scale) (kind : TableKind) (given : Members) (one other : Result (List (KeyName × Meaning)) KeyCause) → Reads scale kind given one → Reads scale kind given other → one ≡ other }
{
    fix_point::one_answer();
    time_text::one_answer();
}

/// Every table has an answer: its entries, or a cause to refuse it.
pub fn an_answer(alloc: Global, scale: Scale, kind: TableKind, table: &Table)
    requires { scale.decimals ≤ 6 }
    ensures { (answer : Result (List (KeyName × Meaning)) KeyCause) × Reads scale kind (table_view table.now) answer }
{
    let _answer = table_entries(alloc, scale, kind, table);
}

/// Whether each key of the table is one of these.
fn has_only(keys: &[Key], table: &Table) -> bool
    ensures { result ≡ list_all (λ text. is_known keys.now (string_bytes text)) (keys_of_map table.now.entries) }
{
    table.keys().all(|text| has_key(keys, text.as_str()))
}

/// Whether the text is that of one of these keys.
fn has_key(keys: &[Key], text: &str) -> bool
    ensures { result ≡ is_known keys.now text.now }
{
    keys.iter().any(|key| is_key(*key, text))
}

/// Whether the text is that of this key.
fn is_key(key: Key, text: &str) -> bool
    ensures { result ≡ bytes_eq (key_text key.name) text.now }
{
    key_text(key.name) == text
}

/// Reads the keys of a table one after the other.
fn read_keys<'a>(
    alloc: Global,
    scale: Scale,
    keys: &[Key],
    table: &'a Table,
) -> Result<ArrayVec<Found<'a>, MOST_KEYS>, KeyCause>
    requires decimals { scale.decimals ≤ 6 }
    requires few { length keys.now ≤ MOST_KEYS }
    ensures { ReadsKeys scale (table_view table.now) keys.now (seen_all result) }
{
    let mut found = ArrayVec::new();
    for key in keys {
        let entry = read_key(alloc, scale, *key, table)?;
        found.push(Found {
            key: key.name,
            entry,
        });
    }
    Ok(found)
}

/// What stands at a key, or is taken in its place.
fn read_key<'a>(
    alloc: Global,
    scale: Scale,
    key: Key,
    table: &'a Table,
) -> Result<Entry<'a>, KeyCause>
    requires { scale.decimals ≤ 6 }
    ensures { ReadsKey scale (table_view table.now) key (meant result) }
{
    match table.get(key_text(key.name)) {
        Some(value) => read_value(alloc, scale, key.kind, value),
        None => absent_entry(key.absent),
    }
}

/// What is taken where a key is absent.
fn absent_entry<'a>(absent: Absent) -> Result<Entry<'a>, KeyCause>
    ensures { ReadsAbsent absent (meant result) }
{
    match absent {
        Absent::Refused => Err(KeyCause::MissingKey),
        Absent::Number(number) => Ok(Entry::Number(number)),
        Absent::Chosen(chosen) => Ok(Entry::Chosen(chosen)),
        Absent::Nothing => Ok(Entry::Nothing),
    }
}
