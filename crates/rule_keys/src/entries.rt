//! What was read from a table.
ghost use Rattle.std.specs.Prelude.{◌≡◌, option_map, map};
ghost use Rattle.rule_keys.specs.Entries.{is_same_key, meaning_at, number_at, name_at, form_at, separator_at, extra_at};
ghost use Rattle.rule_keys.specs.Seen.{meaning, seen};

use crate::key::{Chosen, KeyName};
use arrayvec::ArrayVec;
use fix_point::Extra;
use std::marker::Model;
use time_text::TimeForm;

/// The greatest number of keys of a table.
pub(crate) const MOST_KEYS: usize = 7;

/// What stands at a key, or is taken in its place.
#[derive(Clone, Copy)]
pub(crate) enum Entry<'a> {
    /// A number: what it counts is for the kind of the key to say.
    Number(i64),
    /// A name, without the blanks at its ends.
    Name(&'a [u8]),
    /// What a word means.
    Chosen(Chosen),
    /// Nothing.
    Nothing,
}

/// A key with what stands there.
#[derive(Clone, Copy)]
pub(crate) struct Found<'a> {
    /// The key.
    pub(crate) key: KeyName,
    /// What stands there.
    pub(crate) entry: Entry<'a>,
}

impl<'a> Default for Found<'a> {
    /// What fills a place that is not used.
    fn default() -> Self {
        Found {
            key: KeyName::Decimals,
            entry: Entry::Nothing,
        }
    }
}

/// What was read from a table, key by key. It lies in no memory of its own.
#[derive(Drop)]
pub struct Entries<'a> {
    /// The keys in the order in which they were looked at, each with what stands there.
    pub(crate) found: ArrayVec<Found<'a>, MOST_KEYS>,
}

impl<'a> Model for Entries<'a> {
    ghost use Rattle.std.specs.Prelude.{List, map};
    ghost use Rattle.rule_keys.specs.declared.key.KeyName.{KeyName};
    ghost use Rattle.rule_keys.specs.Entries.{Meaning};
    ghost use Rattle.rule_keys.specs.Seen.{seen};

    ghost Value = { List (KeyName × Meaning) };

    ghost view = { λ e. map seen e.found.items };
}

impl<'a> Entries<'a> {
    /// The number at a key, and 0 where none is: units, millionths, seconds or ticks, as the key's kind says.
    pub fn number(&self, key: KeyName) -> i64
        ensures { result ≡ number_at key self.now }
    {
        match entry_at(self.found.as_slice(), key) {
            Entry::Number(number) => number,
            Entry::Name(_) | Entry::Chosen(_) | Entry::Nothing => 0,
        }
    }

    /// The name at a key, without the blanks at its ends, and none where none is.
    pub fn name(&self, key: KeyName) -> Option<&'a [u8]>
        ensures { option_map (λ text. text.now) result ≡ name_at key self.now }
    {
        match entry_at(self.found.as_slice(), key) {
            Entry::Name(name) => Some(name),
            Entry::Number(_) | Entry::Chosen(_) | Entry::Nothing => None,
        }
    }

    /// The form of times at a key, and none where none is.
    pub fn form(&self, key: KeyName) -> Option<TimeForm>
        ensures { result ≡ form_at key self.now }
    {
        match entry_at(self.found.as_slice(), key) {
            Entry::Chosen(Chosen::Form(form)) => Some(form),
            Entry::Chosen(Chosen::Separator(_) | Chosen::Extra(_))
            | Entry::Number(_)
            | Entry::Name(_)
            | Entry::Nothing => None,
        }
    }

    /// The separator of fields at a key, and none where none is.
    pub fn separator(&self, key: KeyName) -> Option<u8>
        ensures { result ≡ separator_at key self.now }
    {
        match entry_at(self.found.as_slice(), key) {
            Entry::Chosen(Chosen::Separator(separator)) => Some(separator),
            Entry::Chosen(Chosen::Form(_) | Chosen::Extra(_))
            | Entry::Number(_)
            | Entry::Name(_)
            | Entry::Nothing => None,
        }
    }

    /// What is done with extra decimals, by the word at a key, and none where none is.
    pub fn extra(&self, key: KeyName) -> Option<Extra>
        ensures { result ≡ extra_at key self.now }
    {
        match entry_at(self.found.as_slice(), key) {
            Entry::Chosen(Chosen::Extra(extra)) => Some(extra),
            Entry::Chosen(Chosen::Form(_) | Chosen::Separator(_))
            | Entry::Number(_)
            | Entry::Name(_)
            | Entry::Nothing => None,
        }
    }
}

/// What was read at a key, and nothing where nothing was.
fn entry_at<'a>(found: &[Found<'a>], key: KeyName) -> Entry<'a>
    ensures { meaning result ≡ meaning_at key (map seen found.now) }
{
    for one in found {
        if is_same(key, one.key) {
            return one.entry;
        }
    }
    Entry::Nothing
}

/// Whether two keys are the same.
fn is_same(key: KeyName, other: KeyName) -> bool
    ensures { result ≡ is_same_key key other }
{
    key == other
}
