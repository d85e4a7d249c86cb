//! What describes the tables of a rule file.

use fix_point::Extra;
use time_text::TimeForm;

/// The tables of a rule file.
#[derive(Clone, Copy, Debug, PartialEq, Eq)]
pub enum TableKind {
    /// The format of the file of readings, and of the values in the rules.
    Format,
    /// The readings of a sensor change only so fast.
    Speed,
    /// The readings of a sensor differ by only so much within a window.
    Swing,
    /// The readings of a sensor change only so fast over a longer time.
    Drift,
    /// The readings of a sensor stay within limits.
    Range,
    /// The readings of a sensor are right.
    Trust,
    /// The readings of a sensor count more than others.
    Weight,
    /// The readings of two sensors in a row differ by only so much.
    Between,
}

/// The keys of all tables.
#[derive(Clone, Copy, Debug, PartialEq, Eq)]
pub enum KeyName {
    /// The decimals of a value.
    Decimals,
    /// The name of the time column.
    Time,
    /// The form of times.
    Form,
    /// The byte between two fields.
    Separator,
    /// What is done with extra decimals.
    Extra,
    /// The rows that a repair of a stream may hold back.
    Hold,
    /// The name of the sensor's column.
    Sensor,
    /// The least value, difference or rate.
    Min,
    /// The greatest value, difference or rate.
    Max,
    /// The seconds of a rate.
    Per,
    /// The longest time that a rule speaks of.
    Window,
    /// The greatest difference.
    Most,
    /// The shortest time that a rule speaks of.
    Over,
    /// The first time that a rule speaks of.
    From,
    /// The last time that a rule speaks of.
    To,
    /// How many times a change counts.
    Weight,
    /// The name of the first sensor's column.
    First,
    /// The name of the second sensor's column.
    Second,
    /// What a unit beyond a bound of a rule costs.
    Price,
}

/// A list of words of which one is chosen.
#[derive(Clone, Copy)]
pub enum Choice {
    /// The forms of time: `s`, `ms`, `us`, `ns`, `instant`, `civil`.
    Form,
    /// The separators of fields: comma, semicolon, tab, vertical bar.
    Separator,
    /// What is done with extra decimals: `refuse`, `round`.
    Extra,
}

/// What a word of a list means.
#[derive(Clone, Copy, PartialEq, Eq)]
pub enum Chosen {
    /// A form of time.
    Form(TimeForm),
    /// The byte between two fields.
    Separator(u8),
    /// What is done with extra decimals.
    Extra(Extra),
}

/// What may stand at a key.
#[derive(Clone, Copy)]
pub enum Kind {
    /// A TOML integer from `least` to `most`.
    Whole {
        /// The least that is allowed.
        least: u32,
        /// The greatest that is allowed.
        most: u32,
    },
    /// A TOML integer or a number text: units, at most 10^15 in size.
    Value,
    /// A value of 0 or more.
    Amount,
    /// A TOML integer or a number text: millionths, at most 10^15 in size.
    Rate,
    /// A TOML integer or a number text in seconds: 1 to 10^17 ticks.
    Span,
    /// A time text in the form of the file, or a TOML integer where that is a number: ticks, at most 9·10^18
    /// in size.
    Moment,
    /// A string, without the blanks at its ends.
    Name,
    /// A word of a list.
    Word(Choice),
}

/// What is taken where a key is absent.
#[derive(Clone, Copy)]
pub enum Absent {
    /// The table is refused: the key must be there.
    Refused,
    /// This number.
    Number(i64),
    /// What a word means.
    Chosen(Chosen),
    /// Nothing: the rule does without.
    Nothing,
}

/// A key of a table.
#[derive(Clone, Copy)]
pub struct Key {
    /// The key.
    pub name: KeyName,
    /// What may stand there.
    pub kind: Kind,
    /// What is taken where it is absent.
    pub absent: Absent,
}

/// What is looked at once all keys of a table are read.
#[derive(Clone, Copy)]
pub enum Check {
    /// The number at `low` is not above the one at `high`.
    Order {
        /// The key of the less.
        low: KeyName,
        /// The key of the greater.
        high: KeyName,
    },
    /// The rate at the key allows at most 4·10^15 units, for each `per` seconds, within the window.
    Reach(KeyName),
    /// The names at the two keys differ.
    Differ(KeyName, KeyName),
}
