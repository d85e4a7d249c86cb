//! The one description of all tables: the keys of each in the order in which they are looked at, what may
//! stand there, what is taken where a key is absent, and what is looked at in the end.
ghost use Rattle.std.specs.Prelude.{◌≡◌};
ghost use Rattle.rule_keys.specs.Keys.{checks_of, keys_of};

use crate::key::{Absent, Check, Choice, Chosen, Key, KeyName, Kind, TableKind};
use crate::limits::{MOST_DECIMALS, MOST_HOLD, MOST_PRICE, MOST_WEIGHT};
use fix_point::{Extra, MOST_PER, MOST_UNITS};
use time_text::{MOST_TICKS, TimeForm};

/// A key that must be there, or what is taken in its place.
macro_rules! key {
    ($name:ident, $kind:expr) => {
        key!($name, $kind, Absent::Refused)
    };
    ($name:ident, $kind:expr, $absent:expr) => {
        Key {
            name: KeyName::$name,
            kind: $kind,
            absent: $absent,
        }
    };
}

/// The number at `low` is not above the one at `high`.
macro_rules! order {
    ($low:ident, $high:ident) => {
        Check::Order {
            low: KeyName::$low,
            high: KeyName::$high,
        }
    };
}

/// A TOML integer within limits.
macro_rules! whole {
    ($least:expr, $most:expr) => {
        Kind::Whole {
            least: $least,
            most: $most,
        }
    };
}

/// The decimals of a value.
const DECIMALS: Key = key!(Decimals, whole!(0, MOST_DECIMALS));

/// The name of the time column, which is the first one where nothing is said.
const TIME: Key = key!(Time, Kind::Name, Absent::Nothing);

/// The form of times.
const FORM: Key = key!(
    Form,
    Kind::Word(Choice::Form),
    Absent::Chosen(Chosen::Form(TimeForm::Sec))
);

/// The byte between two fields.
const SEPARATOR: Key = key!(
    Separator,
    Kind::Word(Choice::Separator),
    Absent::Chosen(Chosen::Separator(b','))
);

/// What is done with extra decimals.
const EXTRA: Key = key!(
    Extra,
    Kind::Word(Choice::Extra),
    Absent::Chosen(Chosen::Extra(Extra::Refuse))
);

/// The rows that a repair of a stream may hold back.
const HOLD: Key = key!(Hold, whole!(1, MOST_HOLD), Absent::Number(4_096));

/// The column of the sensor.
const SENSOR: Key = key!(Sensor, Kind::Name);

/// The column of the first of two sensors.
const FIRST: Key = key!(First, Kind::Name);

/// The column of the second of two sensors.
const SECOND: Key = key!(Second, Kind::Name);

/// The least rate.
const MIN_RATE: Key = key!(Min, Kind::Rate);

/// The greatest rate.
const MAX_RATE: Key = key!(Max, Kind::Rate);

/// The seconds of a rate.
const PER: Key = key!(Per, whole!(1, MOST_PER), Absent::Number(1));

/// The least value: every value, where nothing is said.
const MIN_VALUE: Key = key!(Min, Kind::Value, Absent::Number(-MOST_UNITS));

/// The greatest value: every value, where nothing is said.
const MAX_VALUE: Key = key!(Max, Kind::Value, Absent::Number(MOST_UNITS));

/// The least difference of two sensors.
const MIN_DIFFERENCE: Key = key!(Min, Kind::Value);

/// The greatest difference of two sensors.
const MAX_DIFFERENCE: Key = key!(Max, Kind::Value);

/// The greatest change within the window.
const MOST: Key = key!(Most, Kind::Amount);

/// The shortest time that a rule speaks of.
const OVER: Key = key!(Over, Kind::Span);

/// The window.
const WINDOW: Key = key!(Window, Kind::Span);

/// The first tick that a rule speaks of.
const FROM: Key = key!(From, Kind::Moment, Absent::Number(-MOST_TICKS));

/// The last tick that a rule speaks of.
const TO: Key = key!(To, Kind::Moment, Absent::Number(MOST_TICKS));

/// How many times a change counts.
const WEIGHT: Key = key!(Weight, whole!(1, MOST_WEIGHT));

/// The price, which a rule may do without.
const PRICE: Key = key!(Price, whole!(1, MOST_PRICE), Absent::Nothing);

/// The keys of a table, in the order in which they are looked at.
pub fn keys_of(kind: TableKind) -> &'static [Key]
    ensures { result.now ≡ keys_of kind }
{
    match kind {
        TableKind::Format => &[DECIMALS, TIME, FORM, SEPARATOR, EXTRA, HOLD],
        TableKind::Speed => &[SENSOR, MIN_RATE, MAX_RATE, PER, WINDOW, PRICE],
        TableKind::Swing => &[SENSOR, MOST, WINDOW, PRICE],
        TableKind::Drift => &[SENSOR, MIN_RATE, MAX_RATE, PER, OVER, WINDOW, PRICE],
        TableKind::Range => &[SENSOR, MIN_VALUE, MAX_VALUE, FROM, TO, PRICE],
        TableKind::Trust => &[SENSOR, FROM, TO],
        TableKind::Weight => &[SENSOR, WEIGHT, FROM, TO],
        TableKind::Between => &[FIRST, SECOND, MIN_DIFFERENCE, MAX_DIFFERENCE, PRICE],
    }
}

/// What is looked at once the keys of a table are read, in this order.
pub(crate) fn checks_of(kind: TableKind) -> &'static [Check]
    ensures { result.now ≡ checks_of kind }
{
    match kind {
        TableKind::Format => &[],
        TableKind::Speed => &[
            order!(Min, Max),
            Check::Reach(KeyName::Min),
            Check::Reach(KeyName::Max),
        ],
        TableKind::Swing => &[],
        TableKind::Drift => &[
            order!(Min, Max),
            order!(Over, Window),
            Check::Reach(KeyName::Min),
            Check::Reach(KeyName::Max),
        ],
        TableKind::Range => &[order!(Min, Max), order!(From, To)],
        TableKind::Trust => &[order!(From, To)],
        TableKind::Weight => &[order!(From, To)],
        TableKind::Between => &[
            order!(Min, Max),
            Check::Differ(KeyName::First, KeyName::Second),
        ],
    }
}
