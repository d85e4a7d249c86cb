//! The cells of the table.
use rule_keys::{Absent, Choice, Chosen, Key, Kind, words_of};
use std::fmt::{self, Display, Formatter, Write};

/// What may stand at a key, in a word.
pub fn kind_name(kind: Kind) -> &'static str {
    match kind {
        Kind::Whole { .. } => "whole",
        Kind::Value | Kind::Amount => "value",
        Kind::Rate => "rate",
        Kind::Span => "span",
        Kind::Moment => "moment",
        Kind::Name => "name",
        Kind::Word(_) => "choice",
    }
}

/// What is taken where a key is absent, and nothing where it must be there.
#[derive(Clone, Copy)]
pub struct Default(pub Key);

impl Display for Default {
    fn fmt<W: Write>(&self, f: &mut Formatter<W>) -> fmt::Result {
        let Default(key) = self;
        match (key.absent, key.kind) {
            (Absent::Refused, _) => Ok(()),
            (Absent::Nothing, _) => f.write_str("none"),
            (Absent::Chosen(chosen), Kind::Word(choice)) => write_word(f, word_of(choice, chosen)),
            (Absent::Chosen(_), _) => Ok(()),
            (Absent::Number(number), Kind::Value) => write!(f, "{number} units"),
            (Absent::Number(number), Kind::Moment) => write!(f, "{number} ticks"),
            (Absent::Number(number), _) => write!(f, "{number}"),
        }
    }
}

/// The limits of what may stand at a key, where they are its own.
#[derive(Clone, Copy)]
pub struct Limits(pub Kind);

impl Display for Limits {
    fn fmt<W: Write>(&self, f: &mut Formatter<W>) -> fmt::Result {
        match self.0 {
            Kind::Whole { least, most } => write!(f, "{least} to {most}"),
            Kind::Amount => f.write_str("0 or more"),
            Kind::Word(choice) => {
                for (i, word) in words_of(choice).iter().enumerate() {
                    if i > 0 {
                        f.write_str(", ")?;
                    }
                    write_word(f, word.text)?;
                }
                Ok(())
            }
            _ => Ok(()),
        }
    }
}

/// The word that means this, among those that may be chosen.
fn word_of(choice: Choice, chosen: Chosen) -> &'static str {
    for word in words_of(choice) {
        if word.means == chosen {
            return word.text;
        }
    }
    ""
}

/// A word as Markdown, in a cell of a table.
fn write_word<W: Write>(f: &mut Formatter<W>, word: &str) -> fmt::Result {
    match word {
        "\t" => f.write_str("tab"),
        "|" => f.write_str("vertical bar"),
        word => write!(f, "`{word}`"),
    }
}
