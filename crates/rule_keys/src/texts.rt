//! The words of a rule file: its keys, and the choices.
ghost use Rattle.std.specs.Prelude.{◌≡◌, MatchOption, find, map};
ghost use Rattle.std.specs.Option.{option_copied};
ghost use Rattle.std.specs.Str.{bytes_eq};
ghost use Rattle.rule_keys.specs.Words.{Means, key_text, seen_word, words};

use crate::key::{Choice, Chosen, KeyName};
use fix_point::Extra;
use time_text::TimeForm;

/// The text of a key.
pub fn key_text(key: KeyName) -> &'static str
    ensures { result.now ≡ key_text key }
{
    match key {
        KeyName::Decimals => "decimals",
        KeyName::Time => "time",
        KeyName::Form => "form",
        KeyName::Separator => "separator",
        KeyName::Extra => "extra",
        KeyName::Hold => "hold",
        KeyName::Sensor => "sensor",
        KeyName::Min => "min",
        KeyName::Max => "max",
        KeyName::Per => "per",
        KeyName::Window => "window",
        KeyName::Most => "most",
        KeyName::Over => "over",
        KeyName::From => "from",
        KeyName::To => "to",
        KeyName::Weight => "weight",
        KeyName::First => "first",
        KeyName::Second => "second",
        KeyName::Price => "price",
    }
}

/// A word of a list, and what it means.
#[derive(Clone, Copy)]
pub struct Word {
    /// The word.
    pub text: &'static str,
    /// What it means.
    pub means: Chosen,
}

/// A word and its meaning.
macro_rules! word {
    ($text:expr, $means:expr) => {
        Word {
            text: $text,
            means: $means,
        }
    };
}

/// The words that may be chosen, each with what it means.
pub fn words_of(choice: Choice) -> &'static [Word]
    ensures { map seen_word result.now ≡ words choice }
{
    match choice {
        Choice::Form => &[
            word!("s", Chosen::Form(TimeForm::Sec)),
            word!("ms", Chosen::Form(TimeForm::Milli)),
            word!("us", Chosen::Form(TimeForm::Micro)),
            word!("ns", Chosen::Form(TimeForm::Nano)),
            word!("instant", Chosen::Form(TimeForm::Instant)),
            word!("civil", Chosen::Form(TimeForm::Civil)),
        ],
        Choice::Separator => &[
            word!(",", Chosen::Separator(b',')),
            word!(";", Chosen::Separator(b';')),
            word!("\t", Chosen::Separator(b'\t')),
            word!("|", Chosen::Separator(b'|')),
        ],
        Choice::Extra => &[
            word!("refuse", Chosen::Extra(Extra::Refuse)),
            word!("round", Chosen::Extra(Extra::Round)),
        ],
    }
}

/// What a word means, if it may be chosen.
pub(crate) fn meaning_of(choice: Choice, text: &str) -> Option<Chosen>
    ensures { MatchOption result ((chosen : Chosen) → ¬ Means (words choice) text.now chosen) (Means (words choice) text.now) }
{
    word_among(words_of(choice), text).map(|word| word.means)
}

/// The word of this text among some words.
fn word_among<'a>(words: &'a [Word], text: &str) -> Option<&'a Word>
    ensures { option_copied result ≡ find (λ word. bytes_eq word.text.now text.now) words.now }
{
    words.iter().find(|word| word.text == text)
}
