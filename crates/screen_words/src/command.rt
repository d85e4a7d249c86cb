//! The words of commands, and what each end of a command is.
ghost use Rattle.std.specs.Prelude.{◌≡◌, ◌≤◌, length, IfSome, IfNone};
ghost use Rattle.std.specs.Str.Parse.{AllDigits, digits_value};
ghost use Rattle.screen_words.specs.Command.{command_of, file_command, number_of, roles_of, sample_command, sample_of, stream_command, texts};

use crate::ends::{EndUse, Roles};
use sample_maker::{MOST_ROWS, MOST_SEED};

/// The most digits of a number among the words.
const MOST_DIGITS: usize = 9;

/// What the program is asked to do.
#[derive(Clone, Copy, Debug, PartialEq, Eq)]
pub enum Command {
    /// `global RULES READINGS CERT`: write the repaired readings, with a certificate.
    Global,
    /// `check RULES READINGS CERT`: tell whether the certificate is accepted.
    Check,
    /// `online RULES`: repair the readings as they come on standard input.
    Online,
    /// `report RULES READINGS CERT`: tell what an accepted certificate says, for a reader.
    Report,
    /// `sample ROWS SEED`: repair readings that are made from a number, and sum the repair up.
    Sample {
        /// How many rows it has, 1 to 20,000.
        rows: u32,
        /// The number, 0 to 999,999,999.
        seed: u32,
    },
}

/// The command that the words ask for, and `None` where they ask for none. The words do
/// not hold the program's name.
pub fn command_from(words: &[String]) -> Option<Command>
    ensures { result ≡ command_of (texts words.now) }
{
    match words {
        [name, _, _, _] => file_command(name.as_str()),
        [name, _] => stream_command(name.as_str()),
        [name, rows, seed] => sample_command(name.as_str(), rows.as_str(), seed.as_str()),
        _ => None,
    }
}

/// The command of this name that takes rules, readings and a certificate.
fn file_command(name: &str) -> Option<Command>
    ensures { result ≡ file_command name.now }
{
    if name == "global" {
        return Some(Command::Global);
    }
    if name == "check" {
        return Some(Command::Check);
    }
    if name == "report" {
        return Some(Command::Report);
    }
    None
}

/// The command of this name that takes rules alone.
fn stream_command(name: &str) -> Option<Command>
    ensures { result ≡ stream_command name.now }
{
    if name == "online" {
        return Some(Command::Online);
    }
    None
}

/// The command of this name that takes a number of rows and the number that they are made from.
fn sample_command(name: &str, rows: &str, seed: &str) -> Option<Command>
    ensures { result ≡ sample_command name.now rows.now seed.now }
{
    if name == "sample" {
        return sample_from(number_from(rows), number_from(seed));
    }
    None
}

/// The sample of so many rows that is made from a number, if both are there and within their limits.
fn sample_from(rows: Option<u32>, seed: Option<u32>) -> Option<Command>
    ensures { result ≡ sample_of rows seed }
{
    let rows = rows?;
    let seed = seed?;
    if rows >= 1 && rows <= MOST_ROWS && seed <= MOST_SEED {
        Some(Command::Sample { rows, seed })
    } else {
        None
    }
}

/// The number that a word writes, if it has one to nine digits and nothing else.
fn number_from(word: &str) -> Option<u32>
    ensures { result ≡ number_of word.now }
{
    let bytes = word.as_bytes();
    if bytes.is_empty() || bytes.len() > MOST_DIGITS {
        return None;
    }
    value_of(bytes)
}

/// The number that the bytes are in decimal digits, if they are digits.
fn value_of(word: &[u8]) -> Option<u32>
    requires { length word.now ≤ MOST_DIGITS }
    ensures found { IfSome result (λ value. AllDigits 10 word.now × (value ≡ digits_value 10 word.now)) }
    ensures none { IfNone result (¬ AllDigits 10 word.now) }
{
    let mut value: u32 = 0;
    for byte in word {
        if !byte.is_ascii_digit() {
            return None;
        }
        value = value * 10 + u32::from(*byte - b'0');
    }
    Some(value)
}

/// What each end is for the command that the words ask for. Every end is nothing where they ask for
/// none. It takes no memory.
pub fn roles(words: &[String]) -> Roles
    ensures { result ≡ roles_of (command_of (texts words.now)) }
{
    match command_from(words) {
        Some(Command::Global) => Roles {
            rules: EndUse::Word(1),
            readings: EndUse::Word(2),
            cert_read: EndUse::Nothing,
            cert_written: EndUse::Word(3),
            out: EndUse::Output,
        },
        Some(Command::Check | Command::Report) => Roles {
            rules: EndUse::Word(1),
            readings: EndUse::Word(2),
            cert_read: EndUse::Word(3),
            cert_written: EndUse::Nothing,
            out: EndUse::Output,
        },
        Some(Command::Online) => Roles {
            rules: EndUse::Word(1),
            readings: EndUse::Input,
            cert_read: EndUse::Nothing,
            cert_written: EndUse::Nothing,
            out: EndUse::Output,
        },
        Some(Command::Sample { .. }) => Roles {
            rules: EndUse::Nothing,
            readings: EndUse::Nothing,
            cert_read: EndUse::Nothing,
            cert_written: EndUse::Nothing,
            out: EndUse::Output,
        },
        None => Roles {
            rules: EndUse::Nothing,
            readings: EndUse::Nothing,
            cert_read: EndUse::Nothing,
            cert_written: EndUse::Nothing,
            out: EndUse::Nothing,
        },
    }
}
