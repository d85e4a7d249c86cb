//! Numbers as words, each with one spelling, and words at the front of some bytes.
ghost use Rattle.std.specs.Prelude.{◌≡◌, ◌<◌, ◌≤◌, ◌^◌, ℕ, ℤ, List, ◌∷◌, ◌++◌, length, decimal, IfSome, IfNone, IsSomeAnd};
ghost use Rattle.std.specs.Fmt.{signed_decimal};
ghost use Rattle.std.specs.Str.Parse.{AllDigits, digits_value};
ghost use Rattle.cert_format.specs.Fields.{Lacks, IsNumberThen};
ghost use Rattle.cert_format.specs.Line.{IsTotal, IsValue, IsAmount};

use crate::limits::{MOST_AMOUNT, TOTAL_DIGITS, VALUE_DIGITS};

/// The most digits of a number of 32 bits.
const INDEX_DIGITS: usize = 10;

/// The digits of the greatest amount.
const AMOUNT_DIGITS: usize = 16;

/// The bytes before the first such byte, and those after it.
pub(crate) fn split_at(bytes: &[u8], byte: u8) -> Option<(&[u8], &[u8])>
    ensures found { IfSome result (λ parts. (bytes.now ≡ parts.0.now ++ byte ∷ parts.1.now) × Lacks byte parts.0.now) }
    ensures none { IfNone result (Lacks byte bytes.now) }
{
    for (index, other) in bytes.iter().enumerate() {
        if *other == byte {
            return Some((&bytes[..index], &bytes[index + 1..]));
        }
    }
    None
}

/// The number that the bytes are in decimal digits, if they are digits.
fn value_of(word: &[u8]) -> Option<u128>
    requires { length word.now ≤ 30 }
    ensures found { IfSome result (λ value. AllDigits 10 word.now × (value ≡ digits_value 10 word.now)) }
    ensures none { IfNone result (¬ AllDigits 10 word.now) }
{
    let mut value: u128 = 0;
    for byte in word {
        if !byte.is_ascii_digit() {
            return None;
        }
        value = value * 10 + u128::from(*byte - b'0');
    }
    Some(value)
}

/// The number whose spelling the word is, if it has at most so many digits.
fn number_of(word: &[u8], most_digits: usize) -> Option<u128>
    requires some { 1 ≤ most_digits }
    requires few { most_digits ≤ 30 }
    ensures found { IfSome result (λ number. (number < 10 ^ most_digits) × (word.now ≡ decimal number)) }
    ensures only { (number : ℕ) → number < 10 ^ most_digits → word.now ≡ decimal number → IsSomeAnd result (λ found. found ≡ number) }
{
    if word.is_empty() || word.len() > most_digits || (word.len() > 1 && word[0] == b'0') {
        return None;
    }
    value_of(word)
}

/// The number that the bytes begin with, within these limits, and the bytes after the space that follows it.
pub(crate) fn number_then(bytes: &[u8], least: u32, most: u32) -> Option<(u32, &[u8])>
    ensures found { IfSome result (λ field. IsNumberThen least most bytes.now field.0 field.1.now) }
    ensures only { (number : ℕ) (rest : List ℕ) → IsNumberThen least most bytes.now number rest →
        IsSomeAnd result (λ field. (field.0 ≡ number) × (field.1.now ≡ rest)) }
{
    let (word, rest) = split_at(bytes, b' ')?;
    let number = number_of(word, INDEX_DIGITS)?;
    if number < u128::from(least) || u128::from(most) < number {
        return None;
    }
    Some((number as u32, rest))
}

/// The total that the word spells.
pub(crate) fn total_of(word: &[u8]) -> Option<i128>
    ensures found { IfSome result (λ total. IsTotal total × (word.now ≡ signed_decimal total)) }
    ensures only { (total : ℤ) → IsTotal total → word.now ≡ signed_decimal total → IsSomeAnd result (λ found. found ≡ total) }
{
    let number = number_of(word, TOTAL_DIGITS)?;
    Some(number as i128)
}

/// The amount that the word spells.
pub(crate) fn amount_of(word: &[u8]) -> Option<i64>
    ensures found { IfSome result (λ amount. IsAmount amount × (word.now ≡ signed_decimal amount)) }
    ensures only { (amount : ℤ) → IsAmount amount → word.now ≡ signed_decimal amount → IsSomeAnd result (λ found. found ≡ amount) }
{
    let number = number_of(word, AMOUNT_DIGITS)?;
    if number == 0 || (MOST_AMOUNT as u128) < number {
        return None;
    }
    Some(number as i64)
}

/// The value that the word spells, `-` before it where it is below 0.
pub(crate) fn value_spelled(word: &[u8]) -> Option<i64>
    ensures found { IfSome result (λ value. IsValue value × (word.now ≡ signed_decimal value)) }
    ensures only { (value : ℤ) → IsValue value → word.now ≡ signed_decimal value → IsSomeAnd result (λ found. found ≡ value) }
{
    let Some(digits) = word.strip_prefix(b"-") else {
        let size = number_of(word, VALUE_DIGITS)?;
        return Some(size as i64);
    };
    let size = number_of(digits, VALUE_DIGITS)?;
    if size == 0 {
        return None;
    }
    Some(-(size as i64))
}
