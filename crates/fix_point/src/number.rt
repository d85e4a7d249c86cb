//! A number text taken apart.
ghost use Rattle.std.specs.Prelude.{◌≡◌, ◌+◌, ◌<◌, ◌^◌, length, IfSome, IfNone, IsTrue, slice_index, ◌∷◌, if◌then◌else◌};
ghost use Rattle.std.specs.Char.{is_ascii_digit};
ghost use Rattle.std.specs.Str.Parse.{digits_value_after};
ghost use Rattle.fix_point.specs.Grammar.{is_blank, no_exponent, IsExponent, IsNumberText, fraction_digits};
ghost use Rattle.fix_point.specs.PartsOf.{front, after_front, sign_of, after_sign, is_minus, fraction_of, after_fraction, is_letter, exponent_of, after_exponent, parts_of, AreTensOf, IsNumberOf};

/// The most bytes of a number text.
pub const MOST_BYTES: usize = 64;

/// The most digits of a mantissa.
pub const MOST_DIGITS: usize = 30;

/// The most digits of an exponent.
pub const MOST_EXPONENT_DIGITS: usize = 3;

/// 10^29: a number from here on has all digits of a mantissa that there can be.
const FULL: u128 = 100_000_000_000_000_000_000_000_000_000;

/// The tens by which a number is multiplied, and those by which it is divided.
#[derive(Clone, Copy)]
pub(crate) struct Tens {
    pub(crate) above: u32,
    pub(crate) below: u32,
}

/// A number as it is written: its digits as one whole number, and the tens above and below it.
#[derive(Clone, Copy)]
pub(crate) struct Number {
    pub(crate) negative: bool,
    pub(crate) mantissa: u128,
    pub(crate) tens: Tens,
}

/// Digits at the front of some bytes.
#[derive(Clone, Copy)]
struct Digits<'a> {
    /// The number that they write.
    value: u128,
    /// How many they are.
    count: usize,
    /// The bytes after them.
    rest: &'a [u8],
}

/// Whether the byte is a space or a tab.
fn is_blank_byte(byte: u8) -> bool
    ensures { result ≡ is_blank byte }
{
    byte == b' ' || byte == b'\t'
}

/// The bytes after the blanks at the front.
fn after_blanks(bytes: &[u8]) -> &[u8]
    ensures { result.now ≡ after_front is_blank bytes.now }
{
    let mut rest = bytes;
    while let [byte, after @ ..] = rest {
        if !is_blank_byte(*byte) {
            break;
        }
        rest = after;
    }
    rest
}

/// Whether the sign at the front is a minus, and the bytes after it.
fn sign_at(bytes: &[u8]) -> (bool, &[u8])
    ensures minus { result.0 ≡ is_minus (sign_of bytes.now) }
    ensures rest { result.1.now ≡ after_sign bytes.now }
{
    match bytes {
        [b'-', rest @ ..] => (true, rest),
        [b'+', rest @ ..] => (false, rest),
        _ => (false, bytes),
    }
}

/// The number that the digits at the front write when they follow those of a number. A number of more
/// digits than a mantissa has is not told.
fn digits_at(bytes: &[u8], before: u128) -> Digits<'_>
    requires { before < 10 ^ 30 }
    ensures value { digits_value_after 10 before (front is_ascii_digit bytes.now) < 10 ^ 30 →
        result.value ≡ digits_value_after 10 before (front is_ascii_digit bytes.now) }
    ensures small { result.value < 10 ^ 30 }
    ensures count { result.count ≡ length (front is_ascii_digit bytes.now) }
    ensures rest { result.rest.now ≡ after_front is_ascii_digit bytes.now }
{
    let mut value = before;
    let mut rest = bytes;
    while let [digit, after @ ..] = rest {
        if !digit.is_ascii_digit() {
            break;
        }
        if value < FULL {
            value = value * 10 + u128::from(*digit - b'0');
        }
        rest = after;
    }
    let count = bytes.len() - rest.len();
    Digits { value, count, rest }
}

/// The same of the digits after a point at the front, if there is one.
fn fraction_at(bytes: &[u8], whole: u128) -> Digits<'_>
    requires { whole < 10 ^ 30 }
    ensures value { digits_value_after 10 whole (fraction_digits (fraction_of bytes.now)) < 10 ^ 30 →
        result.value ≡ digits_value_after 10 whole (fraction_digits (fraction_of bytes.now)) }
    ensures small { result.value < 10 ^ 30 }
    ensures count { result.count ≡ length (fraction_digits (fraction_of bytes.now)) }
    ensures rest { result.rest.now ≡ after_fraction bytes.now }
{
    match bytes {
        [b'.', digits @ ..] => digits_at(digits, whole),
        _ => Digits {
            value: whole,
            count: 0,
            rest: bytes,
        },
    }
}

/// So many tens, below where the sign is a minus.
fn tens_of(negative: bool, count: u32) -> Tens
    ensures above { result.above ≡ (if negative then 0 else count) }
    ensures below { result.below ≡ (if negative then count else 0) }
{
    if negative {
        Tens {
            above: 0,
            below: count,
        }
    } else {
        Tens {
            above: count,
            below: 0,
        }
    }
}

/// The bytes after the letter of an exponent at the front.
fn after_letter(bytes: &[u8]) -> Option<&[u8]>
    ensures letter { IfSome result (λ after. IsTrue (is_letter (slice_index bytes.now 0))) }
    ensures after { IfSome result (λ after. bytes.now ≡ slice_index bytes.now 0 ∷ after.now) }
    ensures none { IfNone result (exponent_of bytes.now ≡ no_exponent) }
    ensures whole { IfNone result (after_exponent bytes.now ≡ bytes.now) }
{
    match bytes {
        [b'e' | b'E', after @ ..] => Some(after),
        _ => None,
    }
}

/// The tens of the exponent at the front, and the bytes after it. There may be none, but what begins as
/// an exponent must be one.
fn exponent_at(bytes: &[u8]) -> Option<(Tens, &[u8])>
    ensures found { IfSome result (λ found. AreTensOf (exponent_of bytes.now) found.0) }
    ensures rest { IfSome result (λ found. found.1.now ≡ after_exponent bytes.now) }
    ensures exponent { IfSome result (λ found. IsExponent (exponent_of bytes.now)) }
    ensures none { IfNone result (¬ IsExponent (exponent_of bytes.now)) }
{
    let Some(after) = after_letter(bytes) else {
        return Some((tens_of(false, 0), bytes));
    };
    let (negative, digits) = sign_at(after);
    let digits = digits_at(digits, 0);
    if digits.count == 0 || digits.count > MOST_EXPONENT_DIGITS {
        return None;
    }
    Some((tens_of(negative, digits.value as u32), digits.rest))
}

/// The number that a text is.
pub(crate) fn number_of(text: &[u8]) -> Option<Number>
    ensures found { IfSome result (λ number. IsNumberOf (parts_of text.now) number) }
    ensures text { IfSome result (λ number. IsNumberText text.now (parts_of text.now)) }
    ensures none { IfNone result (¬ IsNumberText text.now (parts_of text.now)) }
{
    if text.len() > MOST_BYTES {
        return None;
    }
    let (negative, unsigned) = sign_at(after_blanks(text));
    let whole = digits_at(unsigned, 0);
    let mantissa = fraction_at(whole.rest, whole.value);
    let (tens, after) = exponent_at(mantissa.rest)?;
    let digits = whole.count + mantissa.count;
    if digits == 0 || digits > MOST_DIGITS || !after_blanks(after).is_empty() {
        return None;
    }
    Some(Number {
        negative,
        mantissa: mantissa.value,
        tens: Tens {
            above: tens.above,
            below: mantissa.count as u32 + tens.below,
        },
    })
}
