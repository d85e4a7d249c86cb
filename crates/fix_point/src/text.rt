//! Whole numbers of a unit as decimal texts.
ghost use Rattle.std.specs.Prelude.{◌≡◌, ℕ, ℤ, ◌/◌, ◌%◌, ◌++◌, ◌^◌, ◌<◌, ◌≤◌, IfOk, OnOk, decimal, unsigned_abs};
ghost use Rattle.std.specs.Io.{StartsWith};
ghost use Rattle.fix_point.specs.declared.scale.Extra.{Extra};
ghost use Rattle.fix_point.specs.Scaled.{Spells};
ghost use Rattle.fix_point.specs.Text.{decimals_text, places, text_of_value};

use itoa::Buffer;
use std::alloc::{AllocError, Global};

/// The text of a whole number of units of 10^-d: a minus where it is below 0, the whole part, and where
/// d is not 0 a point and exactly d digits.
pub fn text_of(alloc: Global, v: i128, d: u32) -> Result<Vec<u8>, AllocError>
    requires size { unsigned_abs v ≤ 10 ^ 30 }
    requires decimals { d ≤ 6 }
    ensures { IfOk result (λ text. text.items ≡ text_of_value v d) }
{
    let mut text = Vec::new(alloc);
    push_text_of(&mut text, v, d)?;
    Ok(text)
}

/// Adds this text to the end of another one. It takes no memory but what that one needs to grow. After an
/// error a part of the text may have been added, and what stood before it stands as it was.
pub fn push_text_of(text: &mut Vec<u8>, v: i128, d: u32) -> Result<(), AllocError>
    requires size { unsigned_abs v ≤ 10 ^ 30 }
    requires decimals { d ≤ 6 }
    ensures text { OnOk result (text.new.items ≡ text.old.items ++ text_of_value v d) }
    ensures front { StartsWith text.new.items text.old.items }
{
    if v < 0 {
        text.push(b'-')?;
    }
    let left = push_whole(text, v.unsigned_abs(), 10u32.pow(d))?;
    push_decimals(text, left, d)
}

/// Adds the whole part of a number over a power of ten, and answers what is left.
fn push_whole(text: &mut Vec<u8>, size: u128, power: u32) -> Result<u32, AllocError>
    requires { 0 < power }
    ensures text { OnOk result (text.new.items ≡ text.old.items ++ decimal (size / power)) }
    ensures front { StartsWith text.new.items text.old.items }
    ensures left { IfOk result (λ left. left ≡ size % power) }
{
    let mut digits = Buffer::new();
    match u64::try_from(size) {
        Ok(size) => {
            let power = u64::from(power);
            text.extend_from_slice(digits.format(size / power).as_bytes())?;
            Ok((size % power) as u32)
        }
        Err(_) => {
            let power = u128::from(power);
            text.extend_from_slice(digits.format(size / power).as_bytes())?;
            Ok((size % power) as u32)
        }
    }
}

/// The text of a number is read as that number, exactly: for each size below 10^30, which has 30 digits.
/// The text of 10^30 itself has 31, and is no number text.
pub fn texts_are_read_back()
    ensures { (v most : ℤ) (d : ℕ) (extra : Extra) → d ≤ 6 → unsigned_abs v < 10 ^ 30 → unsigned_abs v ≤ unsigned_abs most →
        Spells (text_of_value v d) d extra most v }
{}

/// Adds a point and the last so many digits of a number, where they are any.
fn push_decimals(text: &mut Vec<u8>, size: u32, count: u32) -> Result<(), AllocError>
    requires { count ≤ 6 }
    ensures text { OnOk result (text.new.items ≡ text.old.items ++ decimals_text count size) }
    ensures front { StartsWith text.new.items text.old.items }
{
    if count == 0 {
        return Ok(());
    }
    text.push(b'.')?;
    push_places(text, size, count)
}

/// Adds the last so many digits of a number.
fn push_places(text: &mut Vec<u8>, size: u32, count: u32) -> Result<(), AllocError>
    requires { count ≤ 6 }
    ensures text { OnOk result (text.new.items ≡ text.old.items ++ places count size) }
    ensures front { StartsWith text.new.items text.old.items }
{
    for place in (0..count).rev() {
        let digit = size / 10u32.pow(place) % 10;
        text.push(b'0' + digit as u8)?;
    }
    Ok(())
}
