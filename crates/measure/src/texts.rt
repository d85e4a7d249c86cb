//! Short decimal texts, the same in every run.

use std::alloc::AllocError;

/// The next state of a linear congruential generator, and a number of hundredths drawn from it.
pub fn next_hundredths(state: u64) -> (u64, u64) {
    let next = state.wrapping_mul(1_103_515_245).wrapping_add(12_345) % (1 << 31);
    (next, (next >> 8) % 100_000)
}

/// Adds a number of hundredths as a text with two decimals, such as `123.45`.
pub fn push_hundredths(bytes: &mut Vec<u8>, number: u64) -> Result<(), AllocError> {
    if number >= 10_000 {
        bytes.push(digit(number / 10_000))?;
    }
    if number >= 1_000 {
        bytes.push(digit(number / 1_000))?;
    }
    bytes.push(digit(number / 100))?;
    bytes.push(b'.')?;
    bytes.push(digit(number / 10))?;
    bytes.push(digit(number))?;
    Ok(())
}

/// Adds the last two digits of a number.
pub fn push_two_digits(bytes: &mut Vec<u8>, number: u64) -> Result<(), AllocError> {
    bytes.push(digit(number / 10))?;
    bytes.push(digit(number))?;
    Ok(())
}

/// The last digit of a number.
pub fn digit(number: u64) -> u8 {
    b'0' + (number % 10) as u8
}
