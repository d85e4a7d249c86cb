//! Number texts of each form and each refusal, sizes at the limits, numbers as texts, and steps at rates of
//! either sign and on one side alone.

use fix_point::Extra::{Refuse, Round};
use fix_point::NumFault::{NotNumber, OutOfRange, TooFine};
use fix_point::{
    Extra, NumFault, Rate, Step, Steps, ceil_rate, floor_rate, push_text_of, scaled, text_of, units,
};
use std::test::Fail;

/// 9*10^18, the greatest size that `scaled` takes.
const GREATEST: i64 = 9_000_000_000_000_000_000;

#[test]
fn texts_as_units(rt: HostRuntime) {
    let rows: [(&[u8], u32, Extra, i64); 24] = [
        (b"1e-05", 5, Refuse, 1),
        (b"2.5E3", 5, Refuse, 250_000_000),
        (b"0.125", 2, Round, 13),
        (b"-0.125", 2, Round, -13),
        (b"1000000000000000", 0, Refuse, 1_000_000_000_000_000),
        (b"-1000000000000000", 0, Refuse, -1_000_000_000_000_000),
        (b"9999999999.99999", 5, Refuse, 999_999_999_999_999),
        (b"10000000000", 5, Refuse, 1_000_000_000_000_000),
        (b"5.", 0, Refuse, 5),
        (b".5", 1, Refuse, 5),
        (b"+1", 0, Refuse, 1),
        (b"-0", 0, Refuse, 0),
        (b" 7\t", 0, Refuse, 7),
        (b"0.5", 0, Round, 1),
        (b"1.5", 0, Round, 2),
        (b"2.5", 0, Round, 3),
        (b"-2.5", 0, Round, -3),
        (b"2.4999", 0, Round, 2),
        (b"0e+999", 9, Refuse, 0),
        (b"1e-999", 9, Round, 0),
        (b"1e2", 0, Refuse, 100),
        (b"1e+002", 0, Refuse, 100),
        (b"1000000", 9, Refuse, 1_000_000_000_000_000),
        (b"000000000000000000000000000007", 0, Refuse, 7),
    ];
    for (text, d, extra, value) in rows {
        assert_eq!(rt; units(text, d, extra), Ok(value));
    }
}

#[test]
fn refused_texts(rt: HostRuntime) {
    let rows: [(&[u8], u32, Extra, NumFault); 24] = [
        (b"1e-05", 4, Refuse, TooFine),
        (b"1,5", 5, Refuse, NotNumber),
        (b"1000000000000001", 0, Refuse, OutOfRange),
        (b"-1000000000000001", 0, Refuse, OutOfRange),
        (b"10000000000.00001", 5, Refuse, OutOfRange),
        (b"1000000.000000001", 9, Refuse, OutOfRange),
        (b"", 0, Refuse, NotNumber),
        (b"-", 0, Refuse, NotNumber),
        (b".", 0, Refuse, NotNumber),
        (b"1e", 0, Refuse, NotNumber),
        (b"0x1", 0, Refuse, NotNumber),
        (b"inf", 0, Refuse, NotNumber),
        (b"1_000", 0, Refuse, NotNumber),
        (b"+-1", 0, Refuse, NotNumber),
        (b"1 2", 0, Refuse, NotNumber),
        (b"--1", 0, Refuse, NotNumber),
        (b"1e+", 0, Refuse, NotNumber),
        (b"1e1234", 0, Refuse, NotNumber),
        (b"0000000000000000000000000000007", 0, Refuse, NotNumber),
        (b"1e+999", 0, Refuse, OutOfRange),
        (b"1e-999", 9, Refuse, TooFine),
        (b"10000000000.000001", 5, Refuse, TooFine),
        (b"999999999999999.5", 0, Refuse, TooFine),
        (b"1000000000000000.5", 0, Round, OutOfRange),
    ];
    for (text, d, extra, fault) in rows {
        assert_eq!(rt; units(text, d, extra), Err(fault));
    }
}

#[test]
fn the_greatest_sizes(rt: HostRuntime) {
    assert_eq!(rt; scaled(b"9000000000", 9, Refuse, GREATEST), Ok(GREATEST));
    assert_eq!(rt; scaled(b"-9000000000", 9, Refuse, GREATEST), Ok(-GREATEST));
    let past = scaled(b"9000000000.000000001", 9, Refuse, GREATEST);
    assert_eq!(rt; past, Err(OutOfRange));
    let short = scaled(b"8999999999.999999999", 9, Refuse, GREATEST);
    assert_eq!(rt; short, Ok(GREATEST - 1));
    assert_eq!(rt; scaled(b"1", 0, Refuse, 0), Err(OutOfRange));
    assert_eq!(rt; scaled(b"0.4", 0, Round, 0), Ok(0));
}

/// Each number with 0 to 6 decimals: small ones, odd and even ones, some below 0, the last of 64 bits and the
/// first beyond them, and the greatest size that there may be.
#[test]
fn numbers_as_texts(rt: HostRuntime) -> Result<(), Fail> {
    let rows: [(i128, &[u8]); 8] = [
        (0, b" 0 0.0 0.00 0.000 0.0000 0.00000 0.000000"),
        (7, b" 7 0.7 0.07 0.007 0.0007 0.00007 0.000007"),
        (-50, b" -50 -5.0 -0.50 -0.050 -0.0050 -0.00050 -0.000050"),
        (-5, b" -5 -0.5 -0.05 -0.005 -0.0005 -0.00005 -0.000005"),
        (
            -1_000_000,
            b" -1000000 -100000.0 -10000.00 -1000.000 -100.0000 -10.00000 -1.000000",
        ),
        (
            18_446_744_073_709_551_615,
            b" 18446744073709551615 1844674407370955161.5 184467440737095516.15\
               \x2018446744073709551.615 1844674407370955.1615 184467440737095.51615\
               \x2018446744073709.551615",
        ),
        (
            18_446_744_073_709_551_616,
            b" 18446744073709551616 1844674407370955161.6 184467440737095516.16\
               \x2018446744073709551.616 1844674407370955.1616 184467440737095.51616\
               \x2018446744073709.551616",
        ),
        (
            -1_000_000_000_000_000_000_000_000_000_000,
            b" -1000000000000000000000000000000 -100000000000000000000000000000.0\
               \x20-10000000000000000000000000000.00 -1000000000000000000000000000.000\
               \x20-100000000000000000000000000.0000 -10000000000000000000000000.00000\
               \x20-1000000000000000000000000.000000",
        ),
    ];
    for (value, wanted) in rows {
        assert!(rt; value.unsigned_abs() <= 1_000_000_000_000_000_000_000_000_000_000);
        let mut added = Vec::new(rt.alloc());
        let mut alone = Vec::new(rt.alloc());
        for d in 0..7 {
            added.push(b' ')?;
            push_text_of(&mut added, value, d)?;
            alone.push(b' ')?;
            alone.extend_from_slice(text_of(rt.alloc(), value, d)?.as_slice())?;
        }
        assert_eq!(rt; added.as_slice(), wanted);
        assert_eq!(rt; alone.as_slice(), wanted);
    }
    Ok(())
}

#[test]
fn rates_as_whole_steps(rt: HostRuntime) {
    let third = Rate {
        millionths: 1_000_000,
        per: 3,
    };
    assert_eq!(rt; floor_rate(third, 2, 1_000_000_000), 33);
    assert_eq!(rt; ceil_rate(third, 2, 1_000_000_000), 34);
    let falling = Rate {
        millionths: -1_000_000,
        per: 3,
    };
    assert_eq!(rt; floor_rate(falling, 0, 1_000_000_000), -1);
    assert_eq!(rt; ceil_rate(falling, 0, 1_000_000_000), 0);
    let greatest = Rate {
        millionths: 1_000_000_000_000_000,
        per: 10_000_000,
    };
    assert_eq!(rt;
        floor_rate(greatest, 6, 40_000_000_000_000_000),
        4_000_000_000_000_000
    );
}

/// A third of a whole in a second, down and up, in hundredths.
#[test]
fn steps_of_changing_and_repeated_times(rt: HostRuntime) {
    let min = Rate {
        millionths: -1_000_000,
        per: 3,
    };
    let max = Rate {
        millionths: 1_000_000,
        per: 3,
    };
    let mut steps = Steps::new(min, max, 2);
    assert_eq!(rt; steps.step(1_000_000_000), step_of(-33, 33));
    assert_eq!(rt; steps.step(1_000_000_000), step_of(-33, 33));
    assert_eq!(rt; steps.step(7_000_000_000), step_of(-233, 233));
    assert_eq!(rt; steps.step(1_000_000_000), step_of(-33, 33));
    assert_eq!(rt; steps.step(1), step_of(0, 0));
    assert_eq!(rt; steps.step(1_000_000_000_000), step_of(-33_333, 33_333));
}

/// Rates on one side of 0, and none at all.
#[test]
fn steps_of_rates_on_one_side(rt: HostRuntime) {
    let slow = Rate {
        millionths: 500_000,
        per: 7,
    };
    let fast = Rate {
        millionths: 2_000_000,
        per: 7,
    };
    let mut rising = Steps::new(slow, fast, 0);
    assert_eq!(rt; rising.step(1_000_000_000), step_of(1, 0));
    assert_eq!(rt; rising.step(7_000_000_000), step_of(1, 2));
    assert_eq!(rt; rising.step(1_000_000_000_000), step_of(72, 285));
    let falling = Rate {
        millionths: -2_500_000,
        per: 1,
    };
    let creeping = Rate {
        millionths: -1,
        per: 1,
    };
    let mut down = Steps::new(falling, creeping, 6);
    assert_eq!(rt; down.step(1_000_000_000), step_of(-2_500_000, -1));
    assert_eq!(rt; down.step(1), step_of(0, -1));
    let none = Rate {
        millionths: 0,
        per: 60,
    };
    let mut still = Steps::new(none, none, 6);
    assert_eq!(rt; still.step(1), step_of(0, 0));
    assert_eq!(rt; still.step(1_000_000_000_000), step_of(0, 0));
}

fn step_of(least: i64, greatest: i64) -> Step {
    Step { least, greatest }
}
