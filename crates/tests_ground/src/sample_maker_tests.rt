//! The texts of few and of many rows, and their sums.
use sample_maker::sample;
use std::test::Fail;

#[test]
fn three_rows(rt: HostRuntime) -> Result<(), Fail> {
    let made = sample(rt.alloc(), 3, 0)?;
    let rules =
        b"[format]\ndecimals = 2\n[[speed]]\nsensor = \"x\"\nmin = \"-0.03\"\nmax = \"0.03\"\nwindow = 5\n";
    assert_eq!(rt; made.rules.bytes(), rules.as_slice());
    let readings = b"time,x\n0,204.97\n1,200.00\n2,200.03\n";
    assert_eq!(rt; made.readings.bytes(), readings.as_slice());
    Ok(())
}

/// The lengths of the readings and their checksums, which another program reckoned.
#[test]
fn few_and_many_rows(rt: HostRuntime) -> Result<(), Fail> {
    for (seed, rows, length, sum) in [
        (0, 1, 16, 1_345_154_119),
        (0, 2, 25, 871_474_412),
        (1, 50, 497, 3_667_866_129),
        (1, 51, 507, 3_528_442_695),
        (999_999_999, 2_000, 22_897, 968_553_794),
        (0, 20_000, 248_897, 831_926_246),
    ] {
        let made = sample(rt.alloc(), rows, seed)?;
        assert_eq!(rt; made.readings.len(), length);
        assert_eq!(rt; checksum(made.readings.bytes()), sum);
    }
    Ok(())
}

fn checksum(bytes: &[u8]) -> u32 {
    let mut sum: u32 = 0;
    for byte in bytes {
        sum = sum.wrapping_mul(31).wrapping_add(u32::from(*byte));
    }
    sum
}
