//! Texts of each form as ticks, and each refusal of a form: numbers at the limits, and calendar texts with and
//! without an offset.

use time_text::{TimeFault, TimeForm, ticks};

#[test]
fn numbers_are_scaled_to_nanoseconds(rt: HostRuntime) {
    for (form, text, want) in [
        (TimeForm::Sec, "1.5", 1_500_000_000),
        (TimeForm::Sec, "-1", -1_000_000_000),
        (
            TimeForm::Sec,
            "1714557600.000000001",
            1_714_557_600_000_000_001,
        ),
        (TimeForm::Milli, "1.5", 1_500_000),
        (TimeForm::Micro, "1.5", 1_500),
        (TimeForm::Micro, "15e-1", 1_500),
        (
            TimeForm::Nano,
            "9000000000000000000",
            9_000_000_000_000_000_000,
        ),
        (
            TimeForm::Nano,
            "-9000000000000000000",
            -9_000_000_000_000_000_000,
        ),
    ] {
        assert_eq!(rt;
            ticks(rt.alloc(), form, text.as_bytes()),
            Ok(want),
            "{text}"
        );
    }
}

#[test]
fn numbers_that_are_no_ticks_are_told_apart(rt: HostRuntime) {
    for (form, text, want) in [
        (TimeForm::Sec, "", TimeFault::NotTime),
        (TimeForm::Sec, "noon", TimeFault::NotTime),
        (TimeForm::Sec, "1e-10", TimeFault::TimeTooFine),
        (TimeForm::Nano, "0.5", TimeFault::TimeTooFine),
        (TimeForm::Sec, "9000000001", TimeFault::TimeOutOfRange),
        (
            TimeForm::Nano,
            "9000000000000000001",
            TimeFault::TimeOutOfRange,
        ),
    ] {
        assert_eq!(rt;
            ticks(rt.alloc(), form, text.as_bytes()),
            Err(want),
            "{text}"
        );
    }
}

/// The ticks are those of Python's `datetime`, which has no second 60.
#[test]
fn instants_are_read_with_their_offset(rt: HostRuntime) {
    for (text, want) in [
        ("1970-01-01T00:00:01Z", 1_000_000_000),
        ("2024-05-01T00:00:00Z", 1_714_521_600_000_000_000),
        ("2024-05-01 00:00:00Z", 1_714_521_600_000_000_000),
        ("2024-05-01T00:00:00+02:00", 1_714_514_400_000_000_000),
        ("2024-05-01T12:30:15.123456789Z", 1_714_566_615_123_456_789),
        ("2016-12-31T23:59:60Z", 1_483_228_799_000_000_000),
        ("2255-03-14T16:00:00Z", 9_000_000_000_000_000_000),
    ] {
        let found = ticks(rt.alloc(), TimeForm::Instant, text.as_bytes());
        assert_eq!(rt; found, Ok(want), "{text}");
    }
}

#[test]
fn civil_texts_are_taken_in_utc(rt: HostRuntime) {
    for (text, want) in [
        ("1970-01-01 00:00:02", 2_000_000_000),
        ("2024-05-01T10:00:00", 1_714_557_600_000_000_000),
        ("2024-05-01T10:00:00+02:00", 1_714_557_600_000_000_000),
        ("2016-12-31 23:59:60", 1_483_228_799_000_000_000),
        ("2024-05-01", 1_714_521_600_000_000_000),
        ("1700-02-28T23:59:59.000000001", -8_515_238_400_999_999_999),
    ] {
        let found = ticks(rt.alloc(), TimeForm::Civil, text.as_bytes());
        assert_eq!(rt; found, Ok(want), "{text}");
    }
}

#[test]
fn calendar_texts_that_are_no_ticks_are_told_apart(rt: HostRuntime) {
    for (form, text, want) in [
        (TimeForm::Instant, "", TimeFault::NotTime),
        (TimeForm::Instant, "2024-05-01", TimeFault::NotTime),
        (TimeForm::Instant, "2024-05-01T00:00:00", TimeFault::NotTime),
        (
            TimeForm::Instant,
            "2023-02-29T00:00:00Z",
            TimeFault::NotTime,
        ),
        (
            TimeForm::Instant,
            "2255-03-14T16:00:00.000000001Z",
            TimeFault::TimeOutOfRange,
        ),
        (
            TimeForm::Instant,
            "2300-01-01T00:00:00Z",
            TimeFault::TimeOutOfRange,
        ),
        (TimeForm::Civil, "", TimeFault::NotTime),
        (TimeForm::Civil, "2024-05-01 00:00:00Z", TimeFault::NotTime),
        (TimeForm::Civil, "1600-01-01", TimeFault::TimeOutOfRange),
    ] {
        assert_eq!(rt;
            ticks(rt.alloc(), form, text.as_bytes()),
            Err(want),
            "{text}"
        );
    }
}
