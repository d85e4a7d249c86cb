//! Bounds of pairs, at the ends of what a rule speaks of.
use fix_point::Rate;
use pair_bounds::{Stamp, between_bound, drift_bound, swing_bound};
use rule_file::{BetweenRule, DriftRule, Name, SwingRule};
use screen_model::{Bound, BoundName, End, Place, Side};
use std::test::Fail;

const SECOND: i64 = 1_000_000_000;

/// The row of a time in seconds.
fn at(row: u32, seconds: i64) -> Stamp {
    Stamp {
        row,
        ticks: seconds.clamp(-9_000_000_000, 9_000_000_000) * SECOND,
    }
}

/// The bound of rule 7 from one place to another.
fn bound(from: (u32, u32), to: (u32, u32), limit: i64, side: Side) -> Option<Bound> {
    let first = End::At(Place {
        row: from.0,
        col: from.1,
    });
    let second = End::At(Place {
        row: to.0,
        col: to.1,
    });
    let name = BoundName {
        rule: 7,
        from_row: from.0,
        to_row: to.0,
        col: from.1,
        side,
    };
    let (first, second) = match side {
        Side::Up => (first, second),
        Side::Down => (second, first),
    };
    Some(Bound {
        name,
        first,
        second,
        limit,
    })
}

#[test]
fn swings_within_the_window(rt: HostRuntime) -> Result<(), Fail> {
    let rule = SwingRule {
        sensor: Name::from_slice(rt.alloc(), b"x")?,
        most: 5,
        window: 10 * SECOND,
        price: 0,
    };
    let up = bound((1, 2), (3, 2), 5, Side::Up);
    let down = bound((1, 2), (3, 2), 5, Side::Down);
    let cases = [
        (0, Side::Up, None),
        (-1, Side::Down, None),
        (1, Side::Up, up),
        (10, Side::Up, up),
        (10, Side::Down, down),
        (11, Side::Up, None),
        (9_000_000_000, Side::Down, None),
    ];
    for (seconds, side, wanted) in cases {
        assert_eq!(rt;
            swing_bound(7, &rule, 2, at(1, 0), at(3, seconds), side),
            wanted
        );
    }
    let first = at(1, -9_000_000_000);
    assert_eq!(rt;
        swing_bound(7, &rule, 2, first, at(3, 9_000_000_000), Side::Up),
        None
    );
    assert_eq!(rt;
        swing_bound(7, &rule, 2, first, at(3, -8_999_999_990), Side::Up),
        up
    );
    Ok(())
}

#[test]
fn drifts_from_over_to_the_window(rt: HostRuntime) -> Result<(), Fail> {
    let rule = DriftRule {
        sensor: Name::from_slice(rt.alloc(), b"x")?,
        min: Rate {
            millionths: -1_500_000,
            per: 10,
        },
        max: Rate {
            millionths: 1_000_000,
            per: 10,
        },
        over: 10 * SECOND,
        window: 20 * SECOND,
        price: 1_000,
    };
    let cases = [
        (0, Side::Down, None),
        (-10, Side::Up, None),
        (9, Side::Up, None),
        (10, Side::Up, bound((1, 2), (3, 2), 1, Side::Up)),
        (10, Side::Down, bound((1, 2), (3, 2), 1, Side::Down)),
        (19, Side::Up, bound((1, 2), (3, 2), 1, Side::Up)),
        (20, Side::Up, bound((1, 2), (3, 2), 2, Side::Up)),
        (20, Side::Down, bound((1, 2), (3, 2), 3, Side::Down)),
        (21, Side::Down, None),
    ];
    for (seconds, side, wanted) in cases {
        assert_eq!(rt;
            drift_bound(7, &rule, 0, 2, at(1, 0), at(3, seconds), side),
            wanted
        );
    }
    Ok(())
}

#[test]
fn rows_with_both_sensors(rt: HostRuntime) -> Result<(), Fail> {
    let rule = BetweenRule {
        first: Name::from_slice(rt.alloc(), b"x")?,
        second: Name::from_slice(rt.alloc(), b"y")?,
        min: -2,
        max: 9,
        price: 1,
    };
    let cases = [
        (None, None, Side::Up, None),
        (Some(3), None, Side::Up, None),
        (None, Some(2), Side::Down, None),
        (
            Some(3),
            Some(2),
            Side::Up,
            bound((4, 3), (4, 2), 9, Side::Up),
        ),
        (
            Some(3),
            Some(2),
            Side::Down,
            bound((4, 3), (4, 2), 2, Side::Down),
        ),
    ];
    for (first, second, side, wanted) in cases {
        assert_eq!(rt; between_bound(7, &rule, 4, first, second, side), wanted);
    }
    Ok(())
}
