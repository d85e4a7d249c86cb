//! Both solvers on networks that are drawn, compared with a look at every series.

ghost use Rattle.std.specs.Prelude.{◌<◌};

use crate::networks::{PricedBound, agreed, draw, least_cost, line, promised};
use std::alloc::{AllocError, Global};
use std::process::Abort;
use std::test::Fail;

/// Readings and bounds that are drawn.
#[derive(Drop)]
struct Lists {
    readings: Vec<(i64, u32)>,
    lines: Vec<PricedBound>,
}

/// Draws so many readings of values from -3 to 3 and weights up to 2, and up to eight bounds between them and Zero, of
/// limits from -2 to 2 and prices up to 3.
fn drawn(alloc: Global, state: &mut u64, count: u64) -> Result<Lists, AllocError>
    requires { count < 100 }
{
    let mut readings = Vec::new(alloc);
    for _ in 0..count {
        let weight = draw(state, 3) as u32;
        readings.push((draw(state, 7) as i64 - 3, weight))?;
    }
    let mut lines = Vec::new(alloc);
    for _ in 0..draw(state, 9) {
        let price = draw(state, 4) as u32;
        let tail = draw(state, count + 1) as u32;
        let head = draw(state, count + 1) as u32;
        let limit = draw(state, 5) as i64 - 2;
        lines.push(line(tail, head, limit, price))?;
        // Now and then the way back as well, so that both limits add up to 0.
        if draw(state, 4) == 0 {
            lines.push(line(head, tail, 0 - limit, 0))?;
        }
    }
    Ok(Lists { readings, lines })
}

/// Solves a network that is drawn with both solvers; where there are few readings, every series is looked at as well.
/// Answers whether a series obeys.
fn compare(rt: &impl Abort, alloc: Global, state: &mut u64, count: u64) -> Result<bool, AllocError>
    requires { count < 100 }
{
    let lists = drawn(alloc, state, count)?;
    let came = agreed(rt, alloc, &lists.readings, &lists.lines)?;
    assert!(rt; came.by_paths <= promised(&lists.readings, &lists.lines));
    if count < 5 {
        assert_eq!(rt; came.cost, least_cost(&lists.readings, &lists.lines));
    }
    Ok(came.cost.is_some())
}

#[test]
fn both_solvers_find_what_a_look_at_every_series_finds(rt: HostRuntime) -> Result<(), Fail> {
    let mut state = 7;
    let mut obeyed = 0u32;
    for _ in 0..400 {
        for count in 0..5 {
            let obeys = compare(&rt, rt.alloc(), &mut state, count)?;
            obeyed = obeyed.saturating_add(u32::from(obeys));
        }
        compare(&rt, rt.alloc(), &mut state, 12)?;
    }
    // Networks of both kinds were drawn.
    assert!(rt; 1_000 < obeyed && obeyed < 1_900, "{obeyed} of 2000");
    Ok(())
}
