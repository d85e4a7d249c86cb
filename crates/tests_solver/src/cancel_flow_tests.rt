//! The solver of cycles, beside the solver of paths.

use crate::networks::{agreed, line, promised};
use std::test::Fail;

#[test]
fn a_speed_rule_a_price_and_a_cycle(rt: HostRuntime) -> Result<(), Fail> {
    let alloc = rt.alloc();
    let readings = [(10, 1), (11, 1), (20, 1), (13, 1)];
    // Each reading is at most 1 above the one before, and at most 1 below it.
    let speed = [
        line(1, 2, 1, 0),
        line(2, 1, 1, 0),
        line(2, 3, 1, 0),
        line(3, 2, 1, 0),
        line(3, 4, 1, 0),
        line(4, 3, 1, 0),
    ];
    assert_eq!(rt; agreed(&rt, alloc, &readings, &speed)?.cost, Some(8));
    assert_eq!(rt; agreed(&rt, alloc, &readings, &[])?.cost, Some(0));
    // The third reading lies 8 too far above the second one, for 7 each, since weights are greater.
    let priced = [line(2, 3, 1, 7), line(3, 2, 1, 7)];
    let heavy = [(10, 100), (11, 100), (20, 100), (13, 100)];
    assert_eq!(rt; agreed(&rt, alloc, &heavy, &priced)?.cost, Some(56));
    // Each of two bounds leaves no room for the other.
    let apart = [line(1, 2, -1, 0), line(2, 3, 0, 0), line(3, 1, 0, 0)];
    assert_eq!(rt; agreed(&rt, alloc, &readings, &apart)?.cost, None);
    // A sum of 0 blocks nothing.
    let equal = [line(1, 2, -1, 0), line(2, 3, 1, 0), line(3, 1, 0, 0)];
    assert_eq!(rt; agreed(&rt, alloc, &readings, &equal)?.cost, Some(10));
    Ok(())
}

#[test]
fn cycles_take_more_changes_than_paths_promise(rt: HostRuntime) -> Result<(), Fail> {
    // The first reading is at least 1 and at least the second one, which is at least 2 and costs nothing to change.
    let readings = [(0, 1), (0, 0)];
    let lines = [line(1, 2, 0, 0), line(1, 0, -1, 0), line(2, 0, -2, 0)];
    let came = agreed(&rt, rt.alloc(), &readings, &lines)?;
    assert_eq!(rt; came.cost, Some(2));
    let most = promised(&readings, &lines);
    assert!(rt; came.by_paths <= most);
    assert!(rt; most < came.by_cycles, "{} changes", came.by_cycles);
    Ok(())
}
