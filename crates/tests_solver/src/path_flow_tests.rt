//! The solver of paths: how often it changes flow, and large networks. Small ones cost the same by both solvers.

use crate::networks::{PricedBound, RANGE, agreed, draw, line, network, solved};
use path_flow::PathSolver;
use std::alloc::{AllocError, Global};
use std::process::Abort;
use std::test::Fail;

/// A network of these lists has this cost, or none, by each solver, and the solver of paths takes at most so many changes.
fn costs(
    rt: &impl Abort,
    alloc: Global,
    readings: &[(i64, u32)],
    lines: &[PricedBound],
    most: u64,
    cost: Option<i128>,
) -> Result<(), AllocError> {
    let came = agreed(rt, alloc, readings, lines)?;
    assert_eq!(rt; came.cost, cost);
    assert!(rt; came.by_paths <= most);
    Ok(())
}

#[test]
fn no_reading_and_one_cost_least(rt: HostRuntime) -> Result<(), Fail> {
    let alloc = rt.alloc();
    costs(&rt, alloc, &[], &[], 0, Some(0))?;
    costs(&rt, alloc, &[], &[line(0, 0, -1, 5)], 1, Some(5))?;
    costs(&rt, alloc, &[], &[line(0, 0, -1, 0)], 0, None)?;
    let high = [line(0, 1, 50, 1)];
    costs(&rt, alloc, &[(70, 1)], &high, 4, Some(20))?;
    let priced = [line(0, 1, 50, 3)];
    costs(&rt, alloc, &[(70, 1_000)], &priced, 1_005, Some(60))?;
    let free = [line(0, 1, 50, 0)];
    costs(&rt, alloc, &[(70, 1_000)], &free, 1_001, Some(20_000))?;
    Ok(())
}

#[test]
fn two_readings_cost_least(rt: HostRuntime) -> Result<(), Fail> {
    let alloc = rt.alloc();
    let priced = [line(1, 2, 1, 1)];
    costs(&rt, alloc, &[(0, 5), (100, 5)], &priced, 25, Some(99))?;
    let one_apart = [line(1, 2, 1, 0), line(2, 1, -1, 0)];
    costs(&rt, alloc, &[(0, 1), (0, 1)], &one_apart, 6, Some(1))?;
    let never = [line(1, 2, 1, 0), line(2, 1, -2, 0)];
    costs(&rt, alloc, &[(0, 1), (0, 1)], &never, 0, None)?;
    let equal = [line(1, 2, 0, 0), line(2, 1, 0, 0)];
    let far = [(RANGE, 1), (-RANGE, 1)];
    costs(&rt, alloc, &far, &equal, 6, Some(2_000_000_000_000_000))?;
    Ok(())
}

#[test]
fn four_readings_take_at_most_twenty_changes(rt: HostRuntime) -> Result<(), Fail> {
    let mut lines = Vec::new(rt.alloc());
    for first in 1..4 {
        for second in first + 1..5 {
            lines.push(line(first, second, i64::from(second - first), 0))?;
            lines.push(line(second, first, i64::from(second - first), 0))?;
        }
    }
    let readings = [(10, 1), (11, 1), (20, 1), (13, 1)];
    costs(&rt, rt.alloc(), &readings, &lines, 20, Some(8))?;
    Ok(())
}

/// The same for the solver of paths alone.
fn costs_by_paths(
    rt: &impl Abort,
    alloc: Global,
    readings: &[(i64, u32)],
    lines: &[PricedBound],
    most: u64,
    cost: Option<i128>,
) -> Result<(), AllocError> {
    let mut net = network(alloc, readings, lines)?;
    assert_eq!(rt;
        solved(rt, alloc, &mut net, &mut PathSolver::new(alloc))?,
        cost
    );
    assert!(rt; net.changes() <= most, "{} changes", net.changes());
    Ok(())
}

/// What the 2,000 readings below cost, as another program found it, by the network simplex method.
const LEAST_OF_TWO_THOUSAND: i128 = 117_706;

#[test]
fn two_thousand_readings_cost_least(rt: HostRuntime) -> Result<(), Fail> {
    let mut state = 11;
    let mut level = 0i64;
    let mut readings = Vec::new(rt.alloc());
    let mut lines = Vec::new(rt.alloc());
    for _ in 0..2_000 {
        level = level.wrapping_add(draw(&mut state, 7) as i64 - 3);
        let mut value = level;
        if draw(&mut state, 20) == 0 {
            value = draw(&mut state, 2_001) as i64 - 1_000;
        }
        readings.push((value, 1 + draw(&mut state, 3) as u32))?;
    }
    for node in 1..2_000 {
        lines.push(line(node, node + 1, 4, 0))?;
        lines.push(line(node + 1, node, 4, 0))?;
        if node + 2 <= 2_000 {
            lines.push(line(node, node + 2, 6, 1))?;
            lines.push(line(node + 2, node, 6, 1))?;
        }
    }
    let cost = Some(LEAST_OF_TWO_THOUSAND);
    costs_by_paths(&rt, rt.alloc(), &readings, &lines, 15_965_996, cost)?;
    Ok(())
}

#[test]
fn few_wrong_readings_take_few_changes(rt: HostRuntime) -> Result<(), Fail> {
    let mut readings = Vec::new(rt.alloc());
    let mut lines = Vec::new(rt.alloc());
    // Each reading is 1 above the one before. The first five, from 0 to 4, lie below 5.
    for node in 1..2_001 {
        readings.push((i64::from(node) - 1, 1))?;
        lines.push(line(node, 0, -5, 0))?;
    }
    for node in 1..2_000 {
        lines.push(line(node, node + 1, 1, 0))?;
        lines.push(line(node + 1, node, 1, 0))?;
    }
    costs_by_paths(&rt, rt.alloc(), &readings, &lines, 20, Some(15))?;
    Ok(())
}
