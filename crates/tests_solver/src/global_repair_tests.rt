//! Repairs of small tables, and of tables that have none, by each solver.

use cancel_flow::CancelSolver;
use flow_core::Solver;
use global_repair::{Outcome, RepairFault, repair};
use path_flow::PathSolver;
use rule_file::{Rules, read_rules};
use series_csv::{Table, read_table};
use std::alloc::Global;
use std::process::Abort;
use std::test::Fail;

/// Whole numbers, and seconds.
const WHOLE: &str = "[format]\ndecimals = 0\n";

/// A speed rule of `x`: at most 1 a second, within 10 seconds.
const SPEED: &str = "[[speed]]\nsensor = \"x\"\nmin = -1\nmax = 1\nwindow = 10\n";

/// The same at the price 1 for each unit.
const PRICED: &str = "[[speed]]\nsensor = \"x\"\nmin = -1\nmax = 1\nwindow = 10\nprice = 1\n";

/// Rules that follow the format, readings, the repaired values, the total and what of it is paid, and the number of flow
/// items.
type Repair = (
    &'static [&'static str],
    &'static str,
    &'static [i64],
    i128,
    i128,
    usize,
);

const OF_ONE_SENSOR: [Repair; 9] = [
    (&[SPEED], "time,x\n", &[], 0, 0, 0),
    (
        &[SPEED],
        "time,x\n0,10\n1,11\n2,12\n",
        &[10, 11, 12],
        0,
        0,
        0,
    ),
    (
        &[SPEED],
        "time,x\n0,10\n1,11\n2,20\n3,13\n",
        &[10, 11, 12, 13],
        8,
        0,
        1,
    ),
    (&[SPEED], "time,x\n0,0\n1,3\n", &[2, 3], 2, 0, 1),
    (
        &[
            SPEED,
            "[[weight]]\nsensor = \"x\"\nweight = 5\nfrom = 0\nto = 0\n",
        ],
        "time,x\n0,0\n1,3\n",
        &[0, 1],
        2,
        0,
        1,
    ),
    (&[SPEED], "time,x\n0,0\n11,100\n", &[0, 100], 0, 0, 0),
    (&[SPEED], "time,x\n0,0\n10,100\n", &[90, 100], 90, 0, 1),
    (&[SPEED], "time,x\n0,0\n1,\n2,2\n", &[0, 2], 0, 0, 0),
    (
        &["[[speed]]\nsensor = \"x\"\nmin = -1\nmax = 1\nper = 3\nwindow = 10\n"],
        "time,x\n0,0\n1,0\n2,0\n3,1\n",
        &[0, 0, 0, 0],
        1,
        0,
        1,
    ),
];

const OF_OTHER_KINDS: [Repair; 4] = [
    (
        &["[[between]]\nfirst = \"in\"\nsecond = \"out\"\nmin = 0\nmax = 5\n"],
        "time,in,out\n0,10,20\n",
        &[15, 20],
        5,
        0,
        1,
    ),
    (
        &["[[range]]\nsensor = \"x\"\nmax = 50\n"],
        "time,x\n0,70\n",
        &[50],
        20,
        0,
        1,
    ),
    (
        &["[[swing]]\nsensor = \"x\"\nmost = 5\nwindow = 10\n"],
        "time,x\n0,0\n5,4\n10,8\n",
        &[3, 4, 8],
        3,
        0,
        1,
    ),
    (
        &["[[drift]]\nsensor = \"x\"\nmin = -1\nmax = 1\nper = 10\nover = 10\nwindow = 20\n"],
        "time,x\n0,0\n5,5\n10,9\n",
        &[8, 5, 9],
        8,
        0,
        1,
    ),
];

const OF_PRICED_RULES: [Repair; 4] = [
    (
        &[PRICED, "[[weight]]\nsensor = \"x\"\nweight = 5\n"],
        "time,x\n0,0\n1,100\n",
        &[0, 100],
        99,
        99,
        1,
    ),
    (
        &[
            "[[speed]]\nsensor = \"x\"\nmin = -1\nmax = 1\nwindow = 10\nprice = 2\n",
            "[[trust]]\nsensor = \"x\"\n",
        ],
        "time,x\n0,0\n1,100\n",
        &[0, 100],
        198,
        198,
        3,
    ),
    (&[PRICED], "time,x\n0,0\n1,3\n", &[2, 3], 2, 0, 1),
    (
        &[
            "[[range]]\nsensor = \"x\"\nmax = 50\nprice = 1\n",
            "[[trust]]\nsensor = \"x\"\n",
        ],
        "time,x\n0,70\n",
        &[70],
        20,
        20,
        2,
    ),
];

/// Rules and readings that no series obeys, and the number of bounds of the cycle.
type Blocked = (&'static [&'static str], &'static str, usize);

const WITHOUT_SERIES: [Blocked; 3] = [
    (
        &[SPEED, "[[trust]]\nsensor = \"x\"\n"],
        "time,x\n0,0\n1,100\n",
        3,
    ),
    (
        &["[[speed]]\nsensor = \"x\"\nmin = 1\nmax = 1\nper = 3\nwindow = 10\n"],
        "time,x\n0,0\n1,0\n",
        2,
    ),
    (
        &[
            "[[range]]\nsensor = \"x\"\nmax = 50\n",
            "[[trust]]\nsensor = \"x\"\n",
        ],
        "time,x\n0,70\n",
        2,
    ),
];

/// The rules of the format and of these texts.
fn rules_of(alloc: Global, texts: &[&str]) -> Result<Rules, Fail> {
    let mut bytes = Vec::from_slice(alloc, WHOLE.as_bytes())?;
    for text in texts {
        bytes.extend_from_slice(text.as_bytes())?;
    }
    Ok(read_rules(alloc, bytes.as_slice())?)
}

/// What a solver finds for these rules and readings.
fn found<V: Solver>(
    alloc: Global,
    texts: &[&str],
    readings: &str,
    solver: &mut V,
) -> Result<Outcome, Fail> {
    let rules = rules_of(alloc, texts)?;
    let table = read_table(alloc, &rules, readings.as_bytes())?;
    Ok(repair(alloc, &table, &rules, solver)?)
}

/// The series of the repair and what it costs are those of the case.
fn check_repair(rt: &impl Abort, outcome: &Outcome, case: &Repair) {
    match outcome {
        Outcome::Repaired {
            series,
            total,
            paid,
            ..
        } => {
            assert_eq!(rt; series.as_slice(), case.2);
            assert_eq!(rt; (*total, *paid), (case.3, case.4));
        }
        Outcome::NoSeries { .. } => assert!(rt; false),
    }
}

/// The number of flow items, and 0 where there is no repair.
fn flow_len(outcome: &Outcome) -> usize {
    match outcome {
        Outcome::Repaired { flow, .. } => flow.len(),
        Outcome::NoSeries { .. } => 0,
    }
}

fn check_repairs(rt: &impl Abort, alloc: Global, cases: &[Repair]) -> Result<(), Fail> {
    for case in cases {
        let outcome = found(alloc, case.0, case.1, &mut PathSolver::new(alloc))?;
        check_repair(rt, &outcome, case);
        assert_eq!(rt; flow_len(&outcome), case.5);
        // By the other solver another flow may show the same.
        let outcome = found(alloc, case.0, case.1, &mut CancelSolver::new(alloc))?;
        check_repair(rt, &outcome, case);
    }
    Ok(())
}

#[test]
fn the_greatest_of_the_cheapest_series_is_found(rt: HostRuntime) -> Result<(), Fail> {
    check_repairs(&rt, rt.alloc(), &OF_ONE_SENSOR)?;
    check_repairs(&rt, rt.alloc(), &OF_OTHER_KINDS)?;
    check_repairs(&rt, rt.alloc(), &OF_PRICED_RULES)
}

/// The number of bounds of the cycle, and 0 where there is a repair.
fn cycle_len(outcome: &Outcome) -> usize {
    match outcome {
        Outcome::NoSeries { cycle } => cycle.len(),
        Outcome::Repaired { .. } => 0,
    }
}

#[test]
fn a_cycle_is_found_where_no_series_obeys(rt: HostRuntime) -> Result<(), Fail> {
    let alloc = rt.alloc();
    for case in &WITHOUT_SERIES {
        let outcome = found(alloc, case.0, case.1, &mut PathSolver::new(alloc))?;
        assert_eq!(rt; cycle_len(&outcome), case.2);
        let outcome = found(alloc, case.0, case.1, &mut CancelSolver::new(alloc))?;
        assert_eq!(rt; cycle_len(&outcome), case.2);
    }
    Ok(())
}

/// So many rows, a second apart, of the value 0.
fn rows(alloc: Global, count: u32) -> Result<Vec<u8>, Fail> {
    let mut text = Vec::from_slice(alloc, b"time,x\n")?;
    for second in 0..count {
        text.extend_from_slice(format!(in alloc; "{second},0\n")?.as_bytes())?;
    }
    Ok(text)
}

#[test]
fn too_many_bounds_are_told(rt: HostRuntime) -> Result<(), Fail> {
    let alloc = rt.alloc();
    let rules = rules_of(
        alloc,
        &["[[swing]]\nsensor = \"x\"\nmost = 5\nwindow = 100000\n"],
    )?;
    let table = read_table(alloc, &rules, rows(alloc, 2_001)?.as_slice())?;
    let mut solver = PathSolver::new(alloc);
    let fault = repair(alloc, &table, &rules, &mut solver).err();
    assert!(rt; fault == Some(RepairFault::TooManyBounds));
    Ok(())
}
