//! The bounds of rules of each kind, their number, bounds by their names, weights, prices and costs.
ghost use Rattle.std.specs.Prelude.{◌≤◌, length};
ghost use Rattle.bound_maker.specs.declared.maker.TheConstants.{MOST_BOUNDS};

use bound_maker::{
    MakeFault, bound_of, change_of, cost_of, first_broken, make, paid_for, paid_of, price_of,
    weight_of, weights_of,
};
use rule_file::{Rules, read_rules};
use screen_model::{Bound, BoundList, BoundName, End, Place, Series, Side};
use series_csv::{Table, read_table};
use std::alloc::Global;
use std::process::Abort;
use std::test::Fail;

const SPEED: &str = "[format]
decimals = 0
[[speed]]
sensor = \"x\"
min = -1
max = 1
per = 1
window = 10
";

const PRICED: &str = "[format]
decimals = 0
[[speed]]
sensor = \"x\"
min = -1
max = 2
per = 1
window = 2
price = 3
";

const SWING: &str = "[format]
decimals = 0
[[swing]]
sensor = \"x\"
most = 5
window = 10
";

const DRIFT: &str = "[format]
decimals = 0
[[drift]]
sensor = \"x\"
min = -1
max = 1
per = 10
over = 10
window = 20
";

const TWO: &str = "[format]
decimals = 0
[[between]]
first = \"out\"
second = \"in\"
min = -2
max = 5
price = 4
[[range]]
sensor = \"in\"
min = 3
max = 50
from = \"1\"
to = \"2\"
[[trust]]
sensor = \"out\"
from = \"2\"
to = \"2\"
[[weight]]
sensor = \"in\"
weight = 5
from = \"0\"
to = \"1\"
[[weight]]
sensor = \"in\"
weight = 7
from = \"1\"
to = \"2\"
";

const MINUTE: &str = "[format]
decimals = 2
form = \"instant\"
[[speed]]
sensor = \"x\"
min = \"-0.05\"
max = \"0.05\"
window = 60
";

const LONG: &str = "[format]
decimals = 0
[[speed]]
sensor = \"x\"
min = -1
max = 1
window = 100000
";

const ALL: &str = "[format]
decimals = 0
[[swing]]
sensor = \"x\"
most = 1
window = 100000
";

/// Readings of two sensors; one row lacks the first.
const ROWS: &str = "time,out,note,in\n0,10,a,20\n1,,b,30\n2,8,,9\n";

/// The bounds that are made: rule, rows, column, side, row and column of both ends, which are 0 for none, and limit.
const STEADY: &str = "0 1 1 2 up: 0 0 to 1 2 at most 1000000000000000
0 1 1 2 down: 1 2 to 0 0 at most 1000000000000000
0 2 2 2 up: 0 0 to 2 2 at most 1000000000000000
0 2 2 2 down: 2 2 to 0 0 at most 1000000000000000
0 3 3 2 up: 0 0 to 3 2 at most 1000000000000000
0 3 3 2 down: 3 2 to 0 0 at most 1000000000000000
1 1 2 2 up: 1 2 to 2 2 at most 1
1 1 2 2 down: 2 2 to 1 2 at most 1
1 2 3 2 up: 2 2 to 3 2 at most 1
1 2 3 2 down: 3 2 to 2 2 at most 1
";

const APART: &str = "0 1 1 2 up: 0 0 to 1 2 at most 1000000000000000
0 1 1 2 down: 1 2 to 0 0 at most 1000000000000000
0 2 2 2 up: 0 0 to 2 2 at most 1000000000000000
0 2 2 2 down: 2 2 to 0 0 at most 1000000000000000
";

const AT_WINDOW: &str = "0 1 1 2 up: 0 0 to 1 2 at most 1000000000000000
0 1 1 2 down: 1 2 to 0 0 at most 1000000000000000
0 2 2 2 up: 0 0 to 2 2 at most 1000000000000000
0 2 2 2 down: 2 2 to 0 0 at most 1000000000000000
1 1 2 2 up: 1 2 to 2 2 at most 10
1 1 2 2 down: 2 2 to 1 2 at most 10
";

const MISSING: &str = "0 1 1 2 up: 0 0 to 1 2 at most 1000000000000000
0 1 1 2 down: 1 2 to 0 0 at most 1000000000000000
0 3 3 2 up: 0 0 to 3 2 at most 1000000000000000
0 3 3 2 down: 3 2 to 0 0 at most 1000000000000000
1 1 3 2 up: 1 2 to 3 2 at most 2
1 1 3 2 down: 3 2 to 1 2 at most 2
";

const EACH_PAIR: &str = "0 1 1 2 up: 0 0 to 1 2 at most 1000000000000000
0 1 1 2 down: 1 2 to 0 0 at most 1000000000000000
0 2 2 2 up: 0 0 to 2 2 at most 1000000000000000
0 2 2 2 down: 2 2 to 0 0 at most 1000000000000000
0 3 3 2 up: 0 0 to 3 2 at most 1000000000000000
0 3 3 2 down: 3 2 to 0 0 at most 1000000000000000
0 4 4 2 up: 0 0 to 4 2 at most 1000000000000000
0 4 4 2 down: 4 2 to 0 0 at most 1000000000000000
1 1 2 2 up: 1 2 to 2 2 at most 2
1 1 2 2 down: 2 2 to 1 2 at most 1
1 1 3 2 up: 1 2 to 3 2 at most 4
1 1 3 2 down: 3 2 to 1 2 at most 2
1 2 3 2 up: 2 2 to 3 2 at most 2
1 2 3 2 down: 3 2 to 2 2 at most 1
1 3 4 2 up: 3 2 to 4 2 at most 4
1 3 4 2 down: 4 2 to 3 2 at most 2
";

const SWINGS: &str = "0 1 1 2 up: 0 0 to 1 2 at most 1000000000000000
0 1 1 2 down: 1 2 to 0 0 at most 1000000000000000
0 2 2 2 up: 0 0 to 2 2 at most 1000000000000000
0 2 2 2 down: 2 2 to 0 0 at most 1000000000000000
0 3 3 2 up: 0 0 to 3 2 at most 1000000000000000
0 3 3 2 down: 3 2 to 0 0 at most 1000000000000000
1 1 2 2 up: 1 2 to 2 2 at most 5
1 1 2 2 down: 2 2 to 1 2 at most 5
1 1 3 2 up: 1 2 to 3 2 at most 5
1 1 3 2 down: 3 2 to 1 2 at most 5
1 2 3 2 up: 2 2 to 3 2 at most 5
1 2 3 2 down: 3 2 to 2 2 at most 5
";

const DRIFTS: &str = "0 1 1 2 up: 0 0 to 1 2 at most 1000000000000000
0 1 1 2 down: 1 2 to 0 0 at most 1000000000000000
0 2 2 2 up: 0 0 to 2 2 at most 1000000000000000
0 2 2 2 down: 2 2 to 0 0 at most 1000000000000000
0 3 3 2 up: 0 0 to 3 2 at most 1000000000000000
0 3 3 2 down: 3 2 to 0 0 at most 1000000000000000
1 1 3 2 up: 1 2 to 3 2 at most 1
1 1 3 2 down: 3 2 to 1 2 at most 1
";

const TWO_BOUNDS: &str = "0 1 1 2 up: 0 0 to 1 2 at most 1000000000000000
0 1 1 2 down: 1 2 to 0 0 at most 1000000000000000
0 1 1 4 up: 0 0 to 1 4 at most 1000000000000000
0 1 1 4 down: 1 4 to 0 0 at most 1000000000000000
0 2 2 4 up: 0 0 to 2 4 at most 1000000000000000
0 2 2 4 down: 2 4 to 0 0 at most 1000000000000000
0 3 3 2 up: 0 0 to 3 2 at most 1000000000000000
0 3 3 2 down: 3 2 to 0 0 at most 1000000000000000
0 3 3 4 up: 0 0 to 3 4 at most 1000000000000000
0 3 3 4 down: 3 4 to 0 0 at most 1000000000000000
1 2 2 4 up: 0 0 to 2 4 at most 50
1 2 2 4 down: 2 4 to 0 0 at most -3
1 3 3 4 up: 0 0 to 3 4 at most 50
1 3 3 4 down: 3 4 to 0 0 at most -3
2 3 3 2 up: 0 0 to 3 2 at most 8
2 3 3 2 down: 3 2 to 0 0 at most -8
5 1 1 2 up: 1 2 to 1 4 at most 5
5 1 1 2 down: 1 4 to 1 2 at most 2
5 3 3 2 up: 3 2 to 3 4 at most 5
5 3 3 2 down: 3 4 to 3 2 at most 2
";

/// Rules, readings, and the bounds that are made.
const MADE: [(&str, &str, &str); 10] = [
    (SPEED, "time,x\n", ""),
    (SPEED, "time,x\n0,10\n1,11\n2,12\n", STEADY),
    (SPEED, "time,x\n0,0\n11,100\n", APART),
    (SPEED, "time,x\n0,0\n10,100\n", AT_WINDOW),
    (SPEED, "time,x\n0,0\n1,\n2,2\n", MISSING),
    (SPEED, "time,x\n0,0\n1,NaN\n2,2\n", MISSING),
    (PRICED, "time,x\n0,1\n1,2\n2,3\n4,4\n", EACH_PAIR),
    (SWING, "time,x\n0,0\n5,4\n10,8\n", SWINGS),
    (DRIFT, "time,x\n0,0\n5,5\n10,9\n", DRIFTS),
    (TWO, ROWS, TWO_BOUNDS),
];

/// The place of an end.
fn place_of(end: End) -> Place {
    match end {
        End::Zero => Place { row: 0, col: 0 },
        End::At(place) => place,
    }
}

/// Both ends and the limit of a bound.
fn ends_text(alloc: Global, bound: &Bound) -> Result<String, Fail> {
    let first = place_of(bound.first);
    let second = place_of(bound.second);
    let limit = bound.limit;
    Ok(format!(in alloc;
        "{} {} to {} {} at most {limit}\n",
        first.row, first.col, second.row, second.col
    )?)
}

/// The name of a bound.
fn name_text(alloc: Global, name: BoundName) -> Result<String, Fail> {
    let side = match name.side {
        Side::Up => "up",
        Side::Down => "down",
    };
    Ok(format!(in alloc;
        "{} {} {} {} {side}: ",
        name.rule, name.from_row, name.to_row, name.col
    )?)
}

/// The bounds as lines.
fn lines_of(alloc: Global, bounds: &[Bound]) -> Result<Vec<u8>, Fail> {
    let mut text = Vec::new(alloc);
    for bound in bounds {
        text.extend_from_slice(name_text(alloc, bound.name)?.as_bytes())?;
        text.extend_from_slice(ends_text(alloc, bound)?.as_bytes())?;
    }
    Ok(text)
}

/// Rules and a table that they read.
fn read(alloc: Global, rules: &str, readings: &[u8]) -> Result<(Rules, Table), Fail> {
    let rules = read_rules(alloc, rules.as_bytes())?;
    let table = read_table(alloc, &rules, readings)?;
    Ok((rules, table))
}

/// Each of the bounds is found by its name.
fn finds(rt: &impl Abort, table: &Table, rules: &Rules, bounds: &[Bound]) {
    for bound in bounds {
        assert_eq!(rt; bound_of(table, rules, bound.name), Some(*bound));
    }
}

/// The rules make these bounds of the readings, and each is found by its name.
fn makes(
    rt: &impl Abort,
    alloc: Global,
    rules: &str,
    readings: &str,
    wanted: &str,
) -> Result<(), Fail> {
    let (rules, table) = read(alloc, rules, readings.as_bytes())?;
    let bounds = make(alloc, &table, &rules)?;
    let lines = lines_of(alloc, bounds.as_slice())?;
    assert_eq!(rt; lines.as_slice(), wanted.as_bytes());
    finds(rt, &table, &rules, bounds.as_slice());
    Ok(())
}

#[test]
fn bounds_of_rules(rt: HostRuntime) -> Result<(), Fail> {
    for (rules, readings, wanted) in MADE {
        makes(&rt, rt.alloc(), rules, readings, wanted)?;
    }
    Ok(())
}

/// Names under the speed rule: rule, rows, column, and on how many sides a bound bears it.
type Named = (u32, u32, u32, u32, usize);

const NAMED: [Named; 15] = [
    (0, 1, 2, 2, 0),
    (0, 2, 2, 2, 2),
    (0, 3, 3, 2, 0),
    (0, 2, 2, 1, 0),
    (0, 5, 5, 2, 0),
    (0, 0, 0, 2, 0),
    (1, 1, 2, 2, 2),
    (1, 2, 1, 2, 0),
    (1, 1, 1, 2, 0),
    (1, 1, 3, 2, 0),
    (1, 1, 4, 2, 0),
    (1, 1, 2, 1, 0),
    (1, 1, 2, 3, 0),
    (2, 1, 2, 2, 0),
    (4_294_967_295, 1, 2, 2, 0),
];

/// Whether there is a bound of this name.
fn is_bound(
    table: &Table,
    rules: &Rules,
    rule: u32,
    rows: (u32, u32),
    col: u32,
    side: Side,
) -> bool {
    let name = BoundName {
        rule,
        from_row: rows.0,
        to_row: rows.1,
        col,
        side,
    };
    bound_of(table, rules, name).is_some()
}

/// How many sides have a bound of this name.
fn sides_of(table: &Table, rules: &Rules, rule: u32, rows: (u32, u32), col: u32) -> usize {
    let up = is_bound(table, rules, rule, rows, col, Side::Up);
    let down = is_bound(table, rules, rule, rows, col, Side::Down);
    usize::from(up).saturating_add(usize::from(down))
}

#[test]
fn names_of_no_bound(rt: HostRuntime) -> Result<(), Fail> {
    let (rules, table) = read(rt.alloc(), SPEED, b"time,x\n0,0\n1,5\n2,\n12,3\n")?;
    for (rule, from, to, col, sides) in NAMED {
        assert_eq!(rt; sides_of(&table, &rules, rule, (from, to), col), sides);
    }
    Ok(())
}

/// The reading of `x` in each second, the same in all rows.
fn still(alloc: Global, rows: u32) -> Result<Vec<u8>, Fail> {
    let mut text = Vec::from_slice(alloc, b"time,x\n")?;
    for second in 0..rows {
        text.extend_from_slice(format!(in alloc; "{second},0\n")?.as_bytes())?;
    }
    Ok(text)
}

/// An hour of such readings, with dates as times.
fn still_hour(alloc: Global) -> Result<Vec<u8>, Fail> {
    let mut text = Vec::from_slice(alloc, b"time,x\n")?;
    for minute in 0..60u32 {
        for second in 0..60u32 {
            let row = format!(in alloc; "2024-05-01T00:{minute:02}:{second:02}Z,0\n")?;
            text.extend_from_slice(row.as_bytes())?;
        }
    }
    Ok(text)
}

/// How many bounds are made, or none where there are too many.
fn count_made(alloc: Global, rules: &str, readings: &[u8]) -> Result<Option<usize>, Fail> {
    let (rules, table) = read(alloc, rules, readings)?;
    match make(alloc, &table, &rules) {
        Ok(bounds) => Ok(Some(bounds.len())),
        Err(MakeFault::TooManyBounds) => Ok(None),
        Err(fault) => Err(fault.into()),
    }
}

const COUNTS: [(&str, u32, Option<usize>); 4] = [
    (LONG, 5_000, Some(19_998)),
    (ALL, 1_999, Some(3_998_000)),
    (ALL, 2_000, None),
    (ALL, 50_000, None),
];

#[test]
fn numbers_of_bounds(rt: HostRuntime) -> Result<(), Fail> {
    let alloc = rt.alloc();
    for (rules, rows, wanted) in COUNTS {
        let readings = still(alloc, rows)?;
        assert_eq!(rt; count_made(alloc, rules, readings.as_slice())?, wanted);
    }
    let hour = still_hour(alloc)?;
    assert_eq!(rt; count_made(alloc, MINUTE, hour.as_slice())?, Some(14_398));
    Ok(())
}

/// How many bounds there are on a row: those of its reading's size, and those of the rule on it and on later rows.
fn count_from(table: &Table, rules: &Rules, from: u32) -> usize {
    let mut count = sides_of(table, rules, 0, (from, from), 2);
    for to in from..from.saturating_add(62) {
        count = count.saturating_add(sides_of(table, rules, 1, (from, to), 2));
    }
    count
}

#[test]
fn names_of_all_pairs(rt: HostRuntime) -> Result<(), Fail> {
    let alloc = rt.alloc();
    let (rules, table) = read(alloc, MINUTE, still_hour(alloc)?.as_slice())?;
    let mut count: usize = 0;
    for from in 1..3_601 {
        count = count.saturating_add(count_from(&table, &rules, from));
    }
    assert_eq!(rt; count, 435_540);
    Ok(())
}

/// Values of a series, its change, what it pays, and the rule, the row and the side of the first bound that is broken.
type Cost = ([i64; 5], i128, i128, Option<(u32, u32, Side)>);

const COSTS: [Cost; 5] = [
    ([10, 20, 30, 8, 9], 0, 20, None),
    ([15, 20, 30, 8, 9], 5, 0, None),
    ([15, 20, 51, 8, 9], 152, 0, Some((1, 2, Side::Up))),
    ([10, 21, 30, 7, 2], 55, 36, Some((1, 3, Side::Down))),
    ([10, 20, 30, 7, 9], 1, 20, Some((2, 3, Side::Down))),
];

/// A series costs and breaks what is wanted.
fn costs(
    rt: &impl Abort,
    table: &Table,
    rules: &Rules,
    bounds: &BoundList,
    series: &Series,
    cost: &Cost,
)
    requires { length bounds.now ≤ MOST_BOUNDS }
{
    assert_eq!(rt; series.len(), table.len() as usize);
    assert_eq!(rt; change_of(table, rules, series), cost.1);
    assert_eq!(rt; paid_of(table, rules, bounds, series), cost.2);
    assert_eq!(rt; paid_for(table, rules, bounds.as_slice(), series), cost.2);
    let none: [Bound; 0] = [];
    assert_eq!(rt; paid_for(table, rules, &none, series), 0);
    assert_eq!(rt;
        cost_of(table, rules, bounds, series),
        cost.1.saturating_add(cost.2)
    );
    let broken = match first_broken(table, rules, bounds, series) {
        Some(name) => Some((name.rule, name.from_row, name.side)),
        None => None,
    };
    assert_eq!(rt; broken, cost.3);
}

/// Each series costs and breaks what is wanted.
fn all_cost(
    rt: &impl Abort,
    alloc: Global,
    table: &Table,
    rules: &Rules,
    bounds: &BoundList,
) -> Result<(), Fail>
    requires { length bounds.now ≤ MOST_BOUNDS }
{
    for cost in &COSTS {
        let series = Series::from_slice(alloc, &cost.0)?;
        costs(rt, table, rules, bounds, &series, cost);
    }
    Ok(())
}

#[test]
fn costs_of_series(rt: HostRuntime) -> Result<(), Fail> {
    let alloc = rt.alloc();
    let (rules, table) = read(alloc, TWO, ROWS.as_bytes())?;
    let bounds = make(alloc, &table, &rules)?;
    all_cost(&rt, alloc, &table, &rules, &bounds)
}

#[test]
fn weights_and_prices(rt: HostRuntime) -> Result<(), Fail> {
    let (rules, table) = read(rt.alloc(), TWO, ROWS.as_bytes())?;
    assert_eq!(rt; table.len(), 5);
    for (i, weight) in [(0, 1), (1, 5), (2, 7), (3, 1), (4, 7)] {
        assert!(rt; i < table.len());
        assert_eq!(rt; weight_of(&table, &rules, i), weight);
    }
    for (rule, price) in [(0, 0), (1, 0), (2, 0), (3, 0), (4, 0), (5, 4), (6, 0)] {
        assert_eq!(rt; price_of(&rules, rule), price);
    }
    Ok(())
}

/// Weight rules of two sensors that begin, end and overlap between readings, or go on for ever.
const WEIGHTS: &str = "[format]
decimals = 0
[[weight]]
sensor = \"x\"
weight = 5
from = 2
to = 4
[[weight]]
sensor = \"y\"
weight = 3
[[weight]]
sensor = \"x\"
weight = 7
from = 4
to = 6
[[weight]]
sensor = \"x\"
weight = 1000
to = 0
[[weight]]
sensor = \"y\"
weight = 2
from = 5
";

/// Rules, readings, and the weights of these in their order.
const WEIGHED: [(&str, &str, &[u32]); 5] = [
    (SPEED, "time,x\n", &[]),
    (SPEED, "time,x\n0,1\n1,2\n5,\n9,3\n", &[1, 1, 1]),
    (WEIGHTS, "time,x,y\n", &[]),
    (WEIGHTS, "time,x,y\n0,,\n3,,1\n4,9,\n", &[3, 7]),
    (
        WEIGHTS,
        "time,x,y\n0,1,1\n2,1,1\n3,1,\n4,1,1\n5,1,1\n7,1,1\n",
        &[1000, 3, 5, 3, 5, 7, 3, 7, 2, 1, 2],
    ),
];

#[test]
fn weights_of_all_readings(rt: HostRuntime) -> Result<(), Fail> {
    for (rules, readings, wanted) in WEIGHED {
        let (rules, table) = read(rt.alloc(), rules, readings.as_bytes())?;
        let weights = weights_of(rt.alloc(), &table, &rules)?;
        assert_eq!(rt; weights.as_slice(), wanted);
        for i in 0..table.len() {
            assert_eq!(rt;
                weights.get(i as usize).copied(),
                Some(weight_of(&table, &rules, i))
            );
        }
    }
    Ok(())
}
