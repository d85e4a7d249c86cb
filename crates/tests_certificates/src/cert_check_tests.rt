//! Certificates that are accepted and refused.
ghost use Rattle.std.specs.Prelude.{◌≡◌, ◌≤◌, length};
ghost use Rattle.bound_maker.specs.Bounds.{made_bounds};
ghost use Rattle.bound_maker.specs.declared.maker.TheConstants.{MOST_BOUNDS};

use bound_maker::make;
use cert_check::{Accepted, CertFault, check};
use rule_file::{Rules, read_rules};
use screen_model::{BoundName, Place, Side};
use series_csv::{Table, read_table};
use std::alloc::Global;
use std::process::Abort;
use std::test::Fail;

const SPEED: &str = "[format]
decimals = 0
[[speed]]
sensor = \"x\"
min = -1
max = 1
per = 1
window = 10
";

const RISING: &str = "[format]
decimals = 0
[[speed]]
sensor = \"x\"
min = 1
max = 1
per = 1
window = 10
";

const TRUSTED: &str = "[format]
decimals = 0
[[speed]]
sensor = \"x\"
min = -1
max = 1
per = 1
window = 10
[[trust]]
sensor = \"x\"
";

const PRICED: &str = "[format]
decimals = 0
[[speed]]
sensor = \"x\"
min = -1
max = 1
per = 1
window = 10
price = 1
[[weight]]
sensor = \"x\"
weight = 5
";

const PRICED_TRUSTED: &str = "[format]
decimals = 0
[[speed]]
sensor = \"x\"
min = -1
max = 1
per = 1
window = 10
price = 2
[[trust]]
sensor = \"x\"
";

const STEADY: &str = "time,x\n0,10\n1,11\n2,12\n";

const SPIKE: &str = "time,x\n0,10\n1,11\n2,20\n3,13\n";

const STILL: &str = "time,x\n0,0\n1,0\n";

const JUMP: &str = "time,x\n0,0\n1,100\n";

/// What a certificate is accepted as, or why it is refused.
#[derive(Clone, Copy, Debug, PartialEq, Eq)]
enum Answer {
    /// A repair, of this total and so much paid.
    Repair(i128, i128),
    /// A cycle of so many steps.
    Cycle(usize),
    /// A refusal.
    Refused(CertFault),
}

use Answer::{Cycle, Refused, Repair};
use CertFault::{
    Broken, CycleOpen, CycleSum, OverPrice, PaidWrong, PricedStep, PullTooGreat, SetOutside,
    Syntax, TotalWrong, UnknownBound, ValueDiffers,
};

/// Rules and a table that they read.
fn read(alloc: Global, rules: &str, readings: &str) -> Result<(Rules, Table), Fail> {
    let rules = read_rules(alloc, rules.as_bytes())?;
    let table = read_table(alloc, &rules, readings.as_bytes())?;
    Ok((rules, table))
}

/// What the check answers.
fn checked(alloc: Global, rules: &str, readings: &str, text: &str) -> Result<Answer, Fail> {
    let (rules, table) = read(alloc, rules, readings)?;
    let bounds = make(alloc, &table, &rules)?;
    match check(alloc, &table, &rules, &bounds, text.as_bytes()) {
        Ok(Accepted::Repair { total, paid, .. }) => Ok(Repair(total, paid)),
        Ok(Accepted::NoSeries { cycle }) => Ok(Cycle(cycle.len())),
        Err(fault) => Ok(Refused(fault)),
    }
}

/// A name in column 2, of a bound up.
const fn up(rule: u32, from_row: u32, to_row: u32) -> BoundName {
    BoundName {
        rule,
        from_row,
        to_row,
        col: 2,
        side: Side::Up,
    }
}

type Case = (&'static str, &'static str, &'static str, Answer);

const BROKEN: BoundName = BoundName {
    rule: 1,
    from_row: 2,
    to_row: 3,
    col: 2,
    side: Side::Up,
};

const LEFT: Place = Place { row: 2, col: 2 };

const CASES: [Case; 34] = [
    (
        SPEED,
        STEADY,
        "screen-cert 1\nclaim repair\ntotal 0\nend\n",
        Repair(0, 0),
    ),
    (
        SPEED,
        SPIKE,
        "screen-cert 1\nclaim repair\ntotal 8\nset 3 2 12\nflow 1 2 3 2 up 1\nend\n",
        Repair(8, 0),
    ),
    (
        SPEED,
        SPIKE,
        "screen-cert 1\nclaim repair\ntotal 8\nset 3 2 12\nflow 1 1 3 2 up 1\nend\n",
        Repair(8, 0),
    ),
    (
        SPEED,
        SPIKE,
        "screen-cert 2\nclaim repair\ntotal 8\npaid 0\nset 3 2 12\nflow 1 2 3 2 up 1\nend\n",
        Repair(8, 0),
    ),
    (
        SPEED,
        SPIKE,
        "screen-cert 2\nclaim repair\ntotal 8\npaid 1\nset 3 2 12\nflow 1 2 3 2 up 1\nend\n",
        Refused(PaidWrong { given: 1, truth: 0 }),
    ),
    (
        SPEED,
        SPIKE,
        "screen-cert 1\nclaim repair\ntotal 8\nset 3 2 12\nflow 1 2 3 2 up 2\nend\n",
        Refused(PullTooGreat { place: LEFT }),
    ),
    (
        SPEED,
        SPIKE,
        "screen-cert 1\nclaim repair\ntotal 7\nset 3 2 12\nflow 1 2 3 2 up 1\nend\n",
        Refused(TotalWrong { given: 7, truth: 8 }),
    ),
    (
        SPEED,
        SPIKE,
        "screen-cert 1\nclaim repair\ntotal 8\nset 3 2 12\nend\n",
        Refused(ValueDiffers { value: 0, total: 8 }),
    ),
    (
        SPEED,
        SPIKE,
        "screen-cert 1\nclaim repair\ntotal 8\nset 9 2 12\nflow 1 2 3 2 up 1\nend\n",
        Refused(SetOutside { line: 4 }),
    ),
    (
        SPEED,
        SPIKE,
        "screen-cert 1\nclaim repair\ntotal 8\nset 3 2 20\nflow 1 2 3 2 up 1\nend\n",
        Refused(SetOutside { line: 4 }),
    ),
    (
        SPEED,
        SPIKE,
        "screen-cert 2\nclaim repair\ntotal 8\npaid 0\nset 1 2 9\nset 3 2 20\nflow 1 2 9 2 up 1\nend\n",
        Refused(SetOutside { line: 6 }),
    ),
    (
        SPEED,
        SPIKE,
        "screen-cert 1\nclaim repair\ntotal 8\nset 3 2 12\nflow 1 2 9 2 up 1\nend\n",
        Refused(UnknownBound { line: 5 }),
    ),
    (
        SPEED,
        SPIKE,
        "screen-cert 2\nclaim repair\ntotal 8\npaid 0\nset 3 2 12\nflow 0 1 1 2 up 1\nflow 1 2 9 2 up 1\nend\n",
        Refused(UnknownBound { line: 7 }),
    ),
    (
        SPEED,
        SPIKE,
        "screen-cert 1\nclaim repair\ntotal 0\nend\n",
        Refused(Broken { name: BROKEN }),
    ),
    (
        SPEED,
        SPIKE,
        "screen-cert 1\nclaim repair\ntotal 8\nset 3 2 12\nflow 1 2 3 2 up 1\n",
        Refused(Syntax { line: 6 }),
    ),
    (
        SPEED,
        SPIKE,
        "screen-cert 1\nclaim repair\ntotal 8\nset 3 2 12\nflow 1 2 3 2 up 1\nflow 1 2 3 2 up 1\nend\n",
        Refused(Syntax { line: 6 }),
    ),
    (SPEED, SPIKE, "", Refused(Syntax { line: 1 })),
    (
        SPEED,
        STEADY,
        "screen-cert 1\nclaim none\nstep 1 1 2 2 up\nend\n",
        Refused(CycleOpen { line: 3 }),
    ),
    (
        SPEED,
        STEADY,
        "screen-cert 1\nclaim none\nstep 1 1 2 2 up\nstep 1 1 2 2 down\nend\n",
        Refused(CycleSum { sum: 2 }),
    ),
    (
        SPEED,
        STEADY,
        "screen-cert 1\nclaim none\nstep 1 1 2 2 up\nstep 1 1 2 2 down\nstep 1 1 2 2 up\nstep 1 1 2 2 down\nend\n",
        Refused(CycleOpen { line: 5 }),
    ),
    (
        SPEED,
        STEADY,
        "screen-cert 1\nclaim none\nstep 1 1 2 2 up\nstep 1 1 9 2 down\nend\n",
        Refused(UnknownBound { line: 4 }),
    ),
    (
        SPEED,
        STEADY,
        "screen-cert 1\nclaim none\nstep 0 1 1 2 up\nstep 0 1 1 2 down\nstep 0 2 2 2 up\nstep 0 2 2 2 down\nend\n",
        Refused(CycleOpen { line: 5 }),
    ),
    (
        RISING,
        STILL,
        "screen-cert 1\nclaim none\nstep 1 1 2 2 up\nstep 1 1 2 2 down\nend\n",
        Refused(CycleSum { sum: 0 }),
    ),
    (
        TRUSTED,
        JUMP,
        "screen-cert 1\nclaim none\nstep 2 1 1 2 up\nstep 1 1 2 2 up\nstep 2 2 2 2 down\nend\n",
        Cycle(3),
    ),
    (
        TRUSTED,
        JUMP,
        "screen-cert 1\nclaim none\nstep 1 1 2 2 up\nstep 2 2 2 2 down\nstep 2 1 1 2 up\nend\n",
        Cycle(3),
    ),
    (
        TRUSTED,
        JUMP,
        "screen-cert 1\nclaim none\nstep 2 2 2 2 down\nstep 2 1 1 2 up\nstep 1 1 2 2 up\nend\n",
        Cycle(3),
    ),
    (
        PRICED,
        JUMP,
        "screen-cert 2\nclaim repair\ntotal 99\npaid 99\nflow 1 1 2 2 up 1\nend\n",
        Repair(99, 99),
    ),
    (
        PRICED,
        JUMP,
        "screen-cert 2\nclaim repair\ntotal 99\npaid 99\nflow 1 1 2 2 up 2\nend\n",
        Refused(OverPrice { line: 5 }),
    ),
    (
        PRICED,
        JUMP,
        "screen-cert 2\nclaim repair\ntotal 99\npaid 98\nflow 1 1 2 2 up 1\nend\n",
        Refused(PaidWrong {
            given: 98,
            truth: 99,
        }),
    ),
    (
        PRICED,
        JUMP,
        "screen-cert 1\nclaim repair\ntotal 99\nflow 1 1 2 2 up 1\nend\n",
        Repair(99, 99),
    ),
    (
        PRICED,
        JUMP,
        "screen-cert 1\nclaim repair\ntotal 99\nflow 1 1 2 2 up 2\nflow 1 1 9 2 up 1\nend\n",
        Refused(UnknownBound { line: 5 }),
    ),
    (
        PRICED_TRUSTED,
        JUMP,
        "screen-cert 1\nclaim none\nstep 2 1 1 2 up\nstep 1 1 2 2 up\nstep 2 2 2 2 down\nend\n",
        Refused(PricedStep { line: 4 }),
    ),
    (
        PRICED_TRUSTED,
        JUMP,
        "screen-cert 1\nclaim none\nstep 1 1 2 2 up\nstep 2 2 2 2 down\nstep 2 1 1 2 up\nend\n",
        Refused(PricedStep { line: 3 }),
    ),
    (
        PRICED_TRUSTED,
        JUMP,
        "screen-cert 1\nclaim none\nstep 2 2 2 2 down\nstep 2 1 1 2 up\nstep 1 1 2 2 up\nend\n",
        Refused(PricedStep { line: 5 }),
    ),
];

#[test]
fn certificates_and_their_answers(rt: HostRuntime) -> Result<(), Fail> {
    for (rules, readings, text, wanted) in CASES {
        assert_eq!(rt; checked(rt.alloc(), rules, readings, text)?, wanted);
    }
    Ok(())
}
