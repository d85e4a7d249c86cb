//! Files that are repaired as they come: whole, in pieces, and cut at each place.

ghost use Rattle.std.specs.Prelude.{IfOk};
ghost use Rattle.online_repair.specs.StandsFor.{HasEnded};

use crate::plain_repair::as_plain;
use crate::texts::{at, numbers, say, say_comma, say_number, text_of, told, told_number};
use crate::turns::say_key;
use crate::windows::try_median;
use case_file::{Answers, Settings};
use online_repair::{Online, OnlineFault};
use order_window::Key;
use rule_file::{Rules, read_rules};
use screen_io::{HonestSource, read_all};
use series_csv::TableFault;
use std::alloc::{AllocError, Global};

/// Repairs of streams.
pub struct Streams;

impl Answers for Streams {
    fn answer(
        &self,
        alloc: Global,
        settings: &Settings,
        key: &str,
        input: &[u8],
    ) -> Result<Vec<u8>, AllocError> {
        let Ok(rules) = read_rules(alloc, settings.bytes("rules")) else {
            return told(alloc, "the rules are refused");
        };
        match key {
            "repair" => repair(alloc, &rules, input),
            "read_whole" => read_whole(alloc, &rules, input),
            "start" => started(alloc, &rules),
            "sample" => as_plain(alloc, numbers(alloc, text_of(input))?.as_slice()),
            _ => after_feeding(alloc, &rules, settings, key, input),
        }
    }
}

/// A repair that takes pieces.
fn start<'a>(alloc: Global, rules: &'a Rules) -> Result<Online<'a>, OnlineFault>
    ensures { IfOk result (λ online. ¬ HasEnded online) }
{
    Online::start(alloc, rules)
}

/// Feeds a file in pieces of so many bytes.
fn feed_pieces(
    online: &mut Online<'_>,
    file: &[u8],
    size: usize,
    out: &mut Vec<u8>,
) -> Result<(), OnlineFault>
    requires { ¬ HasEnded online.old }
    ensures { ¬ HasEnded online.new }
{
    for piece in file.chunks(size.max(1)) {
        online.feed(piece, out)?;
    }
    Ok(())
}

/// Feeds a file in pieces of so many bytes, and tells its end.
pub(crate) fn in_pieces(
    alloc: Global,
    rules: &Rules,
    file: &[u8],
    size: usize,
    out: &mut Vec<u8>,
) -> Result<(), OnlineFault> {
    let mut online = start(alloc, rules)?;
    feed_pieces(&mut online, file, size, out)?;
    online.finish(out)
}

/// Feeds a file in two parts, and tells its end.
fn in_parts(
    alloc: Global,
    rules: &Rules,
    first: &[u8],
    second: &[u8],
    out: &mut Vec<u8>,
) -> Result<(), OnlineFault> {
    let mut online = start(alloc, rules)?;
    online.feed(first, out)?;
    online.feed(second, out)?;
    online.finish(out)
}

/// Adds a refusal to what was written before it.
fn with_fault(
    alloc: Global,
    out: Vec<u8>,
    ended: Result<(), OnlineFault>,
) -> Result<Vec<u8>, AllocError> {
    let mut out = out;
    if let Err(fault) = ended {
        say_fault(&mut out, alloc, fault)?;
    }
    Ok(out)
}

/// Adds a refusal: why, and where.
fn say_fault(answer: &mut Vec<u8>, alloc: Global, fault: OnlineFault) -> Result<(), AllocError> {
    match fault {
        OnlineFault::Table(fault) => say_table_fault(answer, alloc, fault),
        OnlineFault::NotOnline { rule } => say_place(answer, alloc, "NotOnline rule", rule, 0),
        OnlineFault::WindowFull { row } => say_place(answer, alloc, "WindowFull row", row, 0),
        OnlineFault::NoWholeStep { row, col } => {
            say_place(answer, alloc, "NoWholeStep row", row, col)
        }
        OnlineFault::LeavesRange { row, col } => {
            say_place(answer, alloc, "LeavesRange row", row, col)
        }
        OnlineFault::Memory => Err(AllocError),
    }
}

/// Adds a refusal of a readings file.
fn say_table_fault(
    answer: &mut Vec<u8>,
    alloc: Global,
    fault: TableFault,
) -> Result<(), AllocError> {
    let cause = fault.cause;
    say(answer, format!(in alloc; "{cause:?}")?.as_str())?;
    say_place(answer, alloc, " row", fault.row, fault.col)
}

/// Adds a text with a row or a rule, and a column where there is one.
fn say_place(
    answer: &mut Vec<u8>,
    alloc: Global,
    text: &str,
    row: u32,
    col: u32,
) -> Result<(), AllocError> {
    say(answer, text)?;
    say(answer, " ")?;
    say_number(answer, alloc, i128::from(row))?;
    if col == 0 {
        return Ok(());
    }
    say(answer, " column ")?;
    say_number(answer, alloc, i128::from(col))
}

/// What is written for a file, and its refusal; and whether it is the same in pieces, and cut at each place.
fn repair(alloc: Global, rules: &Rules, file: &[u8]) -> Result<Vec<u8>, AllocError> {
    let mut out = Vec::new(alloc);
    let ended = in_pieces(alloc, rules, file, 1_000, &mut out);
    let mut answer = with_fault(alloc, out, ended)?;
    let same = same_in_pieces(alloc, rules, file, answer.as_slice())?
        && same_where_cut(alloc, rules, file, answer.as_slice())?;
    if !same {
        say(&mut answer, ", but another in pieces")?;
    }
    Ok(answer)
}

/// Whether a file comes to this answer in pieces of 1 to 7 bytes.
fn same_in_pieces(
    alloc: Global,
    rules: &Rules,
    file: &[u8],
    answer: &[u8],
) -> Result<bool, AllocError> {
    for size in 1..8 {
        let mut out = Vec::new(alloc);
        let ended = in_pieces(alloc, rules, file, size, &mut out);
        if with_fault(alloc, out, ended)?.as_slice() != answer {
            return Ok(false);
        }
    }
    Ok(true)
}

/// Whether a file comes to this answer in two parts, wherever it is cut.
fn same_where_cut(
    alloc: Global,
    rules: &Rules,
    file: &[u8],
    answer: &[u8],
) -> Result<bool, AllocError> {
    for place in 0..=file.len() {
        let mut out = Vec::new(alloc);
        let ended = in_parts(alloc, rules, &file[..place], &file[place..], &mut out);
        if with_fault(alloc, out, ended)?.as_slice() != answer {
            return Ok(false);
        }
    }
    Ok(true)
}

/// What is written for a file that was read whole before.
fn read_whole(alloc: Global, rules: &Rules, input: &[u8]) -> Result<Vec<u8>, AllocError> {
    let mut source = HonestSource::new(input.to_vec(alloc)?);
    let Ok(file) = read_all(alloc, &mut source, 100) else {
        return told(alloc, "not read");
    };
    repair(alloc, rules, file.as_slice())
}

/// Whether the rules are taken.
fn started(alloc: Global, rules: &Rules) -> Result<Vec<u8>, AllocError> {
    let mut answer = Vec::new(alloc);
    match Online::start(alloc, rules) {
        Ok(_online) => say(&mut answer, "started")?,
        Err(fault) => say_fault(&mut answer, alloc, fault)?,
    }
    Ok(answer)
}

/// What this key asks once the bytes `fed` have come.
fn after_feeding(
    alloc: Global,
    rules: &Rules,
    settings: &Settings,
    key: &str,
    input: &[u8],
) -> Result<Vec<u8>, AllocError> {
    let mut out = Vec::new(alloc);
    let Ok(mut online) = start(alloc, rules) else {
        return told(alloc, "not started");
    };
    let fed = online.feed(settings.bytes("fed"), &mut out);
    match key {
        "written" => with_fault(alloc, out, fed),
        "then" => then(alloc, &mut online, input),
        "held" => told_number(alloc, Some(i128::from(online.held()))),
        "held_at_end" => held_at_end(alloc, &mut online),
        _ => of_window(
            alloc,
            &online,
            key,
            numbers(alloc, text_of(input))?.as_slice(),
        ),
    }
}

/// What is written for one more piece, and then at the end where the piece is refused.
fn then(alloc: Global, online: &mut Online<'_>, piece: &[u8]) -> Result<Vec<u8>, AllocError>
    requires { ¬ HasEnded online.old }
{
    let mut out = Vec::new(alloc);
    let fed = online.feed(piece, &mut out);
    let is_refused = fed.is_err();
    let mut answer = with_fault(alloc, out, fed)?;
    if is_refused {
        say_comma(&mut answer)?;
        let ended = online.finish(&mut answer);
        return with_fault(alloc, answer, ended);
    }
    Ok(answer)
}

/// How many rows are held once the end was told.
fn held_at_end(alloc: Global, online: &mut Online<'_>) -> Result<Vec<u8>, AllocError>
    requires { ¬ HasEnded online.old }
{
    let mut out = Vec::new(alloc);
    match online.finish(&mut out) {
        Ok(()) => told_number(alloc, Some(i128::from(online.held()))),
        Err(_) => told(alloc, "refused"),
    }
}

/// What this key asks of the window of a column: whether it is there, its keys, or the median of a reading before them.
fn of_window(
    alloc: Global,
    online: &Online<'_>,
    key: &str,
    list: &[i64],
) -> Result<Vec<u8>, AllocError> {
    let Some(window) = online.window(u32::try_from(at(list, 0)).unwrap_or(0)) else {
        return told(alloc, "no window");
    };
    match key {
        "window" => told(alloc, "a window"),
        "keys" => told_keys(alloc, window.keys()),
        "median" => {
            let own = Key {
                value: at(list, 1),
                ticks: at(list, 2),
            };
            told_number(alloc, try_median(window, own).map(i128::from))
        }
        _ => told(alloc, "no such key"),
    }
}

/// Keys, each a value and its ticks.
fn told_keys(alloc: Global, keys: &[Key]) -> Result<Vec<u8>, AllocError> {
    let mut answer = Vec::new(alloc);
    for key in keys {
        say_comma(&mut answer)?;
        say_key(&mut answer, alloc, Some(*key))?;
    }
    Ok(answer)
}
