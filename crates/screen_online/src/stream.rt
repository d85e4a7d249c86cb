//! The command `online`: it repairs readings as they come, and writes each row as soon as it is ready.
ghost use Rattle.std.specs.Prelude.{◌≡◌, ◌≢◌, ◌<◌, ◌≤◌, List, [], ℕ, true, false, take, IfOk, OnOk, OnErr};
ghost use Rattle.online_repair.specs.StandsFor.{HasEnded, StandsFor};
ghost use Rattle.rule_file.specs.declared.rules.Rules.{Rules};
ghost use Rattle.screen_io.specs.Faults.{Rose};
ghost use Rattle.screen_io.specs.Source.{IsAtEnd, Takes};
ghost use Rattle.screen_online.specs.Online.{PerformsOnline};
ghost use Rattle.screen_online.specs.Steps.{Hands, HandsOn, Repairs};
ghost use Rattle.series_rows.specs.Faults.{of_the_file};

use online_repair::{Online, OnlineFault};
use rule_file::Rules;
use screen_io::{Failed, Sink, Source, write_all_of};
use screen_steps::rules_from;
use screen_words::{Ending, Inputs, Outcome, Outputs};
use series_csv::{TableCause, TableFault};
use std::alloc::Global;

/// The most bytes of readings: 2^40.
pub const MOST_BYTES: u64 = 1 << 40;

/// How many bytes a call asks for at most.
pub const PIECE: usize = 64 * 1024;

/// Reads the rules, and then the readings piece by piece. What is ready after a piece is written before the next is read.
pub fn online<S: Source, K: Sink>(
    alloc: Global,
    ins: &mut Inputs<S>,
    outs: &mut Outputs<K>,
) -> Ending
    ensures performs { PerformsOnline S.left S.faults K.held K.faults ins.old ins.new outs.old outs.new result }
    ensures no_usage { result ≢ Ending.Ended Outcome.Usage }
    ensures note { outs.new.note ≡ outs.old.note }
{
    let rules = match rules_from(alloc, &mut ins.rules) {
        Ok(rules) => rules,
        Err(fault) => return Ending::from(fault),
    };
    match repair_all(alloc, &rules, &mut ins.readings, &mut outs.out) {
        Ok(()) => Ending::Ended(Outcome::Done),
        Err(ending) => ending,
    }
}

/// Repairs the readings by accepted rules.
fn repair_all<S: Source, K: Sink>(
    alloc: Global,
    rules: &Rules,
    readings: &mut S,
    out: &mut K,
) -> Result<(), Ending>
    ensures { Repairs S.left S.faults K.held K.faults rules.now readings.old readings.new out.old out.new result }
{
    let mut online = match Online::start(alloc, rules) {
        Ok(online) => online,
        Err(fault) => return Err(Ending::from(fault)),
    };
    let mut piece = [0u8; PIECE];
    let mut text = Vec::new(alloc);
    let mut room = MOST_BYTES;
    while room > 0 {
        let count = match read_piece(readings, &mut piece, room) {
            Ok(count) => count,
            Err(Failed) => return Err(Ending::ReadFault),
        };
        if count == 0 {
            return finish(&mut online, &mut text, out);
        }
        match feed(&mut online, &piece[..count], &mut text, out) {
            Ok(()) => room -= count as u64,
            Err(ending) => return Err(ending),
        }
    }
    // As many bytes came as may: the readings have ended with them, or there are too many.
    match read_piece(readings, &mut piece, 1) {
        Ok(0) => finish(&mut online, &mut text, out),
        Ok(_) => Err(too_many_bytes()),
        Err(Failed) => Err(Ending::ReadFault),
    }
}

/// Reads the next bytes into the front of a piece, of which no more than `room` are wanted, and answers how many came.
fn read_piece<S: Source>(
    readings: &mut S,
    piece: &mut [u8; PIECE],
    room: u64,
) -> Result<usize, Failed>
    requires { 0 < room }
    ensures room { IfOk result (λ count. count ≤ room) }
    ensures piece { IfOk result (λ count. count ≤ PIECE) }
    ensures taken { IfOk result (λ count. Takes (S.left readings.old) (take count piece.new) (S.left readings.new)) }
    ensures at_end { IfOk result (λ count. count ≡ 0 → IsAtEnd (S.left readings.new)) }
    ensures unfailed { OnOk result (S.faults readings.new ≡ S.faults readings.old) }
    ensures kept { OnErr result (S.left readings.new ≡ S.left readings.old) }
    ensures failed { OnErr result (Rose (S.faults readings.old) (S.faults readings.new)) }
{
    let wanted = wanted_of(room);
    readings.read(&mut piece[..wanted])
}

/// How many bytes to ask for where no more than `room` are wanted.
fn wanted_of(room: u64) -> usize
    requires { 0 < room }
    ensures some { 0 < result }
    ensures piece { result ≤ PIECE }
    ensures room { result ≤ room }
{
    if room < PIECE as u64 {
        room as usize
    } else {
        PIECE
    }
}

/// Feeds a piece to the repair, and writes what is ready by it.
fn feed<K: Sink>(
    online: &mut Online<'_>,
    piece: &[u8],
    text: &mut Vec<u8>,
    out: &mut K,
) -> Result<(), Ending>
    requires { ¬ HasEnded online.old }
    ensures { (rules : Rules) (came : List ℕ) → StandsFor online.old rules false came
        → Hands K.held K.faults rules false came piece.now online.new text.new.items out.old out.new result }
{
    text.clear();
    let fed = online.feed(piece, text);
    write_ready(fed, text.as_slice(), out)
}

/// Tells the repair that the readings have ended, and writes the rest.
fn finish<K: Sink>(online: &mut Online<'_>, text: &mut Vec<u8>, out: &mut K) -> Result<(), Ending>
    requires { ¬ HasEnded online.old }
    ensures { (rules : Rules) (came : List ℕ) → StandsFor online.old rules false came
        → Hands K.held K.faults rules true came [] online.new text.new.items out.old out.new result }
{
    text.clear();
    let ended = online.finish(text);
    write_ready(ended, text.as_slice(), out)
}

/// Writes what is ready, and hands on what the repair answered. Where memory ran out nothing is written.
fn write_ready<K: Sink>(
    answer: Result<(), OnlineFault>,
    text: &[u8],
    out: &mut K,
) -> Result<(), Ending>
    ensures { HandsOn K.held K.faults answer text.now out.old out.new result }
{
    match answer {
        Err(fault) if fault == OnlineFault::Memory => Err(Ending::Memory),
        Err(fault) => match write_all_of(out, text) {
            Ok(()) => Err(Ending::from(fault)),
            Err(Failed) => Err(Ending::WriteFault),
        },
        Ok(()) => match write_all_of(out, text) {
            Ok(()) => Ok(()),
            Err(Failed) => Err(Ending::WriteFault),
        },
    }
}

/// More bytes of readings came than may.
fn too_many_bytes() -> Ending
    ensures { result ≡ Ending.Ended (Outcome.ReadingsRefused (of_the_file TableCause.FileTooLong)) }
{
    Ending::Ended(Outcome::ReadingsRefused(TableFault::too_long()))
}
