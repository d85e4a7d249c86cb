//! Rows that are accepted, held, repaired and written.
ghost use Rattle.std.specs.Prelude.{◌≡◌, ◌<◌, ◌≤◌, [], ◌∷◌, ◌++◌, List, length, MatchOption, None};
ghost use Rattle.series_rows.specs.Header.{HeaderView};
ghost use Rattle.series_rows.specs.Row.{RowView};
ghost use Rattle.online_repair.specs.Accepted.{greatest_window};
ghost use Rattle.online_repair.specs.Engines.{CanWrite, HasLeft, Leaves, Stands, WritesOldest, WritesRow, WritesRows, due_part, first_due, first_large, is_full_at, rest_part};
ghost use Rattle.circular_buffer.specs.Buffer.{buffer};
ghost use Rattle.online_repair.specs.Keeping.{Accepts, CanAccept, Ends, HasKept, IsNext, KeepsRows};
ghost use Rattle.online_repair.specs.Sensors.{IsWindowOf, place_in};
ghost use Rattle.online_repair.specs.Storing.{CanStore, MayStore, Stores};

use crate::fault::OnlineFault;
use crate::sensors::{place_of, repair_row, see, tracks_of, without_step};
use crate::track::{Track, is_past, is_small};
use circular_buffer::HeapCircularBuffer;
use order_window::OrderWindow;
use rule_file::{Rules, SpeedRule};
use series_csv::{Header, MOST_COLUMNS, Row, RowReading, push_row_with};
use std::alloc::{AllocError, Global};

/// What the repair of a file keeps after its header.
#[derive(Drop)]
pub(crate) struct Engine {
    /// The greatest window, in ticks.
    pub(crate) most: i64,
    /// The repairs of the sensors.
    pub(crate) tracks: Vec<Track>,
    /// The rows that are held.
    pub(crate) held: HeapCircularBuffer<Row>,
    /// How many rows were written.
    pub(crate) written: u32,
    /// The values of the row that is being repaired.
    pub(crate) values: Vec<i64>,
}

/// The greatest window of speed rules; 0 where there is none.
fn greatest_window(speeds: &[SpeedRule]) -> i64
    ensures { result ≡ greatest_window speeds.now }
{
    let mut most = 0;
    for rule in speeds {
        most = rule.window.max(most);
    }
    most
}

impl Engine {
    ghost use Rattle.std.specs.Prelude.{IfOk, []};
    ghost use Rattle.online_repair.specs.Keeping.{KeepsRows};

    /// No row was accepted.
    pub(crate) fn new(alloc: Global, rules: &Rules, header: &Header) -> Result<Engine, AllocError>
        ensures { IfOk result (λ engine. KeepsRows rules.now header.now [] engine) }
    {
        Ok(Engine {
            most: greatest_window(rules.speeds.as_slice()),
            tracks: tracks_of(alloc, rules, header)?,
            held: HeapCircularBuffer::with_capacity(alloc, rules.format.hold as usize)?,
            written: 0,
            values: Vec::with_capacity(alloc, MOST_COLUMNS as usize)?,
        })
    }
}

/// Accepts a row, and writes those that become ready.
pub(crate) fn accept(
    engine: &mut Engine,
    rules: &Rules,
    row: Row,
    out: &mut Vec<u8>,
) -> Result<(), OnlineFault>
    requires { CanAccept rules.now row engine.old }
    ensures { (header : HeaderView) (accepted : List RowView) (keeps : KeepsRows rules.now header accepted engine.old) → IsNext accepted row
        → Accepts rules.now header accepted row result engine.old keeps engine.new out.old.items out.new.items }
{
    let number = engine.written + engine.held.len() as u32 + 1;
    if is_full(&engine.held, engine.most, row.ticks()) {
        return Err(OnlineFault::WindowFull { row: number });
    }
    if let Some(col) = without_step(&mut engine.tracks, &row) {
        return Err(OnlineFault::NoWholeStep { row: number, col });
    }
    store(engine, rules, row, out)
}

/// Writes the rows that a row makes ready, and holds it.
fn store(engine: &mut Engine, rules: &Rules, row: Row, out: &mut Vec<u8>) -> Result<(), OnlineFault>
    requires { CanStore rules.now row engine.old }
    ensures { (header : HeaderView) (before : List RowView) → MayStore rules.now header before row engine.old
        → Stores rules.now header before row result engine.old engine.new out.old.items out.new.items }
{
    see(&mut engine.tracks, &row);
    match write_ready(engine, rules, row.ticks(), out) {
        Ok(()) => {}
        Err(fault) => return Err(fault),
    }
    hold(&mut engine.held, row);
    Ok(())
}

/// Holds a row after the others.
fn hold(held: &mut HeapCircularBuffer<Row>, row: Row)
    requires { length held.old.items < held.old.capacity }
    ensures { held.new ≡ buffer (held.old.items ++ row ∷ []) held.old.capacity }
{
    let _ = held.try_push_back(row);
}

/// Whether as many rows are held as may be, and a time lies no more than the greatest window past the oldest of them.
fn is_full(held: &HeapCircularBuffer<Row>, most: i64, now: i64) -> bool
    requires { length held.now.items ≤ held.now.capacity }
    ensures { result ≡ is_full_at held.now.capacity most held.now.items now }
{
    match held.front() {
        Some(oldest) => held.is_full() && !is_past(most, oldest.ticks(), now),
        None => false,
    }
}

/// Writes the rows that a row at this time makes ready.
fn write_ready(
    engine: &mut Engine,
    rules: &Rules,
    now: i64,
    out: &mut Vec<u8>,
) -> Result<(), OnlineFault>
    requires { CanWrite rules.now engine.old }
    ensures { (header : HeaderView) (before : List RowView) → Stands rules.now header before engine.old
        → WritesRows rules.now header before (due_part engine.old.most now engine.old.held.items) (rest_part engine.old.most now engine.old.held.items) result engine.old engine.new out.old.items out.new.items }
{
    'rows: while is_due(&engine.held, engine.most, now) {
        match write_oldest(engine, rules, out) {
            Ok(()) => {}
            Err(fault) => return Err(fault),
        }
    }
    Ok(())
}

/// Whether a time lies more than so many ticks past the oldest of the rows that are held, if there is one.
fn is_due(held: &HeapCircularBuffer<Row>, most: i64, now: i64) -> bool
    ensures { result ≡ first_due most now held.now.items }
{
    match held.front() {
        Some(oldest) => is_past(most, oldest.ticks(), now),
        None => false,
    }
}

/// The window of a column, if a rule names its sensor.
pub(crate) fn window_of(engine: &Engine, col: u32) -> Option<&OrderWindow>
    ensures { MatchOption result (place_in col engine.now.tracks.items ≡ None) (λ window. IsWindowOf col engine.now.tracks.items window.now) }
{
    let i = place_of(engine.tracks.as_slice(), col)?;
    Some(engine.tracks[i].sensor.window())
}

/// The file has ended: writes all rows that are held.
pub(crate) fn close(
    engine: &mut Engine,
    rules: &Rules,
    out: &mut Vec<u8>,
) -> Result<(), OnlineFault>
    requires { HasKept rules.now engine.old }
    ensures { (header : HeaderView) (accepted : List RowView) → KeepsRows rules.now header accepted engine.old
        → Ends rules.now header accepted result engine.new out.old.items out.new.items }
{
    write_all(engine, rules, out)
}

/// Writes all rows.
fn write_all(engine: &mut Engine, rules: &Rules, out: &mut Vec<u8>) -> Result<(), OnlineFault>
    requires { CanWrite rules.now engine.old }
    ensures { (header : HeaderView) (before : List RowView) → Stands rules.now header before engine.old
        → WritesRows rules.now header before engine.old.held.items [] result engine.old engine.new out.old.items out.new.items }
{
    'rows: while !engine.held.is_empty() {
        match write_oldest(engine, rules, out) {
            Ok(()) => {}
            Err(fault) => return Err(fault),
        }
    }
    Ok(())
}

/// Writes the oldest row, repaired, if there is one.
fn write_oldest(engine: &mut Engine, rules: &Rules, out: &mut Vec<u8>) -> Result<(), OnlineFault>
    requires { CanWrite rules.now engine.old }
    ensures { (header : HeaderView) (before : List RowView) → Stands rules.now header before engine.old
        → WritesOldest rules.now header before engine.old.held.items result engine.old engine.new out.old.items out.new.items }
{
    match engine.held.pop_front() {
        Some(row) => write_row(engine, rules, &row, out),
        None => Ok(()),
    }
}

/// Writes a row that has left those that are held, repaired.
fn write_row(
    engine: &mut Engine,
    rules: &Rules,
    row: &Row,
    out: &mut Vec<u8>,
) -> Result<(), OnlineFault>
    requires { HasLeft rules.now row.now engine.old }
    ensures { (header : HeaderView) (before : List RowView) → Leaves rules.now header before row.now engine.old
        → WritesRow rules.now header before row.now engine.old.held.items result engine.old engine.new out.old.items out.new.items }
{
    repair_row(&mut engine.tracks, &engine.held, row, &mut engine.values)?;
    if let Some(col) = too_large(row.readings(), engine.values.as_slice()) {
        return Err(OnlineFault::LeavesRange {
            row: engine.written + 1,
            col,
        });
    }
    push_row_with(out, rules, row, engine.values.as_slice())?;
    engine.written += 1;
    Ok(())
}

/// The column of the first of these readings whose value is too large.
fn too_large(readings: &[RowReading], values: &[i64]) -> Option<u32>
    requires { length values.now ≡ length readings.now }
    ensures { result ≡ first_large readings.now values.now }
{
    for i in 0..readings.len() {
        if !is_small(values[i]) {
            return Some(readings[i].col);
        }
    }
    None
}
