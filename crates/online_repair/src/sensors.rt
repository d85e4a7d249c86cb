//! The repairs of all sensors.
ghost use Rattle.std.specs.Prelude.{◌≡◌, [], IfOk, OnOk, map, option_map};
ghost use Rattle.std.specs.List.{AllByRecursion, find};
ghost use Rattle.rule_file.specs.Limits.{AreInReach};
ghost use Rattle.series_rows.specs.declared.cell.RowReading.{RowReading};
ghost use Rattle.online_repair.specs.Rows.{is_column};
ghost use Rattle.online_repair.specs.Sensors.{AreTracksOf, HaveSeen, IsNew, IsReady, IsReadyAt, IsTrackOf, Repairs, RepairsRow, WasSeenBefore, WereSeenBefore, all_seen, lacks_step_after, key_of, lacks_step_at, passed, place_in, seen_at};

use crate::track::{Track, repair};
use circular_buffer::HeapCircularBuffer;
use online_values::SensorRepair;
use order_window::Key;
use rule_file::{Rules, SpeedRule};
use series_csv::{Header, Row, RowReading};
use std::alloc::{AllocError, Global};

/// The repairs of the sensors of all speed rules, in the order of the rules.
pub(crate) fn tracks_of(
    alloc: Global,
    rules: &Rules,
    header: &Header,
) -> Result<Vec<Track>, AllocError>
    ensures tracks { IfOk result (λ tracks. AreTracksOf rules.now header.now tracks.items) }
    ensures seen { IfOk result (λ tracks. HaveSeen [] tracks.items) }
    ensures new { IfOk result (λ tracks. AllByRecursion IsNew tracks.items) }
{
    let mut tracks = Vec::with_capacity(alloc, rules.speeds.len())?;
    for rule in rules.speeds.as_slice() {
        tracks.push(new_track(alloc, rules, header, rule)?)?;
    }
    Ok(tracks)
}

/// The repair of the sensor of a speed rule.
fn new_track(
    alloc: Global,
    rules: &Rules,
    header: &Header,
    rule: &SpeedRule,
) -> Result<Track, AllocError>
    requires { AreInReach rules.now.format.decimals rule.now.min rule.now.max rule.now.window }
    ensures track { IfOk result (IsTrackOf rules.now header.now rule.now) }
    ensures new { IfOk result IsNew }
{
    Ok(Track {
        col: header.col_of(rule.sensor.bytes()),
        span: rule.window,
        sensor: SensorRepair::new(alloc, rules.format.hold, rule, rules.format.decimals)?,
        seen: None,
        next: 0,
    })
}

/// The place of the track of a column, if there is one.
pub(crate) fn place_of(tracks: &[Track], col: u32) -> Option<usize>
    ensures { result ≡ place_in col tracks.now }
{
    tracks.iter().position(|track| is_of(track, col))
}

/// Whether a track is that of a column.
fn is_of(track: &Track, col: u32) -> bool
    ensures { result ≡ is_column col track.now.col }
{
    match track.col {
        Some(other) => other == col,
        None => false,
    }
}

/// Whether no whole step leads to a reading of a row from the reading before.
fn lacks_step(tracks: &mut Vec<Track>, col: u32, now: i64) -> bool
    requires { WereSeenBefore now tracks.old.items }
    ensures step { result ≡ lacks_step_at (place_in col tracks.old.items) tracks.old.items now }
    ensures kept { tracks.new.items ≡ tracks.old.items }
{
    let Some(i) = place_of(tracks.as_slice(), col) else {
        return false;
    };
    track_lacks_step(&mut tracks[i], now)
}

/// Whether no whole step leads to a reading of a column from the reading before.
fn track_lacks_step(track: &mut Track, now: i64) -> bool
    requires { WasSeenBefore now track.old }
    ensures step { result ≡ lacks_step_after track.old.sensor.speed track.old.seen now }
    ensures kept { track.new ≡ track.old }
{
    match track.seen {
        Some(before) => !track.sensor.has_step(before, now),
        None => false,
    }
}

/// The column of the first reading of a row, from the left, to which no whole step leads.
pub(crate) fn without_step(tracks: &mut Vec<Track>, row: &Row) -> Option<u32>
    requires { WereSeenBefore row.now.ticks tracks.old.items }
    ensures step { result ≡ option_map (λ (reading : RowReading). reading.col) (find (λ (reading : RowReading). lacks_step_at (place_in reading.col tracks.old.items) tracks.old.items row.now.ticks) row.now.readings) }
    ensures kept { tracks.new.items ≡ tracks.old.items }
{
    for reading in row.readings() {
        if lacks_step(tracks, reading.col, row.ticks()) {
            return Some(reading.col);
        }
    }
    None
}

/// The readings of a row are accepted.
pub(crate) fn see(tracks: &mut Vec<Track>, row: &Row)
    ensures seen { tracks.new.items ≡ all_seen row.now.ticks row.now.readings tracks.old.items }
{
    for reading in row.readings() {
        see_at(tracks, reading.col, row.ticks());
    }
}

/// A reading in a column is accepted.
fn see_at(tracks: &mut Vec<Track>, col: u32, ticks: i64)
    ensures { tracks.new.items ≡ seen_at ticks (place_in col tracks.old.items) tracks.old.items }
{
    if let Some(i) = place_of(tracks.as_slice(), col) {
        tracks[i].seen = Some(ticks);
    }
}

/// The oldest row leaves those that are held.
fn step_on(tracks: &mut Vec<Track>)
    ensures { tracks.new.items ≡ map passed tracks.old.items }
{
    for i in 0..tracks.len() {
        pass(&mut tracks[i]);
    }
}

/// The oldest row leaves those that a track has looked at.
fn pass(track: &mut Track)
    ensures { track.new ≡ passed track.old }
{
    track.next = track.next.saturating_sub(1);
}

/// The value for a reading of the oldest row, which has left those that are held.
fn value_of(
    tracks: &mut Vec<Track>,
    held: &HeapCircularBuffer<Row>,
    reading: RowReading,
    ticks: i64,
) -> i64
    requires { IsReadyAt (place_in reading.col tracks.old.items) tracks.old.items reading.col (key_of reading ticks) held.now.items }
    ensures { Repairs (place_in reading.col tracks.old.items) tracks.old.items tracks.new.items reading.col (key_of reading ticks) held.now.items result }
{
    let Some(i) = place_of(tracks.as_slice(), reading.col) else {
        return reading.value;
    };
    let own = Key {
        value: reading.value,
        ticks,
    };
    repair(&mut tracks[i], held, reading.col, own)
}

/// The values for the readings of the oldest row, which has left those that are held.
pub(crate) fn repair_row(
    tracks: &mut Vec<Track>,
    held: &HeapCircularBuffer<Row>,
    row: &Row,
    values: &mut Vec<i64>,
) -> Result<(), AllocError>
    requires { AllByRecursion (IsReady (map passed tracks.old.items) held.now.items row.now.ticks) row.now.readings }
    ensures { OnOk result (RepairsRow row.now.ticks held.now.items row.now.readings (map passed tracks.old.items) tracks.new.items values.new.items) }
{
    values.clear();
    step_on(tracks);
    for reading in row.readings() {
        let value = value_of(tracks, held, *reading, row.ticks());
        values.push(value)?;
    }
    Ok(())
}
