//! The repair of one column.
ghost use Rattle.std.specs.Prelude.{◌≡◌, IsTrue, ◌↔◌, ◌<◌, ◌-ℤ◌, ◌<ℤ◌, ◌++◌, [], length};
ghost use Rattle.online_values.specs.Results.{clamped_after, median_before, successors};
ghost use Rattle.online_repair.specs.Output.{is_small};
ghost use Rattle.online_repair.specs.Rows.{keys_in, reading_in, with_key};
ghost use Rattle.online_repair.specs.Tracks.{AreHeld, Fits, IsLeaving, IsLike, IsLooked, IsLooking, last_after};

use circular_buffer::HeapCircularBuffer;
use online_values::SensorRepair;
use order_window::Key;
use series_csv::{Row, RowReading};

/// The repair of the sensor of a speed rule, in its column.
#[derive(Drop)]
pub(crate) struct Track {
    /// The column.
    pub(crate) col: Option<u32>,
    /// The window of the rule, in ticks.
    pub(crate) span: i64,
    /// The repair.
    pub(crate) sensor: SensorRepair,
    /// The time of the last reading that was accepted.
    pub(crate) seen: Option<i64>,
    /// How many of the rows that are held, from the oldest on, were looked at for the window.
    pub(crate) next: usize,
}

/// The reading in a column, if there is one.
pub(crate) fn reading_in(readings: &[RowReading], col: u32) -> Option<i64>
    ensures { result ≡ reading_in col readings.now }
{
    for reading in readings {
        if reading.col == col {
            return Some(reading.value);
        }
    }
    None
}

/// The ticks from one time to another one.
fn ticks_between(before: i64, now: i64) -> i128
    ensures { result ≡ now -ℤ before }
{
    i128::from(now) - i128::from(before)
}

/// Whether a time lies more than so many ticks past another one.
pub(crate) fn is_past(most: i64, before: i64, now: i64) -> bool
    ensures { IsTrue result ↔ most <ℤ (now -ℤ before) }
{
    i128::from(most) < ticks_between(before, now)
}

/// The result for a reading of the oldest row, which has left those that are held.
pub(crate) fn repair(track: &mut Track, held: &HeapCircularBuffer<Row>, col: u32, own: Key) -> i64
    requires rows { AreHeld col own.ticks track.old.sensor.room held.now.items }
    requires leaving { IsLeaving col own track.old held.now.items }
    ensures value { result ≡ clamped_after track.old.sensor.speed track.old.sensor.last own (median_before track.old.sensor.speed own (successors track.old.sensor.speed own (keys_in col held.now.items))) }
    ensures looked { IsLooked col own.ticks track.new held.now.items }
    ensures kept { IsLike (record track.old { sensor = record track.old.sensor { last = last_after track.old.sensor.last own.ticks result } }) track.new }
{
    track.sensor.leave(own);
    look(track, held, col, own.ticks);
    let value = track.sensor.result(own);
    if is_small(value) {
        track.sensor.keep(Key {
            value,
            ticks: own.ticks,
        });
    }
    value
}

/// Brings the readings of the rows within the window after a time into the window.
fn look(track: &mut Track, held: &HeapCircularBuffer<Row>, col: u32, ticks: i64)
    requires rows { AreHeld col ticks track.old.sensor.room held.now.items }
    requires looking { IsLooking col ticks track.old held.now.items }
    ensures looked { IsLooked col ticks track.new held.now.items }
    ensures kept { IsLike track.old track.new }
{
    'rows: while let Some(row) = held.get(track.next) {
        if is_past(track.span, ticks, row.ticks()) {
            return;
        }
        look_at(&mut track.sensor, row, col);
        track.next += 1;
    }
}

/// Brings the reading of a row into the window, if there is one.
fn look_at(sensor: &mut SensorRepair, row: &Row, col: u32)
    requires room { length sensor.old.keys < sensor.old.room }
    requires fits { Fits sensor.old.speed.span sensor.old.keys row.now.ticks (reading_in col row.now.readings) }
    ensures { sensor.new ≡ record sensor.old { keys = sensor.old.keys ++ with_key row.now.ticks (reading_in col row.now.readings) [] } }
{
    if let Some(value) = reading_in(row.readings(), col) {
        sensor.enter(Key {
            value,
            ticks: row.ticks(),
        });
    }
}

/// Whether a value is at most 10^15 units in size.
pub(crate) fn is_small(value: i64) -> bool
    ensures { result ≡ is_small value }
{
    value.unsigned_abs() <= 1_000_000_000_000_000
}
