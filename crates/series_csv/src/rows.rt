//! Rows with the places and the values of their readings.
ghost use Rattle.std.specs.Prelude.{◌≡◌, ◌≢◌, ◌<◌, ◌++◌, length, map, OnOk, MatchOption};
ghost use Rattle.std.specs.List.{AllByRecursion, slice_index_or};
ghost use Rattle.series_rows.specs.Row.{columns};
ghost use Rattle.series_rows.specs.declared.cell.RowReading.{RowReading};
ghost use Rattle.series_csv.specs.Readings.{places_in};

use screen_model::{Place, Places, Series};
use sequence::Sequence;
use series_rows::{Row, RowReading};
use std::alloc::{AllocError, Global};

/// Rows in order, with the places and the values of all their readings, and where those of each row begin.
#[derive(Drop)]
pub(crate) struct Rows {
    /// The rows.
    pub(crate) rows: Sequence<Row>,
    /// The places of the readings.
    pub(crate) places: Places,
    /// The values of the readings.
    pub(crate) values: Series,
    /// For each row, how many readings stand in the rows before it.
    pub(crate) starts: Sequence<u32>,
}

impl Rows {
    ghost use Rattle.std.specs.Prelude.{◌≡◌, ◌≤◌, [], ◌∷◌, ◌++◌, length, IfOk, OnOk, MatchOption, Contains, slice_get, Some};
    ghost use Rattle.std.specs.List.{AllByRecursion};
    ghost use Rattle.screen_model.specs.declared.limits.TheConstants.{MOST_ROWS, MOST_READINGS};
    ghost use Rattle.series_csv.specs.Readings.{places_from, values_of, IsSmall, TimesRise};
    ghost use Rattle.series_csv.specs.Indexed.{AreIndexed};
    ghost use Rattle.series_csv.specs.declared.rows.Rows.{Rows};

    /// No row. It takes no memory.
    pub(crate) fn new(alloc: Global) -> Rows
        ensures rows { result.rows ≡ [] }
        ensures indexed { AreIndexed result }
    {
        Rows {
            rows: Sequence::new(alloc),
            places: Places::new(alloc),
            values: Series::new(alloc),
            starts: Sequence::new(alloc),
        }
    }

    /// No row, with room for so many rows and readings.
    fn with_room(alloc: Global, rows: usize, readings: usize) -> Result<Rows, AllocError>
        ensures rows { IfOk result (λ (made : Rows). made.rows ≡ []) }
        ensures indexed { IfOk result AreIndexed }
    {
        Ok(Rows {
            rows: Sequence::with_capacity(alloc, rows)?,
            places: Places::with_capacity(alloc, readings)?,
            values: Series::with_capacity(alloc, readings)?,
            starts: Sequence::with_capacity(alloc, rows)?,
        })
    }

    /// Takes room for so many rows and readings at once, where there is no row yet.
    pub(crate) fn take_room(
        &mut self,
        alloc: Global,
        rows: usize,
        readings: usize,
    ) -> Result<(), AllocError>
        requires { AreIndexed self.old }
        ensures rows { OnOk result (self.new.rows ≡ self.old.rows) }
        ensures indexed { OnOk result (AreIndexed self.new) }
    {
        if self.rows.is_empty() {
            *self = Rows::with_room(alloc, rows, readings)?;
        }
        Ok(())
    }

    /// Adds a row at the end. Where memory runs out the places and the values may no longer be those of the rows.
    pub(crate) fn push(&mut self, row: Row) -> Result<(), AllocError>
        requires indexed { AreIndexed self.old }
        requires rows { length (self.old.rows ++ row ∷ []) ≤ MOST_ROWS }
        requires readings { length (values_of (self.old.rows ++ row ∷ [])) ≤ MOST_READINGS }
        requires small { AllByRecursion IsSmall (values_of (self.old.rows ++ row ∷ [])) }
        requires times { TimesRise (self.old.rows ++ row ∷ []) }
        ensures rows { OnOk result (self.new.rows ≡ self.old.rows ++ row ∷ []) }
        ensures indexed { OnOk result (AreIndexed self.new) }
    {
        let number = self.rows.len() as u32 + 1;
        self.starts.push(self.values.len() as u32)?;
        push_readings(&mut self.places, &mut self.values, number, row.readings())?;
        self.rows.push(row)?;
        Ok(())
    }

    /// The place of a reading in the order of all readings, counted from 0.
    pub(crate) fn index(&self, place: Place) -> Option<u32>
        requires { AreIndexed self.now }
        ensures { MatchOption result (¬ Contains (places_from 1 self.now.rows) place)
            (λ i. slice_get (places_from 1 self.now.rows) i ≡ Some place) }
    {
        let r = place.row.checked_sub(1)? as usize;
        let row = self.rows.get(r)?;
        let start = self.starts.get(r)?;
        let within = place_of_column(row.readings(), place.col)?;
        Some(*start + within as u32)
    }
}

/// Adds the places and the values of the readings of a row.
fn push_readings(
    places: &mut Places,
    values: &mut Series,
    number: u32,
    readings: &[RowReading],
) -> Result<(), AllocError>
    ensures places { OnOk result (places.new ≡ places.old ++ places_in number (columns readings.now)) }
    ensures values { OnOk result (values.new ≡ values.old ++ map (λ (reading : RowReading). reading.value) readings.now) }
{
    for reading in readings {
        places.push(Place {
            row: number,
            col: reading.col,
        })?;
        values.push(reading.value)?;
    }
    Ok(())
}

/// Which of the readings stands in the column, counted from 0.
fn place_of_column(readings: &[RowReading], col: u32) -> Option<usize>
    ensures { MatchOption result (AllByRecursion (λ (reading : RowReading). reading.col ≢ col) readings.now)
        (λ i. (i < length readings.now) × ((other : RowReading) → (slice_index_or readings.now i other).col ≡ col)) }
{
    readings.iter().position(|reading| reading.col == col)
}
