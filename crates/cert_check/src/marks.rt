//! Marks at the ends of bounds.
ghost use Rattle.std.specs.Prelude.{◌≡◌, [], get_or, false, slice_get, Some, IfOk};
ghost use Rattle.screen_model.specs.Series.{IsEnd};
ghost use Rattle.series_csv.specs.Readings.{places};
ghost use Rattle.cert_check.specs.Marks.{ends_of, marks_of};

use screen_model::End;
use sequence::Sequence;
use series_csv::Table;
use std::alloc::{AllocError, Global};

/// Whether each end is marked: Zero, and the readings in their order.
pub(crate) type Marks = Sequence<bool>;

/// No end is marked.
pub(crate) fn no_marks(alloc: Global, table: &Table) -> Result<Marks, AllocError>
    ensures { IfOk result (λ marks. marks ≡ marks_of [] (ends_of (places table.now))) }
{
    // There are as many places as readings.
    let _places = table.places();
    let marks = vec![in alloc; false; table.len() as usize + 1]?;
    Ok(Sequence::from_vec(marks))
}

/// The number of an end among Zero and the readings.
pub(crate) fn end_index(table: &Table, end: End) -> usize
    requires { IsEnd (places table.now) end }
    ensures { slice_get (ends_of (places table.now)) result ≡ Some end }
{
    match end {
        End::Zero => 0,
        End::At(place) => match table.index(place) {
            Some(i) => i as usize + 1,
            None => 0,
        },
    }
}

/// Whether the end of this number is marked.
pub(crate) fn is_marked(marks: &Marks, i: usize) -> bool
    ensures { result ≡ get_or marks.now i false }
{
    marks.get(i).copied().unwrap_or(false)
}
