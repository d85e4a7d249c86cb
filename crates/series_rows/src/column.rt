//! Columns by their names.
ghost use Rattle.std.specs.Prelude.{◌≡◌, [], ◌∷◌, ◌≤◌, length, MatchOption, IfSome};
ghost use Rattle.series_rows.specs.Header.{bears, columns_named, field_at, the_only_column};
ghost use Rattle.series_rows.specs.Search.{candidates, is_candidate, is_left_out, left_out};

use crate::fault::{TableCause, TableFault};
use record_cut::Fields;
use time_text::trimmed_text;

/// The field in a column, counted from 1.
pub(crate) fn field_in(fields: &Fields, col: u32) -> &[u8]
    requires least { 1 ≤ col }
    requires most { col ≤ length fields.now }
    ensures { result.now ≡ field_at fields.now col }
{
    fields.field(col - 1).unwrap()
}

/// Whether the field is the name, but for the blanks at its ends.
pub(crate) fn bears(name: &[u8], field: &[u8]) -> bool
    ensures { result ≡ bears name.now field.now }
{
    trimmed_text(field) == name
}

/// The only column that bears the name of a sensor of this rule, but for one that is left out.
pub(crate) fn the_only_column(
    fields: &Fields,
    name: &[u8],
    except: Option<u32>,
    rule: u32,
) -> Result<u32, TableFault>
    ensures { result ≡ the_only_column rule (left_out except (columns_named name.now fields.now)) }
{
    let Some(first) = next_named(fields, name, except, 0) else {
        return Err(TableFault::at(0, 0, TableCause::NoSuchSensor { rule }));
    };
    match next_named(fields, name, except, first) {
        Some(second) => Err(TableFault::at(0, second, TableCause::NameTwice)),
        None => Ok(first),
    }
}

/// The next column with the name after this one, but for one that is left out.
fn next_named(fields: &Fields, name: &[u8], except: Option<u32>, after: u32) -> Option<u32>
    requires { after ≤ length fields.now }
    ensures next { MatchOption result
        (candidates except name.now fields.now after ≡ [])
        (λ col. candidates except name.now fields.now after ≡ col ∷ candidates except name.now fields.now col) }
    ensures within { IfSome result (λ col. col ≤ length fields.now) }
{
    for i in after..fields.width() {
        let col = i + 1;
        if is_candidate(fields, name, except, col) {
            return Some(col);
        }
    }
    None
}

/// Whether the field in a column bears the name, and the column is not the one that is left out.
fn is_candidate(fields: &Fields, name: &[u8], except: Option<u32>, col: u32) -> bool
    requires least { 1 ≤ col }
    requires most { col ≤ length fields.now }
    ensures { result ≡ is_candidate except name.now fields.now col }
{
    !is_left_out(except, col) && bears(name, field_in(fields, col))
}

/// Whether the column is the one that is left out.
fn is_left_out(except: Option<u32>, col: u32) -> bool
    ensures { result ≡ is_left_out except col }
{
    match except {
        Some(other) => col == other,
        None => false,
    }
}
