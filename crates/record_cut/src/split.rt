//! Byte fields in one buffer, with the places where they end.

ghost use Rattle.std.specs.Prelude.{◌≡◌, ◌<◌, ◌+◌, [], ◌∷◌, ◌++◌, length, OnOk, OnErr, slice_index_or};
ghost use Rattle.record_cut.specs.Split.{pieces, Rises, starts_at};

use std::alloc::AllocError;

/// Adds a field at the end of those that end at these places.
pub(crate) fn push_piece(
    bytes: &mut Vec<u8>,
    ends: &mut Vec<u32>,
    field: &[u8],
) -> Result<(), AllocError>
    requires { Rises 0 ends.old.items (length bytes.old.items) }
    ensures ok { OnOk result
        (pieces bytes.new.items 0 ends.new.items ≡ pieces bytes.old.items 0 ends.old.items ++ field.now ∷ []) }
    ensures err { OnErr result
        (pieces bytes.new.items 0 ends.new.items ≡ pieces bytes.old.items 0 ends.old.items) }
    ensures rises { Rises 0 ends.new.items (length bytes.new.items) }
    ensures one_more { OnOk result (length ends.new.items ≡ length ends.old.items + 1) }
    ensures no_more { OnErr result (length ends.new.items ≡ length ends.old.items) }
{
    let len = bytes.len();
    bytes.extend_from_slice(field)?;
    if let Err(failed) = push_end(ends, bytes.len()) {
        bytes.truncate(len);
        return Err(failed);
    }
    Ok(())
}

/// Adds an end, which is below 2^32 or takes more memory than there is.
fn push_end(ends: &mut Vec<u32>, end: usize) -> Result<(), AllocError>
    ensures ok { OnOk result (ends.new.items ≡ ends.old.items ++ end ∷ []) }
    ensures err { OnErr result (ends.new.items ≡ ends.old.items) }
{
    let Ok(end) = u32::try_from(end) else {
        return Err(AllocError);
    };
    ends.push(end)?;
    Ok(())
}

/// The field at this place, of those that end at these places.
pub(crate) fn piece_at<'a>(bytes: &'a [u8], ends: &[u32], i: usize) -> &'a [u8]
    requires rises { Rises 0 ends.now (length bytes.now) }
    requires within { i < length ends.now }
    ensures { result.now ≡ slice_index_or (pieces bytes.now 0 ends.now) i result.now }
{
    &bytes[start_at(ends, i)..ends[i] as usize]
}

/// Where the field at this place begins.
fn start_at(ends: &[u32], i: usize) -> usize
    requires { i < length ends.now }
    ensures { result ≡ starts_at 0 ends.now i }
{
    if i == 0 { 0 } else { ends[i - 1] as usize }
}
