//! The bytes that mean something in a CSV text.

ghost use Rattle.std.specs.Prelude.{◌≡◌, ◌<◌, ◌≤◌, nat_lt, false, length, take, slice_index};
ghost use Rattle.record_cut.specs.Quotes.{holds_quote};
ghost use Rattle.record_cut.specs.Row.{is_special, holds_special};

pub(crate) const QUOTE: u8 = b'"';

pub(crate) const LINE_FEED: u8 = b'\n';

pub(crate) const CARRIAGE_RETURN: u8 = b'\r';

/// The byte order mark that may stand before a text.
pub(crate) const MARK: [u8; 3] = [0xEF, 0xBB, 0xBF];

/// Whether the byte is a separator, a quote or a byte of a line break.
#[inline]
fn is_special(byte: u8, sep: u8) -> bool
    ensures { result ≡ is_special sep byte }
{
    byte == sep || byte == QUOTE || byte == CARRIAGE_RETURN || byte == LINE_FEED
}

/// How many bytes come before the first separator, quote or byte of a line break; all, if there is none.
pub(crate) fn before_special(bytes: &[u8], sep: u8) -> usize
    ensures within { result ≤ length bytes.now }
    ensures none_before { holds_special sep (take result bytes.now) ≡ false }
    ensures some { holds_special sep bytes.now ≡ nat_lt result (length bytes.now) }
{
    for (i, byte) in bytes.iter().enumerate() {
        if is_special(*byte, sep) {
            return i;
        }
    }
    bytes.len()
}

/// How many bytes come before the first quote; all, if there is none.
pub(crate) fn before_quote(bytes: &[u8]) -> usize
    ensures within { result ≤ length bytes.now }
    ensures none_before { holds_quote (take result bytes.now) ≡ false }
    ensures here { result < length bytes.now → slice_index bytes.now result ≡ QUOTE }
{
    for (i, byte) in bytes.iter().enumerate() {
        if *byte == QUOTE {
            return i;
        }
    }
    bytes.len()
}
