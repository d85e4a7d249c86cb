//! What a sample is.

use sequence::Sequence;

/// The bytes of a text.
pub type SampleText = Sequence<u8>;

/// A sample: the texts of two files that belong together.
#[derive(Drop)]
pub struct Sample {
    /// The rule file.
    pub rules: SampleText,
    /// The readings, as CSV.
    pub readings: SampleText,
}
