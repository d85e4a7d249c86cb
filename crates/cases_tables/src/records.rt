//! Texts of records, with each separator.

use crate::cutting::records_of;
use crate::separators::exchanged;
use crate::shown::{both, told};
use crate::writing::{again, written};
use case_file::{Answers, Settings};
use std::alloc::{AllocError, Global};

/// Answers what is cut and what is written. A comma stands for the separator, and each case is tried with all four.
pub struct Records;

impl Answers for Records {
    fn answer(
        &self,
        alloc: Global,
        _settings: &Settings,
        key: &str,
        input: &[u8],
    ) -> Result<Vec<u8>, AllocError> {
        let answer = answer_with(alloc, key, input, b',')?;
        for sep in [b';', b'\t', b'|'] {
            let text = exchanged(alloc, input, b',', sep)?;
            let other = answer_with(alloc, key, text.as_slice(), sep)?;
            let other = exchanged(alloc, other.as_slice(), sep, b',')?;
            if other.as_slice() != answer.as_slice() {
                let but = " but with another separator ";
                return both(alloc, answer.as_slice(), but, other.as_slice());
            }
        }
        Ok(answer)
    }
}

/// The answer with this separator.
fn answer_with(alloc: Global, key: &str, input: &[u8], sep: u8) -> Result<Vec<u8>, AllocError> {
    if key == "cut" {
        return records_of(alloc, sep, input);
    }
    if key == "written" {
        return written(alloc, sep, input);
    }
    if key == "again" {
        return again(alloc, sep, input);
    }
    told(alloc, "no such key")
}
