//! Headers: their columns, or what refuses them, and their texts.

use crate::separators::first_record;
use crate::shown::{both, fault_text, push_number, told};
use case_file::{Answers, Settings};
use rule_file::{Rules, read_rules};
use series_rows::{Header, header_text, read_header};
use std::alloc::{AllocError, Global};

/// Answers lines of headers. The setting `rules` is a rule file; `names` are names that are looked up, with commas
/// between them.
pub struct Headers;

impl Answers for Headers {
    fn answer(
        &self,
        alloc: Global,
        settings: &Settings,
        key: &str,
        input: &[u8],
    ) -> Result<Vec<u8>, AllocError> {
        let Ok(rules) = read_rules(alloc, settings.bytes("rules")) else {
            return told(alloc, "no rules");
        };
        let Some(fields) = first_record(alloc, rules.format.separator, input) else {
            return told(alloc, "no record");
        };
        let header = match read_header(alloc, &rules, fields) {
            Ok(header) => header,
            Err(fault) => return fault_text(alloc, fault),
        };
        if key == "header" {
            return columns(alloc, settings.text("names"), &header);
        }
        if key == "text" {
            return text_of(alloc, &rules, &header);
        }
        told(alloc, "no such key")
    }
}

/// The columns of a header, and of its copy.
fn columns(alloc: Global, names: &str, header: &Header) -> Result<Vec<u8>, AllocError> {
    let answer = columns_of(alloc, names, header)?;
    let other = columns_of(alloc, names, &header.copy(alloc)?)?;
    if other.as_slice() != answer.as_slice() {
        return both(alloc, answer.as_slice(), " but a copy ", other.as_slice());
    }
    Ok(answer)
}

/// How many columns there are; the time column; the sensor columns from the left; those of the sensors in the order of the
/// rules; and those that are found by names.
fn columns_of(alloc: Global, names: &str, header: &Header) -> Result<Vec<u8>, AllocError> {
    let mut text = told(alloc, "width")?;
    push_number(&mut text, alloc, i64::from(header.width()))?;
    text.extend_from_slice(b", time")?;
    push_number(&mut text, alloc, i64::from(header.time_col()))?;
    text.extend_from_slice(b", sensors")?;
    for col in header.sensor_columns() {
        push_number(&mut text, alloc, i64::from(*col))?;
    }
    text.extend_from_slice(b", by rules")?;
    push_by_rules(&mut text, alloc, header)?;
    text.extend_from_slice(b", by names")?;
    push_by_names(&mut text, alloc, names, header)?;
    Ok(text)
}

/// Adds the columns of the sensors, in the order of the rules.
fn push_by_rules(text: &mut Vec<u8>, alloc: Global, header: &Header) -> Result<(), AllocError> {
    for place in 0..8u32 {
        if let Some(col) = header.sensor_col(place) {
            push_number(text, alloc, i64::from(col))?;
        }
    }
    Ok(())
}

/// Adds each name that a sensor column bears, and that column.
fn push_by_names(
    text: &mut Vec<u8>,
    alloc: Global,
    names: &str,
    header: &Header,
) -> Result<(), AllocError> {
    for name in names.split(',') {
        if let Some(col) = header.col_of(name.as_bytes()) {
            text.push(b' ')?;
            text.extend_from_slice(name.as_bytes())?;
            push_number(text, alloc, i64::from(col))?;
        }
    }
    Ok(())
}

/// The text of a header.
fn text_of(alloc: Global, rules: &Rules, header: &Header) -> Result<Vec<u8>, AllocError> {
    header_text(alloc, rules, header)
}
