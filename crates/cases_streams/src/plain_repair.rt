//! A sample that is repaired as it comes, and reading by reading with the medians of all candidates.

use crate::online::in_pieces;
use crate::rules::Rule;
use crate::texts::{say, say_number, told, unsigned_at};
use crate::windows::{plain, steps_of};
use fix_point::push_text_of;
use order_window::Key;
use rule_file::read_rules;
use sample_maker::sample;
use series_csv::{Table, read_table};
use std::alloc::{AllocError, Global};

/// Ticks of a second.
const SECOND: i64 = 1_000_000_000;

/// The rule of a sample: at most 0.03 in a second, up or down, in times at most 5 seconds apart.
const SAMPLE: Rule = Rule {
    room: 16,
    min: -30_000,
    max: 30_000,
    per: 1,
    window: 5 * SECOND,
    decimals: 2,
};

/// How many readings follow one within the window: the rows of a sample are a second apart.
const SUCCESSORS: usize = 5;

/// Whether a sample of so many rows and this seed is repaired as it comes as it is reading by reading.
pub(crate) fn as_plain(alloc: Global, list: &[i64]) -> Result<Vec<u8>, AllocError> {
    let rows = unsigned_at(list, 0);
    let seed = unsigned_at(list, 1);
    if rows == 0 || rows > 1_000 || seed > 1_000 {
        return told(alloc, "no such sample");
    }
    let made = sample(alloc, rows, seed)?;
    compare(alloc, made.rules.bytes(), made.readings.bytes())
}

/// Compares both repairs of a readings file.
fn compare(alloc: Global, rules: &[u8], readings: &[u8]) -> Result<Vec<u8>, AllocError> {
    let Ok(rules) = read_rules(alloc, rules) else {
        return told(alloc, "the rules are refused");
    };
    let Ok(table) = read_table(alloc, &rules, readings) else {
        return told(alloc, "the readings are refused");
    };
    let keys = keys_of(alloc, &table)?;
    let Some(results) = results_of(alloc, keys.as_slice())? else {
        return told(alloc, "no result");
    };
    let text = text_of(alloc, results.as_slice())?;
    let mut out = Vec::new(alloc);
    let ended = in_pieces(alloc, &rules, readings, 7, &mut out);
    let mut answer = Vec::new(alloc);
    say_number(&mut answer, alloc, keys.len() as i128)?;
    say(
        &mut answer,
        if out.as_slice() == readings {
            " readings as before"
        } else {
            " readings, repaired"
        },
    )?;
    if ended.is_ok() && out.as_slice() == text.as_slice() {
        say(&mut answer, " with the medians of all candidates")?;
    }
    Ok(answer)
}

/// The readings of a table, with their times.
fn keys_of(alloc: Global, table: &Table) -> Result<Vec<Key>, AllocError> {
    let mut keys = Vec::new(alloc);
    for row in table.all_rows() {
        for reading in row.readings() {
            keys.push(Key {
                value: reading.value,
                ticks: row.ticks(),
            })?;
        }
    }
    Ok(keys)
}

/// A median, clamped to what the steps allow after the last result.
fn clamped(median: i64, last: Option<Key>, own: Key) -> Option<i64> {
    let Some(last) = last else {
        return Some(median);
    };
    let (least, most) = steps_of(SAMPLE, own.ticks.checked_sub(last.ticks)?)?;
    let low = last.value.checked_add(least)?;
    let high = last.value.checked_add(most)?;
    Some(low.max(high.min(median)))
}

/// The results for readings, one after the other.
fn results_of(alloc: Global, keys: &[Key]) -> Result<Option<Vec<Key>>, AllocError> {
    let mut results: Vec<Key> = Vec::new(alloc);
    for i in 0..keys.len() {
        let own = keys[i];
        let end = keys.len().min(i.saturating_add(1 + SUCCESSORS));
        let Some(median) = plain(alloc, SAMPLE, own, &keys[i + 1..end])? else {
            return Ok(None);
        };
        let Some(value) = clamped(median, results.last().copied(), own) else {
            return Ok(None);
        };
        results.push(Key {
            value,
            ticks: own.ticks,
        })?;
    }
    Ok(Some(results))
}

/// The text of results at whole seconds.
fn text_of(alloc: Global, results: &[Key]) -> Result<Vec<u8>, AllocError> {
    let mut text = b"time,x\n".to_vec(alloc)?;
    for result in results {
        push_text_of(&mut text, i128::from(result.ticks / SECOND), 0)?;
        text.push(b',')?;
        push_text_of(&mut text, i128::from(result.value), 2)?;
        text.push(b'\n')?;
    }
    Ok(text)
}
