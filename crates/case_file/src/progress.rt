//! What comes of the cases of a file.

use crate::line::{Line, line_of};
use crate::settings::Settings;
use crate::text::push_text;
use std::alloc::{AllocError, Global};
use std::rt::Runtime;
use std::{fs, io};

/// The most bytes of a text that are shown.
const MAX_SHOWN: usize = 400;

/// What answers cases.
pub trait Answers {
    /// What comes of this input under this key, with what was set before.
    fn answer(
        &self,
        alloc: Global,
        settings: &Settings,
        key: &str,
        input: &[u8],
    ) -> Result<Vec<u8>, AllocError>;
}

/// A case; or a setting, where no answer is wanted.
#[derive(Drop)]
struct Item {
    line: usize,
    key: String,
    input: Vec<u8>,
    wanted: Option<Vec<u8>>,
}

/// A file of cases that is gone through.
#[derive(Drop)]
struct Progress<'a> {
    name: &'a str,
    settings: Settings,
    cases: usize,
    differ: usize,
}

/// Answers all cases of the file `NAME.cases`. Prints each that has another answer than is wanted, and then how many cases
/// there are, and how many of these differ.
pub fn judge<R: Runtime + AllocGlobal, A: Answers>(
    rt: &R,
    name: &str,
    answers: &A,
) -> io::Result<()> {
    let text = fs::read_to_string(rt, format!(in rt.alloc(); "{name}.cases")?.as_str())?;
    let mut progress = Progress {
        name,
        settings: Settings::new(rt.alloc()),
        cases: 0,
        differ: 0,
    };
    let mut last = None;
    for (index, line) in text.as_str().lines().enumerate() {
        match line_of(line) {
            Line::Nothing => {}
            Line::More(more) => last = with_more(rt.alloc(), last, more)?,
            Line::Item(key, input, wanted) => {
                progress.end(rt, answers, last)?;
                let line = index.saturating_add(1);
                last = Some(read_item(rt.alloc(), line, key, input, wanted)?);
            }
        }
    }
    progress.end(rt, answers, last)?;
    println!(rt;
        "{name}: {} cases, {} differ",
        progress.cases, progress.differ
    )
}

/// A case or a setting, its texts read.
fn read_item(
    alloc: Global,
    line: usize,
    key: &str,
    input: &str,
    wanted: Option<&str>,
) -> Result<Item, AllocError> {
    Ok(Item {
        line,
        key: String::from_str(alloc, key)?,
        input: bytes_of(alloc, input)?,
        wanted: match wanted {
            Some(wanted) => Some(bytes_of(alloc, wanted)?),
            None => None,
        },
    })
}

/// The bytes that a text stands for.
fn bytes_of(alloc: Global, text: &str) -> Result<Vec<u8>, AllocError> {
    let mut bytes = Vec::new(alloc);
    push_text(&mut bytes, alloc, text)?;
    Ok(bytes)
}

/// The item with one more line.
fn with_more(alloc: Global, item: Option<Item>, more: &str) -> Result<Option<Item>, AllocError> {
    let Some(mut item) = item else {
        return Ok(None);
    };
    match &mut item.wanted {
        Some(wanted) => push_line(wanted, alloc, more)?,
        None => push_line(&mut item.input, alloc, more)?,
    }
    Ok(Some(item))
}

/// Adds the bytes that a text stands for, and a line feed.
fn push_line(bytes: &mut Vec<u8>, alloc: Global, text: &str) -> Result<(), AllocError> {
    push_text(bytes, alloc, text)?;
    bytes.push(b'\n')?;
    Ok(())
}

impl Progress<'_> {
    /// Ends an item: answers a case, and sets a setting.
    fn end<R: Runtime + AllocGlobal, A: Answers>(
        &mut self,
        rt: &R,
        answers: &A,
        item: Option<Item>,
    ) -> io::Result<()> {
        let Some(
            Item {
                line,
                key,
                input,
                wanted,
            },
        ) = item
        else {
            return Ok(());
        };
        let Some(wanted) = wanted else {
            self.settings.set(rt.alloc(), key.as_str(), input)?;
            return Ok(());
        };
        let came = answers.answer(rt.alloc(), &self.settings, key.as_str(), input.as_slice())?;
        self.cases = self.cases.saturating_add(1);
        if came.as_slice() == wanted.as_slice() {
            return Ok(());
        }
        self.differ = self.differ.saturating_add(1);
        println!(rt;
            "{}.cases:{line}: {key}: wanted {}, came {}",
            self.name,
            shown(rt.alloc(), wanted.as_slice())?,
            shown(rt.alloc(), came.as_slice())?
        )
    }
}

/// The beginning of a text, as it is written in a file of cases.
fn shown(alloc: Global, bytes: &[u8]) -> Result<String, AllocError> {
    let mut text = String::new(alloc);
    for byte in bytes.iter().take(MAX_SHOWN) {
        match *byte {
            b'\n' => text.push_str("\\n")?,
            b'\r' => text.push_str("\\r")?,
            b'\t' => text.push_str("\\t")?,
            b'\\' => text.push_str("\\\\")?,
            32..=126 => text.push(char::from(*byte))?,
            other => text.push_str(format!(in alloc; "\\x{other:02X}")?.as_str())?,
        }
    }
    if bytes.len() > MAX_SHOWN {
        text.push_str(format!(in alloc; ".. ({} bytes)", bytes.len())?.as_str())?;
    }
    Ok(text)
}
