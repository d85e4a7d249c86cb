//! The lines of a file of cases.

/// What a line is.
pub enum Line<'a> {
    /// A comment, or an empty line.
    Nothing,
    /// More of what stands before.
    More(&'a str),
    /// A key, its text, and the answer that is wanted where this is a case.
    Item(&'a str, &'a str, Option<&'a str>),
}

/// What this line is.
pub fn line_of(line: &str) -> Line<'_> {
    if line.is_empty() || line.starts_with('#') {
        return Line::Nothing;
    }
    if let Some(more) = line.strip_prefix('|') {
        return Line::More(without_space(more));
    }
    let (key, rest) = line.split_once(' ').unwrap_or((line, ""));
    if let Some(wanted) = rest.strip_prefix("=>") {
        return Line::Item(key, "", Some(without_space(wanted)));
    }
    match rest.split_once(" =>") {
        Some((input, wanted)) => Line::Item(key, input, Some(without_space(wanted))),
        None => Line::Item(key, rest, None),
    }
}

/// The text without a space at its beginning.
fn without_space(text: &str) -> &str {
    text.strip_prefix(' ').unwrap_or(text)
}
