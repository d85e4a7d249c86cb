//! The ends of the program: what it reads from and writes to.
/// What the program reads from.
#[derive(Drop)]
pub struct Inputs<S> {
    /// The rule file.
    pub rules: S,
    /// The readings.
    pub readings: S,
    /// The certificate, where a command reads one.
    pub cert: S,
}

/// What the program writes to.
#[derive(Drop)]
pub struct Outputs<K> {
    /// The text that the command is asked for.
    pub out: K,
    /// The certificate, where a command writes one.
    pub cert: K,
    /// What is said to the user where the command does not do what it was asked for.
    pub note: K,
}

/// What an end of the program is.
#[derive(Clone, Copy, Debug, PartialEq, Eq)]
pub enum EndUse {
    /// The file that a word names, by its place among the words, counted from 0.
    Word(u32),
    /// Standard input.
    Input,
    /// Standard output.
    Output,
    /// Nothing.
    Nothing,
}

/// What each of the five ends is.
#[derive(Clone, Copy, Debug, PartialEq, Eq)]
pub struct Roles {
    /// Where the rules are read.
    pub rules: EndUse,
    /// Where the readings are read.
    pub readings: EndUse,
    /// Where a certificate is read.
    pub cert_read: EndUse,
    /// Where a certificate is written.
    pub cert_written: EndUse,
    /// Where the command's text is written.
    pub out: EndUse,
}
