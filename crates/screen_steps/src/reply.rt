//! What a command has to say and to write, and how that is written.
ghost use Rattle.std.specs.Prelude.{OnOk, OnErr, option_map};
ghost use Rattle.screen_steps.specs.Performance.{IsCut, IsWritten};

use screen_io::{Failed, Sink, write_all_of};
use screen_words::Outcome;

/// What a command comes to, and the texts that it writes.
#[derive(Drop)]
pub struct Reply {
    /// What it comes to, once every text is written.
    pub outcome: Outcome,
    /// The certificate, if one is written.
    pub cert: Option<Vec<u8>>,
    /// What goes to the output, if anything does.
    pub out: Option<Vec<u8>>,
}

/// Writes a text, if there is one.
pub fn write_text<K: Sink>(sink: &mut K, text: &Option<Vec<u8>>) -> Result<(), Failed>
    ensures whole { OnOk result (IsWritten K.held K.faults (option_map (λ bytes. bytes.items) text.now) sink.old sink.new) }
    ensures part { OnErr result (IsCut K.held K.faults (option_map (λ bytes. bytes.items) text.now) sink.old sink.new) }
{
    match text {
        Some(bytes) => write_all_of(sink, bytes.as_slice()),
        None => Ok(()),
    }
}
