//! The command `check`: it tells whether a certificate is accepted.
ghost use Rattle.std.specs.Prelude.{◌≡◌, ◌≢◌, ◌++◌, Err, IfOk, MatchResult, codes};
ghost use Rattle.std.specs.Fmt.{signed_decimal};
ghost use Rattle.cert_check.specs.Laws.{IsTrueClaim};
ghost use Rattle.screen_tool.specs.Check.{AnswersCheck, AnswersCheckBy, check_text};
ghost use Rattle.screen_steps.specs.Step.{Ends, Replies};

use crate::checked::check_files;
use cert_check::Accepted;
use itoa::Buffer;
use screen_io::Source;
use screen_steps::{Reply, files_are_one};
use screen_words::{Ending, Inputs, Outcome};
use std::alloc::{AllocError, Global};

/// Reads the three files, and makes the line that tells what is accepted.
pub(crate) fn check<S: Source>(alloc: Global, ins: &mut Inputs<S>) -> Result<Reply, Ending>
    ensures answer { MatchResult result
        (Replies S.left S.faults (AnswersCheckBy IsTrueClaim) ins.old ins.new)
        (Ends S.left S.faults AnswersCheck ins.old ins.new) }
    ensures done { IfOk result (λ reply. reply.outcome ≢ Outcome.Usage) }
    ensures no_usage { result ≢ Err (Ending.Ended Outcome.Usage) }
    ensures no_done { result ≢ Err (Ending.Ended Outcome.Done) }
{
    // The law that shows where the command stops; it does nothing.
    files_are_one();
    let checked = check_files(alloc, ins)?;
    let text = check_text(alloc, &checked.accepted)?;
    Ok(Reply {
        outcome: Outcome::Done,
        cert: None,
        out: Some(text),
    })
}

/// The line that tells which claim is accepted.
fn check_text(alloc: Global, accepted: &Accepted) -> Result<Vec<u8>, AllocError>
    ensures { IfOk result (λ text. text.items ≡ check_text accepted.now) }
{
    match accepted {
        Accepted::Repair { total, .. } => repair_text(alloc, *total),
        Accepted::NoSeries { .. } => Vec::from_slice(alloc, b"accepted none\n"),
    }
}

/// The line that tells the total of a repair, in units.
fn repair_text(alloc: Global, total: i128) -> Result<Vec<u8>, AllocError>
    ensures { IfOk result (λ text. text.items ≡ codes "accepted repair " ++ signed_decimal total ++ codes "\n") }
{
    let mut digits = Buffer::new();
    let mut text = Vec::from_slice(alloc, b"accepted repair ")?;
    text.extend_from_slice(digits.format(total).as_bytes())?;
    text.extend_from_slice(b"\n")?;
    Ok(text)
}
