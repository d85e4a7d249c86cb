//! The command `report`: it tells what an accepted certificate repairs, or why no series obeys.
ghost use Rattle.std.specs.Prelude.{◌≡◌, ◌≢◌, Err, IfOk, MatchResult};
ghost use Rattle.cert_check.specs.Laws.{IsTrueClaim};
ghost use Rattle.screen_tool.specs.Report.{AnswersReport, AnswersReportBy};
ghost use Rattle.screen_steps.specs.Step.{Ends, Replies};

use crate::checked::check_files;
use repair_report::report_text;
use screen_io::Source;
use screen_steps::{Reply, files_are_one};
use screen_words::{Ending, Inputs, Outcome};
use std::alloc::Global;

/// Reads the three files, and makes the report.
pub(crate) fn report<S: Source>(alloc: Global, ins: &mut Inputs<S>) -> Result<Reply, Ending>
    ensures answer { MatchResult result
        (Replies S.left S.faults (AnswersReportBy IsTrueClaim) ins.old ins.new)
        (Ends S.left S.faults AnswersReport ins.old ins.new) }
    ensures done { IfOk result (λ reply. reply.outcome ≢ Outcome.Usage) }
    ensures no_usage { result ≢ Err (Ending.Ended Outcome.Usage) }
    ensures no_done { result ≢ Err (Ending.Ended Outcome.Done) }
{
    // The law that shows where the command stops; it does nothing.
    files_are_one();
    let checked = check_files(alloc, ins)?;
    let text = report_text(alloc, &checked.table, &checked.rules, &checked.accepted)?;
    Ok(Reply {
        outcome: Outcome::Done,
        cert: None,
        out: Some(text),
    })
}
