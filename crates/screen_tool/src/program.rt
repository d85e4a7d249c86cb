//! What the program does with its words, its sources and its sinks.
ghost use Rattle.std.specs.Prelude.{◌≡◌, ◌≢◌, ◌↔◌, ℕ, false, Some, None, Err, IfOk, MatchResult};
ghost use Rattle.cert_check.specs.Laws.{IsTrueClaim};
ghost use Rattle.repair_report.specs.Report.{report_text};
ghost use Rattle.screen_steps.specs.Answer.{Answer};
ghost use Rattle.least_cost.specs.Answer.{CountsChanges};
ghost use Rattle.screen_tool.specs.Answers.{Answers, AnswersBy, finds_a_repair};
ghost use Rattle.screen_words.specs.Command.{command_of, roles_of, texts};
ghost use Rattle.screen_words.specs.Ending.{status_of};
ghost use Rattle.screen_tool.specs.Check.{check_text};
ghost use Rattle.screen_tool.specs.Headline.{CountsReadFault, Headline};
ghost use Rattle.screen_tool.specs.HeadlineCheck.{HeadlineCheck};
ghost use Rattle.screen_tool.specs.HeadlineOnline.{HeadlineOnline};
ghost use Rattle.screen_tool.specs.Leaves.{Leaves};
ghost use Rattle.screen_words.specs.Note.{note_text};
ghost use Rattle.screen_steps.specs.Performance.{AreCut, AreWritten, IsDue, IsNoted, LeavesUnused, Performs};
ghost use Rattle.screen_tool.specs.Sample.{DecidesSample, HasLimits, WritesSummary};
ghost use Rattle.screen_steps.specs.Step.{Ends, IsReplyOf, Replies};
ghost use Rattle.screen_words.specs.declared.ends.EndUse.TheVariants.{Nothing};

use crate::check::check;
use crate::global::global;
use crate::laws::{one_outcome, rests_on_read};
use crate::report::report;
use crate::sample::sample;
use flow_core::Solver;
use online_repair::{outputs_are_one, refusals_stay, repairs_cost_least, repairs_keep_the_rates};
use screen_io::{Failed, Sink, Source, write_all_of};
use screen_online::online;
use screen_steps::{Reply, files_are_one, write_text};
use screen_words::{Command, Ending, Inputs, Outcome, Outputs, Status, command_from, note_of};
use std::alloc::Global;

/// Does what the words ask for. They do not hold the program's name.
///
/// `global RULES READINGS CERT` reads the rules and then the readings, and writes a certificate and the
/// repaired readings. Where no series obeys the rules it writes the certificate alone, and answers [`Status::NoSeries`].
/// The solver does the repair; no other command but `sample` uses it.
///
/// `check RULES READINGS CERT` reads the rules, the readings and the certificate, and writes a line that tells which claim is
/// accepted. Where the certificate is refused it writes nothing, and answers [`Status::CertRefused`].
///
/// `online RULES` reads the rules and then the readings, piece by piece, and writes each row, repaired, as soon as the rows after
/// it show that it is ready. Where a row is refused it has written the rows before it, and answers [`Status::ReadingsRefused`].
///
/// `report RULES READINGS CERT` does as `check` does, and writes what the certificate says of the readings, for a reader.
///
/// `sample ROWS SEED` reads nothing. It makes so many rows of readings from the number, repairs them, and writes how many
/// readings are changed, and by how much.
///
/// But for `online`, every text is made before the first is written. A note that can't be written changes nothing.
pub fn run<S: Source, K: Sink, V: Solver>(
    alloc: Global,
    words: &[String],
    ins: &mut Inputs<S>,
    outs: &mut Outputs<K>,
    solver: &mut V,
) -> Status
    // The words ask for no command.
    ensures usage { (result ≡ Status.Usage) ↔ (command_of (texts words.now) ≡ None) }

    // How the run ends: that is the status, it is noted, and the sources and sinks are left as it says.
    ensures performs { (ending : Ending) × (result ≡ status_of ending)
        × IsNoted K.held K.faults (note_text ending) outs.old.note outs.new.note
        × Leaves S.left S.faults K.held K.faults (command_of (texts words.now)) ins.old ins.new outs.old outs.new ending }
    ensures unused { LeavesUnused (roles_of (command_of (texts words.now))) ins.old ins.new outs.old outs.new }

    // What is due is answered, apart from counted faults and want of memory.
    ensures due { IsDue S.left (roles_of (command_of (texts words.now))) (Answers (command_of (texts words.now))) ins.old result }

    // The solver is left where no repair is asked for, and what it tells of itself stays.
    ensures solver { finds_a_repair (command_of (texts words.now)) ≡ false → solver.new ≡ solver.old }
    ensures most_stays { V.most solver.new ≡ V.most solver.old }

    // What the program is for.
    ensures headline { command_of (texts words.now) ≡ Some Command.Global →
        Headline S.left S.faults K.held K.faults ins.old ins.new outs.old outs.new (V.most solver.new) (V.last solver.new) result }
    ensures check { command_of (texts words.now) ≡ Some Command.Check →
        HeadlineCheck S.left S.faults K.held K.faults (λ rules table. check_text) ins.old ins.new outs.old outs.new result }
    ensures online { command_of (texts words.now) ≡ Some Command.Online →
        HeadlineOnline S.left S.faults K.held K.faults ins.old ins.new outs.old outs.new result }
    ensures report { command_of (texts words.now) ≡ Some Command.Report →
        HeadlineCheck S.left S.faults K.held K.faults report_text ins.old ins.new outs.old outs.new result }
    ensures sample { (rows seed : ℕ) → command_of (texts words.now) ≡ Some (Command.Sample rows seed) → result ≡ Status.Done →
        WritesSummary K.held (V.most solver.new) (V.last solver.new) rows seed outs.old outs.new }
    ensures sample_status { (rows seed : ℕ) → command_of (texts words.now) ≡ Some (Command.Sample rows seed) →
        DecidesSample K.faults rows seed outs.old outs.new result }
{
    // The laws that show `due` and the headlines; they do nothing.
    files_are_one();
    outputs_are_one();
    refusals_stay();
    repairs_cost_least();
    repairs_keep_the_rates();
    one_outcome();
    rests_on_read();
    let ending = ending_of(alloc, command_from(words), ins, outs, solver);
    let note = note_of(&ending);
    let _ = write_all_of(&mut outs.note, note.as_str().as_bytes());
    ending.status()
}

/// Does what the command asks for, but for the note.
fn ending_of<S: Source, K: Sink, V: Solver>(
    alloc: Global,
    command: Option<Command>,
    ins: &mut Inputs<S>,
    outs: &mut Outputs<K>,
    solver: &mut V,
) -> Ending
    requires { HasLimits command }
    ensures performs { Leaves S.left S.faults K.held K.faults command ins.old ins.new outs.old outs.new result }
    ensures counts { result ≡ Ending.Ended Outcome.Done →
        Performs S.left S.faults K.held K.faults (AnswersBy (λ problem. CountsChanges problem (V.most solver.new) (V.last solver.new)) IsTrueClaim command) ins.old ins.new outs.old outs.new (Ending.Ended Outcome.Done) }
    ensures read_faults { command ≡ Some Command.Global → result ≡ Ending.ReadFault → CountsReadFault S.faults ins.old ins.new }
    ensures none_read { (rows seed : ℕ) → command ≡ Some (Command.Sample rows seed) → result ≢ Ending.ReadFault }
    ensures usage { (result ≡ Ending.Ended Outcome.Usage) ↔ (command ≡ None) }
    ensures unused { LeavesUnused (roles_of command) ins.old ins.new outs.old outs.new }
    ensures note { outs.new.note ≡ outs.old.note }
    ensures solver { finds_a_repair command ≡ false → solver.new ≡ solver.old }
    ensures most_stays { V.most solver.new ≡ V.most solver.old }
{
    match command {
        Some(Command::Online) => online(alloc, ins, outs),
        _ => ending_by_reply(alloc, command, ins, outs, solver),
    }
}

/// Does what a command asks for that makes its texts before it writes them.
fn ending_by_reply<S: Source, K: Sink, V: Solver>(
    alloc: Global,
    command: Option<Command>,
    ins: &mut Inputs<S>,
    outs: &mut Outputs<K>,
    solver: &mut V,
) -> Ending
    requires limits { HasLimits command }
    requires replies { command ≢ Some Command.Online }
    ensures performs { Performs S.left S.faults K.held K.faults (Answers command) ins.old ins.new outs.old outs.new result }
    ensures counts { result ≡ Ending.Ended Outcome.Done →
        Performs S.left S.faults K.held K.faults (AnswersBy (λ problem. CountsChanges problem (V.most solver.new) (V.last solver.new)) IsTrueClaim command) ins.old ins.new outs.old outs.new (Ending.Ended Outcome.Done) }
    ensures read_faults { command ≡ Some Command.Global → result ≡ Ending.ReadFault → CountsReadFault S.faults ins.old ins.new }
    ensures none_read { (rows seed : ℕ) → command ≡ Some (Command.Sample rows seed) → result ≢ Ending.ReadFault }
    ensures usage { (result ≡ Ending.Ended Outcome.Usage) ↔ (command ≡ None) }
    ensures unused { LeavesUnused (roles_of command) ins.old ins.new outs.old outs.new }
    ensures note { outs.new.note ≡ outs.old.note }
    ensures solver { finds_a_repair command ≡ false → solver.new ≡ solver.old }
    ensures most_stays { V.most solver.new ≡ V.most solver.old }
{
    match reply_of(alloc, command, ins, solver) {
        Ok(reply) => match write_reply(&reply, outs) {
            Ok(()) => Ending::Ended(reply.outcome),
            Err(Failed) => Ending::WriteFault,
        },
        Err(ending) => ending,
    }
}

/// Reads what the command reads, and makes its texts.
fn reply_of<S: Source, V: Solver>(
    alloc: Global,
    command: Option<Command>,
    ins: &mut Inputs<S>,
    solver: &mut V,
) -> Result<Reply, Ending>
    requires limits { HasLimits command }
    requires replies { command ≢ Some Command.Online }
    ensures answer { MatchResult result
        (Replies S.left S.faults (AnswersBy (λ problem. CountsChanges problem (V.most solver.new) (V.last solver.new)) IsTrueClaim command) ins.old ins.new)
        (Ends S.left S.faults (Answers command) ins.old ins.new) }
    ensures usage { (result ≡ Err (Ending.Ended Outcome.Usage)) ↔ (command ≡ None) }
    ensures done { IfOk result (λ reply. reply.outcome ≢ Outcome.Usage) }
    ensures no_done { result ≢ Err (Ending.Ended Outcome.Done) }
    ensures read_faults { command ≡ Some Command.Global → result ≡ Err Ending.ReadFault → CountsReadFault S.faults ins.old ins.new }
    ensures none_read { (rows seed : ℕ) → command ≡ Some (Command.Sample rows seed) → result ≢ Err Ending.ReadFault }
    ensures unread { (roles_of command).cert_read ≡ Nothing → ins.new.cert ≡ ins.old.cert }
    ensures idle { (roles_of command).rules ≡ Nothing → ins.new ≡ ins.old }
    ensures solver { finds_a_repair command ≡ false → solver.new ≡ solver.old }
    ensures most_stays { V.most solver.new ≡ V.most solver.old }
{
    match command {
        Some(Command::Global) => global(alloc, ins, solver),
        Some(Command::Check) => check(alloc, ins),
        Some(Command::Report) => report(alloc, ins),
        Some(Command::Sample { rows, seed }) => sample(alloc, rows, seed, solver),
        // It makes no reply: `ending_of` calls it.
        Some(Command::Online) => Err(Ending::Ended(Outcome::Usage)),
        None => Err(Ending::Ended(Outcome::Usage)),
    }
}

/// Writes the certificate, and then the text.
fn write_reply<K: Sink>(reply: &Reply, outs: &mut Outputs<K>) -> Result<(), Failed>
    ensures texts { (answer : Answer) → IsReplyOf answer reply.now → MatchResult result
        (λ _. AreWritten K.held K.faults answer outs.old outs.new)
        (λ _. AreCut K.held K.faults answer outs.old outs.new) }
    ensures note { outs.new.note ≡ outs.old.note }
{
    write_text(&mut outs.cert, &reply.cert)?;
    write_text(&mut outs.out, &reply.out)
}
