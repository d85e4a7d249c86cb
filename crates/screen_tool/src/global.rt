//! The command `global`: it writes the repair of readings with its certificate, or a cycle that shows that there is none.
ghost use Rattle.std.specs.Prelude.{◌≡◌, ◌≢◌, Err, IfOk, MatchResult, option_map};
ghost use Rattle.least_cost.specs.Answer.{CountsChanges};
ghost use Rattle.rule_file.specs.declared.rules.Rules.{Rules};
ghost use Rattle.series_csv.specs.File.{TableView};
ghost use Rattle.screen_tool.specs.Global.{AnswersGlobal, AnswersGlobalBy, AnswersTableBy, IsFoundFor, answer_of};
ghost use Rattle.screen_tool.specs.Headline.{CountsReadFault};
ghost use Rattle.screen_steps.specs.Step.{Comes, Ends, IsReplyOf, Replies};

use crate::cert::cert_of;
use bound_maker::{names_can_be_written, problem_is_sound};
use cert_check::{shown_is_short, truth_is_accepted};
use cert_format::write_cert;
use flow_core::Solver;
use global_repair::{Outcome as Found, repair};
use rule_file::Rules;
use screen_io::Source;
use screen_steps::{Reply, files_are_one, rules_from, table_from};
use screen_words::{Ending, Inputs, Outcome};
use series_csv::{Table, table_text};
use std::alloc::{AllocError, Global};

/// Reads both files, and makes the texts that are written.
pub(crate) fn global<S: Source, V: Solver>(
    alloc: Global,
    ins: &mut Inputs<S>,
    solver: &mut V,
) -> Result<Reply, Ending>
    ensures answer { MatchResult result
        (Replies S.left S.faults (AnswersGlobalBy (λ problem. CountsChanges problem (V.most solver.new) (V.last solver.new))) ins.old ins.new)
        (Ends S.left S.faults AnswersGlobal ins.old ins.new) }
    ensures done { IfOk result (λ reply. reply.outcome ≢ Outcome.Usage) }
    ensures no_usage { result ≢ Err (Ending.Ended Outcome.Usage) }
    ensures no_done { result ≢ Err (Ending.Ended Outcome.Done) }
    ensures read_faults { result ≡ Err Ending.ReadFault → CountsReadFault S.faults ins.old ins.new }
    ensures unread { ins.new.cert ≡ ins.old.cert }
    ensures most_stays { V.most solver.new ≡ V.most solver.old }
{
    // The law that shows where the command stops; it does nothing.
    files_are_one();
    let rules = rules_from(alloc, &mut ins.rules)?;
    let table = table_from(alloc, &rules, &mut ins.readings)?;
    reply_over(alloc, &rules, &table, solver)
}

/// What is answered to rules and readings that are accepted.
fn reply_over<V: Solver>(
    alloc: Global,
    rules: &Rules,
    table: &Table,
    solver: &mut V,
) -> Result<Reply, Ending>
    ensures answer { Comes (AnswersTableBy (λ problem. CountsChanges problem (V.most solver.new) (V.last solver.new)) rules.now table.now) result }
    ensures done { IfOk result (λ reply. reply.outcome ≢ Outcome.Usage) }
    ensures no_usage { result ≢ Err (Ending.Ended Outcome.Usage) }
    ensures no_done { result ≢ Err (Ending.Ended Outcome.Done) }
    ensures most_stays { V.most solver.new ≡ V.most solver.old }
{
    // The laws that show that the certificate has a text, and that it is accepted; they do nothing.
    problem_is_sound(table, rules);
    names_can_be_written(table, rules);
    truth_is_accepted(table, rules);
    shown_is_short(table, rules);
    let _places = table.places();
    let _len = table.len();
    let found = repair(alloc, table, rules, solver)?;
    let reply = reply_of(alloc, rules, table, found)?;
    Ok(reply)
}

/// The texts of what was found.
fn reply_of(alloc: Global, rules: &Rules, table: &Table, found: Found) -> Result<Reply, AllocError>
    requires { IsFoundFor rules.now table.now found }
    ensures texts { IfOk result (IsReplyOf (answer_of rules.now table.now found)) }
    ensures done { IfOk result (λ reply. reply.outcome ≢ Outcome.Usage) }
{
    let outcome = outcome_of(&found);
    let out = repaired_text(alloc, rules, table, &found)?;
    let cert = cert_of(alloc, rules, table, found)?;
    let cert = write_cert(alloc, &cert)?;
    Ok(Reply {
        outcome,
        cert: Some(cert),
        out,
    })
}

/// What the command comes to.
fn outcome_of(found: &Found) -> Outcome
    ensures outcome { (rules : Rules) (table : TableView) → (answer_of rules table found.now).outcome ≡ result }
    ensures done { result ≢ Outcome.Usage }
{
    match found {
        Found::Repaired { .. } => Outcome::Done,
        Found::NoSeries { .. } => Outcome::NoSeries,
    }
}

/// The text of the table with the repaired values, where some series obeys.
fn repaired_text(
    alloc: Global,
    rules: &Rules,
    table: &Table,
    found: &Found,
) -> Result<Option<Vec<u8>>, AllocError>
    requires { IsFoundFor rules.now table.now found.now }
    ensures { IfOk result (λ text. (answer_of rules.now table.now found.now).out ≡ option_map (λ bytes. bytes.items) text) }
{
    match found {
        Found::Repaired { series, .. } => Ok(Some(table_text(alloc, rules, table, series)?)),
        Found::NoSeries { .. } => Ok(None),
    }
}
