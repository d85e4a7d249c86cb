//! The steps of a command that read its rules, its readings and its certificate.
ghost use Rattle.std.specs.Prelude.{◌≡◌, ◌≤◌, length};
ghost use Rattle.bound_maker.specs.Bounds.{made_bounds};
ghost use Rattle.bound_maker.specs.declared.maker.TheConstants.{MOST_BOUNDS};
ghost use Rattle.cert_check.specs.Judges.{Judges};
ghost use Rattle.cert_format.specs.declared.limits.TheConstants.{LONGEST as longest_cert};
ghost use Rattle.rule_file.specs.declared.read.TheConstants.{LONGEST as longest_rules};
ghost use Rattle.rule_file.specs.File.{ReadsFile};
ghost use Rattle.series_csv.specs.declared.table.TheConstants.{LONGEST as longest_readings};
ghost use Rattle.series_csv.specs.File.{ReadsTable};
ghost use Rattle.screen_steps.specs.Step.{IsFound, IsStep, WasRead};

use cert_check::{Accepted, CertFault, check};
use rule_file::{RuleCause, RuleFault, Rules, read_rules};
use screen_io::{ReadFault, Source, read_all};
use screen_model::BoundList;
use screen_words::StepFault;
use series_csv::{Table, TableCause, TableFault, read_table};
use std::alloc::Global;

/// Reads the rules.
pub fn rules_from<S: Source>(alloc: Global, src: &mut S) -> Result<Rules, StepFault<RuleFault>>
    ensures { IsStep S.left S.faults longest_rules ReadsFile src.old src.new result }
{
    let bytes = bytes_from(alloc, src, rule_file::LONGEST as u64)?;
    rules_of(alloc, bytes.as_slice())
}

/// Reads the readings of the rules' sensors.
pub fn table_from<S: Source>(
    alloc: Global,
    rules: &Rules,
    src: &mut S,
) -> Result<Table, StepFault<TableFault>>
    ensures { IsStep S.left S.faults longest_readings (ReadsTable rules.now) src.old src.new result }
{
    let bytes = bytes_from(alloc, src, series_csv::LONGEST as u64)?;
    table_of(alloc, rules, bytes.as_slice())
}

/// Reads a certificate, and checks it by the rules, the table and the bounds that are made of it.
pub fn accepted_from<S: Source>(
    alloc: Global,
    rules: &Rules,
    table: &Table,
    bounds: &BoundList,
    src: &mut S,
) -> Result<Accepted, StepFault<CertFault>>
    requires made { bounds.now ≡ made_bounds rules.now table.now }
    requires few { length bounds.now ≤ MOST_BOUNDS }
    ensures { IsStep S.left S.faults longest_cert (Judges rules.now table.now) src.old src.new result }
{
    let bytes = bytes_from(alloc, src, cert_format::LONGEST as u64)?;
    accepted_of(alloc, rules, table, bounds, bytes.as_slice())
}

/// Reads a file of at most `longest` bytes to its end.
fn bytes_from<S: Source, F>(
    alloc: Global,
    src: &mut S,
    longest: u64,
) -> Result<Vec<u8>, StepFault<F>>
    ensures { WasRead S.left S.faults longest src.old src.new result }
{
    match read_all(alloc, src, longest) {
        Ok(bytes) => Ok(bytes),
        Err(ReadFault::TooLong) => Err(StepFault::TooLong),
        Err(ReadFault::Failed) => Err(StepFault::Failed),
        Err(ReadFault::Memory) => Err(StepFault::Memory),
    }
}

/// The rules that the bytes spell.
pub fn rules_of(alloc: Global, bytes: &[u8]) -> Result<Rules, StepFault<RuleFault>>
    ensures { IsFound ReadsFile bytes.now result }
{
    match read_rules(alloc, bytes) {
        Ok(rules) => Ok(rules),
        Err(fault) if fault.cause == RuleCause::Memory => Err(StepFault::Memory),
        Err(fault) => Err(StepFault::Refused(fault)),
    }
}

/// The table that the bytes spell.
pub fn table_of(alloc: Global, rules: &Rules, bytes: &[u8]) -> Result<Table, StepFault<TableFault>>
    ensures { IsFound (ReadsTable rules.now) bytes.now result }
{
    match read_table(alloc, rules, bytes) {
        Ok(table) => Ok(table),
        Err(fault) if fault.cause == TableCause::Memory => Err(StepFault::Memory),
        Err(fault) => Err(StepFault::Refused(fault)),
    }
}

/// What the bytes of a certificate are accepted as.
fn accepted_of(
    alloc: Global,
    rules: &Rules,
    table: &Table,
    bounds: &BoundList,
    bytes: &[u8],
) -> Result<Accepted, StepFault<CertFault>>
    requires made { bounds.now ≡ made_bounds rules.now table.now }
    requires few { length bounds.now ≤ MOST_BOUNDS }
    ensures { IsFound (Judges rules.now table.now) bytes.now result }
{
    match check(alloc, table, rules, bounds, bytes) {
        Ok(accepted) => Ok(accepted),
        Err(fault) if fault == CertFault::Memory => Err(StepFault::Memory),
        Err(fault) => Err(StepFault::Refused(fault)),
    }
}
