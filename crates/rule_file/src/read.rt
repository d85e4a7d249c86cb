//! The bytes of a rule file.
ghost use Rattle.std.specs.Prelude.{◌≡◌, ◌≢◌, List, ℕ, Result, IfOk, IfErr};
ghost use Rattle.words.specs.Answers.{UnlessMemory};
ghost use Rattle.rule_file.specs.Fault.{of_the_file};
ghost use Rattle.rule_file.specs.File.{ReadsFile, Spells, Refuses};

use crate::document::document_rules;
use crate::fault::{RuleCause, RuleFault};
use crate::rules::Rules;
use std::alloc::Global;

/// The greatest number of bytes of a rule file.
pub const LONGEST: usize = 1_048_576;

/// The rules of a rule file, or the first reason to refuse it.
///
/// The text is read as TOML by the crate `toml`. Besides the rules, it takes memory for the table of the file, and
/// gives that back.
///
/// # Errors
///
/// With rule 0, in this order: `FileTooLong`; `Syntax`; `UnknownKey` at the top; `MissingKey` or `WrongKind` of
/// `format`; what the table `format` is refused for; `WrongKind` of what should be an array of tables;
/// `TooMany`. Then what the first rule that is refused is refused for, with its number. `Memory` may come at any
/// time.
pub fn read_rules(alloc: Global, bytes: &[u8]) -> Result<Rules, RuleFault>
    ensures accepted { IfOk result (Spells bytes.now) }
    ensures refused { IfErr result (λ fault. fault ≢ of_the_file RuleCause.Memory → Refuses bytes.now fault) }
    ensures memory { IfErr result (λ fault. fault.cause ≡ RuleCause.Memory → fault.rule ≡ 0) }
    ensures only { (answer : Result Rules RuleFault) → ReadsFile bytes.now answer →
        UnlessMemory (of_the_file RuleCause.Memory) (λ given. given ≡ answer) result }
{
    // The law of the clause `only`; it does nothing.
    one_answer();
    file_rules(alloc, bytes)
}

/// What the bytes are read as.
fn file_rules(alloc: Global, bytes: &[u8]) -> Result<Rules, RuleFault>
    ensures { UnlessMemory (of_the_file RuleCause.Memory) (ReadsFile bytes.now) result }
{
    if bytes.len() > LONGEST {
        return Err(RuleFault::too_long());
    }
    match toml::table_from_slice(alloc, bytes) {
        Ok(file) => document_rules(alloc, &file),
        Err(fault) if fault.is_memory() => Err(RuleFault::of_the_file(RuleCause::Memory)),
        Err(_) => Err(RuleFault::of_the_file(RuleCause::Syntax)),
    }
}

/// A rule file has one answer only: its rules, or its first fault.
pub fn one_answer()
    ensures { (bytes : List ℕ) (one other : Result Rules RuleFault) → ReadsFile bytes one → ReadsFile bytes other → one ≡ other }
{
    rule_keys::one_answer();
}
