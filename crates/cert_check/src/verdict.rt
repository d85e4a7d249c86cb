//! The check of a certificate.
ghost use Rattle.std.specs.Prelude.{◌≡◌, ◌≢◌, ◌≤◌, length, Result, Ok, Err, IfOk, IfErr};
ghost use Rattle.words.specs.Answers.{UnlessMemory};
ghost use Rattle.cert_format.specs.Cert.{HasText, text_of_cert};
ghost use Rattle.bound_maker.specs.Bounds.{made_bounds};
ghost use Rattle.bound_maker.specs.declared.maker.TheConstants.{MOST_BOUNDS};
ghost use Rattle.cert_check.specs.declared.accepted.Accepted.{Accepted};
ghost use Rattle.cert_check.specs.declared.fault.CertFault.{CertFault};
ghost use Rattle.cert_check.specs.declared.fault.CertFault.TheVariants.{Memory};
ghost use Rattle.cert_check.specs.Judges.{Judges, answer_to, fault_of_read};

use crate::accepted::Accepted;
use crate::cycle::judge_cycle;
use crate::fault::CertFault;
use crate::laws::one_answer;
use crate::repair::{Claim, judge_repair};
use cert_format::{Cert, CertRead, LONGEST, read_cert};
use rule_file::Rules;
use screen_model::BoundList;
use series_csv::Table;
use std::alloc::Global;

/// What a certificate is accepted as, by the rules and the table that was read. The bounds are those that `make` gives.
///
/// It takes time in proportion to the readings, the bounds and the lines; beside that the weight rules are gone over once for
/// each sensor column, and for each time at which one of them begins or ends. A flow line or a step line may also name a
/// bound that is not among those that are made.
///
/// # Errors
///
/// The first fault in this order. `FileTooLong` and `Syntax` come for texts that are no certificate. For a repair follow
/// `SetOutside`, `UnknownBound`, `OverPrice`, `Broken`, `TotalWrong`, `PaidWrong`, `PullTooGreat` and `ValueDiffers`, for
/// the other claim `UnknownBound`, `PricedStep`, `CycleOpen` and `CycleSum`. `Memory` may come at any time.
#[tactic(none)]
pub fn check(
    alloc: Global,
    table: &Table,
    rules: &Rules,
    bounds: &BoundList,
    bytes: &[u8],
) -> Result<Accepted, CertFault>
    requires made { bounds.now ≡ made_bounds rules.now table.now }
    requires few { length bounds.now ≤ MOST_BOUNDS }
    ensures accepted { IfOk result (λ accepted. Judges rules.now table.now bytes.now (Ok accepted)) }
    ensures refused { IfErr result (λ fault. fault ≢ Memory → Judges rules.now table.now bytes.now (Err fault)) }
    ensures only { (answer : Result Accepted CertFault) → Judges rules.now table.now bytes.now answer → UnlessMemory Memory (λ given. given ≡ answer) result }
{
    // The law that shows `only`; it does nothing.
    one_answer();
    if bytes.len() > LONGEST {
        return Err(CertFault::FileTooLong);
    }
    match read_cert(alloc, bytes) {
        Ok(cert) => judge(alloc, table, rules, bounds, cert),
        Err(fault) => Err(fault_of_read(fault)),
    }
}

/// The fault of a text that is no certificate.
fn fault_of_read(fault: CertRead) -> CertFault
    ensures { result ≡ fault_of_read fault }
{
    match fault {
        CertRead::Syntax { line } => CertFault::Syntax { line },
        CertRead::Memory => CertFault::Memory,
    }
}

/// What a certificate is accepted as.
#[tactic(none)]
fn judge(
    alloc: Global,
    table: &Table,
    rules: &Rules,
    bounds: &BoundList,
    cert: Cert,
) -> Result<Accepted, CertFault>
    requires made { bounds.now ≡ made_bounds rules.now table.now }
    requires few { length bounds.now ≤ MOST_BOUNDS }
    requires text { HasText cert }
    requires short { length (text_of_cert cert) ≤ LONGEST }
    ensures { UnlessMemory Memory (λ given. given ≡ answer_to rules.now table.now cert) result }
{
    match cert {
        Cert::Repair { total, sets, flow } => {
            let claim = Claim {
                before: 3,
                total,
                paid: None,
                sets,
                flow,
            };
            judge_repair(alloc, table, rules, bounds, claim)
        }
        Cert::Priced {
            total,
            paid,
            sets,
            flow,
        } => {
            let claim = Claim {
                before: 4,
                total,
                paid: Some(paid),
                sets,
                flow,
            };
            judge_repair(alloc, table, rules, bounds, claim)
        }
        Cert::NoSeries { steps } => judge_cycle(alloc, table, rules, steps),
    }
}
