//! A certificate of which some lines have been read.
ghost use Rattle.std.specs.Prelude.{◌≡◌, IfOk, Some, None, if◌then◌else◌};
ghost use Rattle.cert_format.specs.Draft.{after_claim, after_header, after_lists, after_total, ended, lists_with, next, steps_with, whole, with_line};

use crate::cert::{Cert, SetList};
use crate::line::{Line, Version};
use crate::order::{item_follows, set_follows};
use screen_model::{FlowList, NameList};
use sequence::Sequence;
use std::alloc::{AllocError, Global};

/// A certificate of which some lines have been read, from the first on.
#[derive(Drop)]
pub(crate) enum Draft {
    /// No line.
    Empty,
    /// The header.
    Headed(Version),
    /// The header, and the claim of a repair.
    Claimed(Version),
    /// The lines of a priced repair up to its total.
    Totalled(i128),
    /// All lines before the lists, and the members of the lists so far.
    Listed(Cert),
    /// All lines.
    Ended(Cert),
}

impl Draft {
    /// The draft with one more line, and `None` where that line may not come next.
    pub(crate) fn next(self, alloc: Global, line: Line) -> Result<Option<Draft>, AllocError>
        ensures { IfOk result (λ after. after ≡ next self line) }
    {
        match self {
            Draft::Empty => match line {
                Line::Header(version) => Ok(Some(Draft::Headed(version))),
                _ => Ok(None),
            },
            Draft::Headed(version) => Ok(after_header(alloc, version, line)),
            Draft::Claimed(version) => Ok(after_claim(alloc, version, line)),
            Draft::Totalled(total) => Ok(after_total(alloc, total, line)),
            Draft::Listed(cert) => after_lists(cert, line),
            Draft::Ended(_) => Ok(None),
        }
    }

    /// The certificate whose lines have all been read.
    pub(crate) fn whole(self) -> Option<Cert>
        ensures { result ≡ whole self }
    {
        match self {
            Draft::Ended(cert) => Some(cert),
            _ => None,
        }
    }
}

/// The draft with a line after the header.
fn after_header(alloc: Global, version: Version, line: Line) -> Option<Draft>
    ensures { result ≡ after_header version line }
{
    match (version, line) {
        (_, Line::ClaimRepair) => Some(Draft::Claimed(version)),
        (Version::One, Line::ClaimNone) => Some(Draft::Listed(Cert::NoSeries {
            steps: Sequence::new(alloc),
        })),
        _ => None,
    }
}

/// The draft with a line after the claim of a repair.
fn after_claim(alloc: Global, version: Version, line: Line) -> Option<Draft>
    ensures { result ≡ after_claim version line }
{
    match (version, line) {
        (Version::One, Line::Total(total)) => Some(Draft::Listed(Cert::Repair {
            total,
            sets: Sequence::new(alloc),
            flow: Sequence::new(alloc),
        })),
        (Version::Two, Line::Total(total)) => Some(Draft::Totalled(total)),
        _ => None,
    }
}

/// The draft with a line after the total of a priced repair.
fn after_total(alloc: Global, total: i128, line: Line) -> Option<Draft>
    ensures { result ≡ after_total total line }
{
    match line {
        Line::Paid(paid) => Some(Draft::Listed(Cert::Priced {
            total,
            paid,
            sets: Sequence::new(alloc),
            flow: Sequence::new(alloc),
        })),
        _ => None,
    }
}

/// The draft with a line of its lists, or with the line that ends it.
fn after_lists(cert: Cert, line: Line) -> Result<Option<Draft>, AllocError>
    ensures { IfOk result (λ after. after ≡ after_lists cert line) }
{
    if let Line::End = line {
        return Ok(ended(cert));
    }
    match with_line(cert, line)? {
        Some(cert) => Ok(Some(Draft::Listed(cert))),
        None => Ok(None),
    }
}

/// The draft with its last line, which a cycle has after a step.
fn ended(cert: Cert) -> Option<Draft>
    ensures { result ≡ ended cert }
{
    if let Cert::NoSeries { steps } = &cert
        && steps.is_empty()
    {
        return None;
    }
    Some(Draft::Ended(cert))
}

/// The certificate with one more line in its lists, and `None` where that line may not come next.
fn with_line(cert: Cert, line: Line) -> Result<Option<Cert>, AllocError>
    ensures { IfOk result (λ after. after ≡ with_line cert line) }
{
    match cert {
        Cert::Repair {
            total,
            mut sets,
            mut flow,
        } => {
            let added = add_item(&mut sets, &mut flow, line)?;
            Ok(added.then_some(Cert::Repair { total, sets, flow }))
        }
        Cert::Priced {
            total,
            paid,
            mut sets,
            mut flow,
        } => {
            let added = add_item(&mut sets, &mut flow, line)?;
            Ok(added.then_some(Cert::Priced {
                total,
                paid,
                sets,
                flow,
            }))
        }
        Cert::NoSeries { steps } => steps_with(steps, line),
    }
}

/// The steps with one more, and `None` where the line is no step.
fn steps_with(mut steps: NameList, line: Line) -> Result<Option<Cert>, AllocError>
    ensures { IfOk result (λ after. after ≡ steps_with steps line) }
{
    let Line::Step(name) = line else {
        return Ok(None);
    };
    steps.push(name)?;
    Ok(Some(Cert::NoSeries { steps }))
}

/// Adds a set line or a flow line, and says whether it may come next.
fn add_item(sets: &mut SetList, flow: &mut FlowList, line: Line) -> Result<bool, AllocError>
    ensures { IfOk result (λ added. lists_with sets.old flow.old line ≡ (if added then Some (sets.new, flow.new) else None)) }
{
    match line {
        Line::Set(set) if flow.is_empty() && set_follows(sets.as_slice(), set) => {
            sets.push(set)?;
            Ok(true)
        }
        Line::Flow(item) if item_follows(flow.as_slice(), item) => {
            flow.push(item)?;
            Ok(true)
        }
        _ => Ok(false),
    }
}
