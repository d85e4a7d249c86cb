//! The text of a certificate.
ghost use Rattle.std.specs.Prelude.{◌≡◌, ◌++◌, ◌∷◌, [], map, decimal, IfOk, OnOk};
ghost use Rattle.cert_format.specs.declared.line.Line.TheVariants.{Set, Flow, Step};
ghost use Rattle.cert_format.specs.Words.{line_feed, space, text_of_lines};
ghost use Rattle.cert_format.specs.Fields.{name_fields};
ghost use Rattle.cert_format.specs.Line.{text_of_line};
ghost use Rattle.cert_format.specs.Cert.{HasText, lines_before_end, text_of_cert};

use crate::cert::{Cert, SetLine, SetList};
use crate::line::{Line, Version};
use itoa::Buffer;
use screen_model::{BoundName, FlowItem, FlowList, NameList, Side};
use std::alloc::{AllocError, Global};

/// The text of a certificate.
pub fn write_cert(alloc: Global, cert: &Cert) -> Result<Vec<u8>, AllocError>
    requires { HasText cert.now }
    ensures { IfOk result (λ text. text.items ≡ text_of_cert cert.now) }
{
    let mut text = Vec::new(alloc);
    push_before_end(&mut text, cert)?;
    push_whole(&mut text, Line::End)?;
    Ok(text)
}

/// Adds the lines of a certificate, without the last one.
fn push_before_end(text: &mut Vec<u8>, cert: &Cert) -> Result<(), AllocError>
    ensures { OnOk result (text.new.items ≡ text.old.items ++ text_of_lines (map text_of_line (lines_before_end cert.now))) }
{
    match cert {
        Cert::Repair { total, sets, flow } => push_repair(text, *total, sets, flow),
        Cert::Priced {
            total,
            paid,
            sets,
            flow,
        } => push_priced(text, *total, *paid, sets, flow),
        Cert::NoSeries { steps } => push_cycle(text, steps),
    }
}

/// Adds the lines of a repair, without the last one.
fn push_repair(
    text: &mut Vec<u8>,
    total: i128,
    sets: &SetList,
    flow: &FlowList,
) -> Result<(), AllocError>
    ensures { OnOk result (text.new.items ≡ text.old.items ++ text_of_lines (map text_of_line (lines_before_end (Cert.Repair total sets.now flow.now)))) }
{
    push_whole(text, Line::Header(Version::One))?;
    push_whole(text, Line::ClaimRepair)?;
    push_whole(text, Line::Total(total))?;
    push_lists(text, sets, flow)
}

/// Adds the lines of a priced repair, without the last one.
fn push_priced(
    text: &mut Vec<u8>,
    total: i128,
    paid: i128,
    sets: &SetList,
    flow: &FlowList,
) -> Result<(), AllocError>
    ensures { OnOk result (text.new.items ≡ text.old.items ++ text_of_lines (map text_of_line (lines_before_end (Cert.Priced total paid sets.now flow.now)))) }
{
    push_whole(text, Line::Header(Version::Two))?;
    push_whole(text, Line::ClaimRepair)?;
    push_whole(text, Line::Total(total))?;
    push_whole(text, Line::Paid(paid))?;
    push_lists(text, sets, flow)
}

/// Adds the lines of a cycle, without the last one.
fn push_cycle(text: &mut Vec<u8>, steps: &NameList) -> Result<(), AllocError>
    ensures { OnOk result (text.new.items ≡ text.old.items ++ text_of_lines (map text_of_line (lines_before_end (Cert.NoSeries steps.now)))) }
{
    push_whole(text, Line::Header(Version::One))?;
    push_whole(text, Line::ClaimNone)?;
    push_steps(text, steps.as_slice())
}

/// Adds the lines of a repair's lists.
fn push_lists(text: &mut Vec<u8>, sets: &SetList, flow: &FlowList) -> Result<(), AllocError>
    ensures { OnOk result (text.new.items ≡ text.old.items ++ text_of_lines (map text_of_line (map Set sets.now ++ map Flow flow.now))) }
{
    push_sets(text, sets.as_slice())?;
    push_items(text, flow.as_slice())
}

/// Adds set lines.
fn push_sets(text: &mut Vec<u8>, sets: &[SetLine]) -> Result<(), AllocError>
    ensures { OnOk result (text.new.items ≡ text.old.items ++ text_of_lines (map text_of_line (map Set sets.now))) }
{
    for set in sets {
        push_whole(text, Line::Set(*set))?;
    }
    Ok(())
}

/// Adds flow lines.
fn push_items(text: &mut Vec<u8>, flow: &[FlowItem]) -> Result<(), AllocError>
    ensures { OnOk result (text.new.items ≡ text.old.items ++ text_of_lines (map text_of_line (map Flow flow.now))) }
{
    for item in flow {
        push_whole(text, Line::Flow(*item))?;
    }
    Ok(())
}

/// Adds step lines.
fn push_steps(text: &mut Vec<u8>, steps: &[BoundName]) -> Result<(), AllocError>
    ensures { OnOk result (text.new.items ≡ text.old.items ++ text_of_lines (map text_of_line (map Step steps.now))) }
{
    for name in steps {
        push_whole(text, Line::Step(*name))?;
    }
    Ok(())
}

/// Adds a line with its line feed.
fn push_whole(text: &mut Vec<u8>, line: Line) -> Result<(), AllocError>
    ensures { OnOk result (text.new.items ≡ text.old.items ++ (text_of_line line ++ line_feed ∷ [])) }
{
    push_line(text, line)?;
    text.extend_from_slice(b"\n")
}

/// Adds the text of a line, without its line feed. Where memory runs out, a front part of it may have been added.
pub fn push_line(text: &mut Vec<u8>, line: Line) -> Result<(), AllocError>
    ensures { OnOk result (text.new.items ≡ text.old.items ++ text_of_line line) }
{
    let mut digits = Buffer::new();
    match line {
        Line::Header(Version::One) => text.extend_from_slice(b"screen-cert 1"),
        Line::Header(Version::Two) => text.extend_from_slice(b"screen-cert 2"),
        Line::ClaimRepair => text.extend_from_slice(b"claim repair"),
        Line::ClaimNone => text.extend_from_slice(b"claim none"),
        Line::Total(total) => {
            text.extend_from_slice(b"total ")?;
            text.extend_from_slice(digits.format(total).as_bytes())
        }
        Line::Paid(paid) => {
            text.extend_from_slice(b"paid ")?;
            text.extend_from_slice(digits.format(paid).as_bytes())
        }
        Line::Set(set) => {
            text.extend_from_slice(b"set ")?;
            push_number(text, set.place.row)?;
            push_number(text, set.place.col)?;
            text.extend_from_slice(digits.format(set.value).as_bytes())
        }
        Line::Flow(item) => {
            text.extend_from_slice(b"flow ")?;
            push_name(text, item.name)?;
            text.extend_from_slice(b" ")?;
            text.extend_from_slice(digits.format(item.amount).as_bytes())
        }
        Line::Step(name) => {
            text.extend_from_slice(b"step ")?;
            push_name(text, name)
        }
        Line::End => text.extend_from_slice(b"end"),
    }
}

/// Adds the words of a name.
fn push_name(text: &mut Vec<u8>, name: BoundName) -> Result<(), AllocError>
    ensures { OnOk result (text.new.items ≡ text.old.items ++ name_fields name) }
{
    push_number(text, name.rule)?;
    push_number(text, name.from_row)?;
    push_number(text, name.to_row)?;
    push_number(text, name.col)?;
    let side = match name.side {
        Side::Up => "up",
        Side::Down => "down",
    };
    text.extend_from_slice(side.as_bytes())
}

/// Adds a number and a space.
fn push_number(text: &mut Vec<u8>, number: u32) -> Result<(), AllocError>
    ensures { OnOk result (text.new.items ≡ text.old.items ++ (decimal number ++ space ∷ [])) }
{
    let mut digits = Buffer::new();
    text.extend_from_slice(digits.format(number).as_bytes())?;
    text.extend_from_slice(b" ")
}
