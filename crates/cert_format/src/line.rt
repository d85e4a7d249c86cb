//! The lines of a certificate.

use crate::cert::SetLine;
use screen_model::{BoundName, FlowItem};

/// The version of the form, in a certificate's first line.
#[derive(Clone, Copy, Debug, PartialEq, Eq)]
pub enum Version {
    /// Of a repair without the line of what is paid, and of a cycle.
    One,
    /// Of a repair with that line.
    Two,
}

/// A line of a certificate.
#[derive(Clone, Copy, Debug, PartialEq, Eq)]
pub enum Line {
    /// `screen-cert VERSION`.
    Header(Version),
    /// `claim repair`.
    ClaimRepair,
    /// `claim none`.
    ClaimNone,
    /// `total TOTAL`, in units.
    Total(i128),
    /// `paid PAID`, in units.
    Paid(i128),
    /// `set ROW COL VALUE`.
    Set(SetLine),
    /// `flow RULE FROM TO COL SIDE AMOUNT`.
    Flow(FlowItem),
    /// `step RULE FROM TO COL SIDE`.
    Step(BoundName),
    /// `end`.
    End,
}
