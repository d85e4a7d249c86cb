//! What a certificate says.

use screen_model::{FlowList, NameList, Place};
use sequence::Sequence;

/// The value that a repair gives to the reading at a place.
#[derive(Clone, Copy, Debug, PartialEq, Eq)]
pub struct SetLine {
    /// The place of the reading.
    pub place: Place,
    /// The value, in units.
    pub value: i64,
}

/// The readings that a repair changes, in their order.
pub type SetList = Sequence<SetLine>;

/// A certificate.
#[derive(Drop)]
pub enum Cert {
    /// A repair of least cost, by a series and a flow.
    Repair {
        /// What the series costs, in units.
        total: i128,
        /// The readings that it changes.
        sets: SetList,
        /// The flow.
        flow: FlowList,
    },
    /// The same where bounds have prices, with what is paid for the bounds that the series breaks.
    Priced {
        /// What the series costs, in units.
        total: i128,
        /// The part of the total that is paid for broken bounds, in units.
        paid: i128,
        /// The readings that it changes.
        sets: SetList,
        /// The flow.
        flow: FlowList,
    },
    /// A cycle of bounds, which shows that no series obeys.
    NoSeries {
        /// The names of the bounds, in the order of the cycle.
        steps: NameList,
    },
}
