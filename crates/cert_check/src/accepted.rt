//! What a certificate is accepted as.

use screen_model::{FlowList, NameList, Series};

/// What a certificate is accepted as.
#[derive(Drop)]
pub enum Accepted {
    /// A series that obeys, and that no series that obeys costs less than.
    Repair {
        /// The series: the readings with the values of the set lines.
        series: Series,
        /// The flow that shows it.
        flow: FlowList,
        /// What the series costs, in units.
        total: i128,
        /// The part of it that is paid for bounds that the series breaks, in units; 0 where no rule has a price.
        paid: i128,
    },
    /// No series obeys.
    NoSeries {
        /// The names of bounds that show it, in the order of the cycle.
        cycle: NameList,
    },
}
