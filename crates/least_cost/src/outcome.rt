//! What is found for a problem.

use screen_model::{FlowList, NameList, Series};

/// What is found for a problem.
#[derive(Drop)]
pub enum Outcome {
    /// Some series obeys.
    Repaired {
        /// Of the series that obey and cost least the greatest, in units.
        series: Series,
        /// A flow on bounds, in the order of the bounds, whose dual value is the cost.
        flow: FlowList,
        /// What the series costs: its weighted change and what is paid, in units.
        total: i128,
        /// What is paid for the bounds that the series breaks, in units.
        paid: i128,
        /// How often the solver changed the flow of an arc.
        changes: u64,
    },
    /// No series obeys.
    NoSeries {
        /// A cycle of bounds without a price whose limits have a negative sum: each begins where the one before it ends.
        cycle: NameList,
    },
}
