//! The lists that an answer is written to.
ghost use Rattle.std.specs.Prelude.{◌≡◌, [], IfOk};

use screen_model::{FlowList, NameList, Series};
use std::alloc::{AllocError, Global};

/// The lists that an answer is written to, whatever it will be.
#[derive(Drop)]
pub(crate) struct AnswerLists {
    /// For the value of each reading.
    pub(crate) series: Series,
    /// For an item for each bound.
    pub(crate) flow: FlowList,
    /// For the name of a bound for each step of a cycle, which leaves no node twice.
    pub(crate) cycle: NameList,
}

impl AnswerLists {
    /// Empty lists, with all the room that an answer over so many nodes and bounds can want.
    pub(crate) fn with_room(
        alloc: Global,
        nodes: u32,
        bounds: u32,
    ) -> Result<AnswerLists, AllocError>
        ensures { IfOk result (λ lists. lists ≡ record { series = []; flow = []; cycle = [] }) }
    {
        Ok(AnswerLists {
            series: Series::with_capacity(alloc, nodes as usize)?,
            flow: FlowList::with_capacity(alloc, bounds as usize)?,
            cycle: NameList::with_capacity(alloc, nodes as usize)?,
        })
    }
}
