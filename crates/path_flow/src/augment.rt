//! Flow moved along a shortest path.
ghost use Rattle.std.specs.Prelude.{◌≡◌, ◌<◌, pos, ◌≤ℤ◌, Some};
ghost use Rattle.flow_core.specs.Layout.{nodes_of};
ghost use Rattle.flow_core.specs.State.{IsNetwork};
ghost use Rattle.path_flow.specs.declared.search.Label.{Label};
ghost use Rattle.path_flow.specs.Flow.{IsPushed, IsTightPath};
ghost use Rattle.path_flow.specs.Steps.{HasNoNegatives};
ghost use Rattle.path_flow.specs.Search.{IsRooted, label_at};

use crate::search::{Labels, Task, node_before, takes_from};
use flow_core::Network;

/// Pushes an amount along the path to the end, which has none but tight arcs.
pub(crate) fn push_along(net: &mut Network, task: Task, labels: &Labels, end: u32, amount: i64)
    requires network { IsNetwork net.old }
    requires optimal { HasNoNegatives net.old }
    requires tree { IsRooted net.old task labels.now.labels }
    requires end { end < nodes_of net.old.network }
    requires tight { IsTightPath net.old task labels.now.labels end }
    requires some { pos 1 ≤ℤ amount }
    requires room { (label : Label) × (label_at labels.now.labels end ≡ Some label) × (amount ≤ℤ label.room) }
    ensures pushed { IsPushed task labels.now.labels end task.source amount net.old net.new }
    ensures network { IsNetwork net.new }
    ensures optimal { HasNoNegatives net.new }
{
    let mut node = end;
    while node != task.source {
        match labels.label(node) {
            None => return,
            Some(label) => {
                net.push(
                    label.number / 2,
                    takes_from(label.number, task.direction),
                    amount,
                );
                node = node_before(net, label.number);
            }
        }
    }
}
