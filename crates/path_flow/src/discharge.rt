//! All excess moved to where there is a deficit.
ghost use Rattle.std.specs.Prelude.{◌≡◌, ◌≢◌, ◌≤◌, ◌<◌, ◌+◌, ◌^◌, ◌↔◌, ◌==◌, not, true, false, ℕ, pos, ◌+ℤ◌, ◌≤ℤ◌, IsTrue, MatchOption, Some, length, unsigned_abs};
ghost use Rattle.bound_graph.specs.Values.{value_of};
ghost use Rattle.flow_core.specs.Laws.{IsBalancedAtReadings};
ghost use Rattle.flow_core.specs.Layout.{nodes_of};
ghost use Rattle.flow_core.specs.State.{IsNetwork};
ghost use Rattle.path_flow.specs.declared.search.Label.{Label};
ghost use Rattle.path_flow.specs.Flow.{HasSign, IsAugmented, IsLeft, amount_if};
ghost use Rattle.path_flow.specs.Reach.{nothing_reached};
ghost use Rattle.path_flow.specs.Steps.{HasNoNegatives};
ghost use Rattle.path_flow.specs.Search.{IsEnd, label_at};
ghost use Rattle.path_flow.specs.Searching.{AreFree};

use crate::augment::push_along;
use crate::potentials::change_potentials;
use crate::search::{Direction, Labels, Task, search};
use crate::units::size;
use flow_core::Network;

/// Moves flow along shortest paths until no reading has an excess or a deficit.
///
/// Node 0 is an end of every search as long as `spare`, by which the units that may still be moved exceed those that stand
/// at readings, is not below 0.
pub(crate) fn discharge(net: &mut Network, labels: &mut Labels, spare: i64)
    requires network { IsNetwork net.old }
    requires optimal { HasNoNegatives net.old }
    requires fresh { labels.old ≡ nothing_reached (nodes_of net.old.network) }
    requires left { (bound : ℕ) × IsLeft net.old.network bound net.old spare 1 }
    ensures network_stays { net.new.network ≡ net.old.network }
    ensures network { IsNetwork net.new }
    ensures optimal { HasNoNegatives net.new }
    ensures free { AreFree net.new }
    ensures balanced { IsBalancedAtReadings net.new }
    ensures changes { (bound : ℕ) → IsLeft net.old.network bound net.old spare 1 → net.new.changes ≤ bound }
{
    let mut spare = spare;
    for node in 1..net.nodes() {
        spare = discharge_reading(net, labels, node, spare);
    }
}

/// Moves flow along shortest paths until a reading has no excess or deficit. Answers how many units are to spare then.
fn discharge_reading(net: &mut Network, labels: &mut Labels, node: u32, spare: i64) -> i64
    requires network { IsNetwork net.old }
    requires optimal { HasNoNegatives net.old }
    requires fresh { labels.old ≡ nothing_reached (nodes_of net.old.network) }
    requires reading { 1 ≤ node }
    requires node { node < nodes_of net.old.network }
    requires left { (bound : ℕ) × IsLeft net.old.network bound net.old spare node }
    ensures network_stays { net.new.network ≡ net.old.network }
    ensures network { IsNetwork net.new }
    ensures optimal { HasNoNegatives net.new }
    ensures fresh { labels.new ≡ nothing_reached (nodes_of net.new.network) }
    ensures left { (bound : ℕ) → IsLeft net.old.network bound net.old spare node → IsLeft net.old.network bound net.new result (node + 1) }
{
    let mut spare = spare;
    while is_unbalanced(net, node) {
        spare = discharge_once(net, labels, node, spare);
    }
    spare
}

/// Whether a node has an excess or a deficit.
pub(crate) fn is_unbalanced(net: &Network, node: u32) -> bool
    requires { node < nodes_of net.now.network }
    ensures some { result ≡ true → value_of net.now.excesses node ≢ pos 0 }
    ensures none { result ≡ false → value_of net.now.excesses node ≡ pos 0 }
{
    net.excess(node) != 0
}

/// Moves flow along a shortest path from or to a reading. Answers how many units are to spare then.
fn discharge_once(net: &mut Network, labels: &mut Labels, node: u32, spare: i64) -> i64
    requires network { IsNetwork net.old }
    requires optimal { HasNoNegatives net.old }
    requires fresh { labels.old ≡ nothing_reached (nodes_of net.old.network) }
    requires reading { 1 ≤ node }
    requires node { node < nodes_of net.old.network }
    requires some { value_of net.old.excesses node ≢ pos 0 }
    requires left { (bound : ℕ) × IsLeft net.old.network bound net.old spare node }
    ensures network_stays { net.new.network ≡ net.old.network }
    ensures network { IsNetwork net.new }
    ensures optimal { HasNoNegatives net.new }
    ensures fresh { labels.new ≡ nothing_reached (nodes_of net.new.network) }
    ensures left { (bound : ℕ) → IsLeft net.old.network bound net.old spare node → IsLeft net.old.network bound net.new result node }
    ensures falls { unsigned_abs (value_of net.new.excesses node) < unsigned_abs (value_of net.old.excesses node) }
{
    let task = Task {
        source: node,
        direction: direction_of(net.excess(node)),
        ends_at_zero: is_not_negative(spare),
    };
    match augment(net, task, labels) {
        Some(gain) => plus(spare, gain),
        None => spare,
    }
}

/// Whether a number of units is not below 0.
fn is_not_negative(units: i64) -> bool
    ensures { IsTrue result ↔ (pos 0 ≤ℤ units) }
{
    units >= 0
}

/// The units to spare, and a gain.
fn plus(spare: i64, gain: i64) -> i64
    requires spare { unsigned_abs spare ≤ 2 ^ 40 }
    requires gain { unsigned_abs gain ≤ 2 ^ 40 }
    ensures { result ≡ spare +ℤ gain }
{
    spare + gain
}

/// The way in which an excess or a deficit is moved.
pub(crate) fn direction_of(excess: i64) -> Direction
    requires { excess ≢ pos 0 }
    ensures { HasSign result excess }
{
    if excess > 0 {
        Direction::Forwards
    } else {
        Direction::Backwards
    }
}

/// Moves flow along a shortest path. Answers by how many units more the readings are relieved than are moved.
fn augment(net: &mut Network, task: Task, labels: &mut Labels) -> Option<i64>
    requires network { IsNetwork net.old }
    requires optimal { HasNoNegatives net.old }
    requires free { AreFree net.old }
    requires fresh { labels.old ≡ nothing_reached (nodes_of net.old.network) }
    requires reading { 1 ≤ task.source }
    requires source { task.source < nodes_of net.old.network }
    requires some { value_of net.old.excesses task.source ≢ pos 0 }
    requires end { (end : ℕ) × (end < nodes_of net.old.network) × IsEnd net.old task end }
    ensures network { IsNetwork net.new }
    ensures optimal { HasNoNegatives net.new }
    ensures fresh { labels.new ≡ nothing_reached (nodes_of net.new.network) }
    ensures augmented { MatchOption result ⊥ (λ gain. IsAugmented task net.old net.new gain) }
{
    let end = search(net, task, labels)?;
    change_potentials(net, task, labels, end);
    let amount = amount_to(net, task, labels, end);
    push_along(net, task, labels, end, amount);
    labels.forget();
    Some(gain_of(end, amount))
}

/// How much is moved along the path to an end.
fn amount_to(net: &Network, task: Task, labels: &Labels, end: u32) -> i64
    requires network { IsNetwork net.now }
    requires size { length labels.now.labels ≡ nodes_of net.now.network }
    requires end { end < nodes_of net.now.network }
    requires room { (label : Label) × (label_at labels.now.labels end ≡ Some label) × (pos 1 ≤ℤ label.room) }
    requires is_end { IsEnd net.now task end }
    ensures some { pos 1 ≤ℤ result }
    ensures room { (label : Label) → label_at labels.now.labels end ≡ Some label → result ≤ℤ label.room }
    ensures opposite { ((end ≡ 0) × (task.ends_at_zero ≡ true) → ⊥) → result ≤ℤ pos (unsigned_abs (value_of net.now.excesses end)) }
{
    if stops_at(task, end) {
        room_to(labels, end)
    } else {
        room_to(labels, end).min(size(net.excess(end)))
    }
}

/// Whether a node is an end because it is node 0, whatever its excess is.
fn stops_at(task: Task, end: u32) -> bool
    ensures { IsTrue result ↔ ((end ≡ 0) × (task.ends_at_zero ≡ true)) }
{
    end == 0 && task.ends_at_zero
}

/// How much can be moved on the way to a node.
fn room_to(labels: &Labels, end: u32) -> i64
    requires end { end < length labels.now.labels }
    requires room { (label : Label) × (label_at labels.now.labels end ≡ Some label) × (pos 1 ≤ℤ label.room) }
    ensures some { pos 1 ≤ℤ result }
    ensures room { (label : Label) → label_at labels.now.labels end ≡ Some label → result ≡ label.room }
{
    match labels.label(end) {
        Some(label) => label.room,
        None => 1,
    }
}

/// By how much more the readings are relieved than is moved: once by what is moved from one, and twice where it goes to one.
fn gain_of(end: u32, amount: i64) -> i64
    ensures { result ≡ amount_if (not (end == 0)) amount }
{
    if end == 0 { 0 } else { amount }
}
