//! The parents of nodes: a ranking of the nodes by them, or a cycle of parents.
ghost use Rattle.std.specs.Prelude.{◌≡◌, ◌≢◌, ◌<◌, ◌≤◌, ◌+◌, ◌-◌, ◌^◌, ◌⊎◌, ℕ, List, length, take, drop, get_or, [], All, IfSome};
ghost use Rattle.std.specs.Prelude.{MatchOption};
ghost use Rattle.neg_cycle.specs.Forest.{IsRanking, IsParentCycle};
ghost use Rattle.neg_cycle.specs.ForestWalk.{IsWalk, Tells, StayRanked, rank_at, unranked};

/// The rank of a node that has none.
const UNRANKED: u64 = u64::MAX;

/// What lowered a node last: an arc, by its number, and the node that it leaves.
#[derive(Clone, Copy, Debug, PartialEq, Eq)]
pub(crate) struct Parent {
    pub(crate) arc: u32,
    pub(crate) tail: u32,
}

/// Where a cycle stands in a path of nodes.
#[derive(Clone, Copy)]
pub(crate) struct Stretch {
    pub(crate) start: usize,
    pub(crate) end: usize,
}

/// How a walk along parents ends.
#[derive(Clone, Copy)]
enum Walk {
    /// At a node without a parent or whose parent's tail is done, after so many nodes.
    Ended(usize),
    /// At a node that it had met before.
    Cycle(Stretch),
}

/// Walks from a node along parents to a node that has a rank or has no parent. The nodes met stand at the
/// front of the path, and each has as its rank its place in the walk, counted from the number of nodes done.
fn walk_up(
    parents: &[Option<Parent>],
    done: usize,
    first: u32,
    ranks: &mut Vec<u64>,
    path: &mut Vec<u32>,
) -> Walk
    requires few { length parents.now < 2 ^ 32 }
    requires tails { All (λ parent. IfSome parent (λ p. p.tail < length parents.now)) parents.now }
    requires first { first < length parents.now }
    requires ranks { IsWalk parents.now done [] ranks.old.items }
    requires path { length path.old.items ≡ length parents.now }
    ensures tells { Tells parents.now done path.new.items ranks.new.items result }
    ensures first { rank_at ranks.new.items first ≢ UNRANKED }
    ensures stay { StayRanked ranks.old.items ranks.new.items }
    ensures ranks { length ranks.new.items ≡ length ranks.old.items }
    ensures path { length path.new.items ≡ length path.old.items }
{
    let mut node = first;
    let mut count = 0;
    while ranks[node as usize] == UNRANKED {
        path[count] = node;
        ranks[node as usize] = (done + count) as u64;
        count += 1;
        match parents[node as usize] {
            Some(parent) => node = parent.tail,
            None => return Walk::Ended(count),
        }
    }
    let rank = ranks[node as usize] as usize;
    if rank < done {
        Walk::Ended(count)
    } else {
        Walk::Cycle(Stretch {
            start: rank - done,
            end: count,
        })
    }
}

/// Ranks the nodes of a walk from its end on, above the nodes that are done.
fn rank_walk(walk: &[u32], done: usize, ranks: &mut Vec<u64>)
    requires small { done + length walk.now ≤ length ranks.old.items }
    requires few { length ranks.old.items < 2 ^ 32 }
    requires within { (place : ℕ) → place < length walk.now → get_or walk.now place 0 < length ranks.old.items }
    requires places { (place : ℕ) → place < length walk.now →
        rank_at ranks.old.items (get_or walk.now place 0) ≡ done + place }
    ensures turned { (place : ℕ) → place < length walk.now →
        rank_at ranks.new.items (get_or walk.now place 0) + place + 1 ≡ done + length walk.now }
    ensures below { (node : ℕ) → rank_at ranks.old.items node < done →
        rank_at ranks.new.items node ≡ rank_at ranks.old.items node }
    ensures above { (node : ℕ) → done + length walk.now ≤ rank_at ranks.old.items node →
        rank_at ranks.new.items node ≡ rank_at ranks.old.items node }
    ensures count { unranked ranks.new.items ≡ unranked ranks.old.items }
    ensures nodes { length ranks.new.items ≡ length ranks.old.items }
{
    let mut rank = done + walk.len();
    for node in walk {
        rank -= 1;
        ranks[*node as usize] = rank as u64;
    }
}

/// Ranks the nodes so that each has a greater rank than the tail of its parent, or finds a cycle of parents,
/// which then stands in a stretch of the path. Takes time in proportion to the number of nodes, and no memory.
pub(crate) fn rank_or_cycle(
    parents: &[Option<Parent>],
    ranks: &mut Vec<u64>,
    path: &mut Vec<u32>,
) -> Option<Stretch>
    requires few { length parents.now < 2 ^ 32 }
    requires tails { All (λ parent. IfSome parent (λ p. p.tail < length parents.now)) parents.now }
    requires ranks { length ranks.old.items ≡ length parents.now }
    requires path { length path.old.items ≡ length parents.now }
    ensures answer { MatchOption result
        (IsRanking parents.now ranks.new.items)
        (λ stretch. (stretch.start ≤ stretch.end) × (stretch.end ≤ length path.new.items)
        × IsParentCycle parents.now (take (stretch.end - stretch.start) (drop stretch.start path.new.items))) }
    ensures ranks { length ranks.new.items ≡ length parents.now }
    ensures path { length path.new.items ≡ length parents.now }
{
    ranks.fill(UNRANKED);
    let mut done = 0;
    for node in 0..parents.len() as u32 {
        match walk_up(parents, done, node, ranks, path) {
            Walk::Ended(count) => {
                rank_walk(&path[..count], done, ranks);
                done += count;
            }
            Walk::Cycle(stretch) => return Some(stretch),
        }
    }
    None
}
