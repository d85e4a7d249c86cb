//! How the nodes of places are found.
ghost use Rattle.std.specs.Prelude.{◌≡◌, ◌<◌, ◌≤◌, ◌+◌, ◌^◌, true, length, Contains, IfOk};
ghost use Rattle.words.specs.Lists.{Distinct};
ghost use Rattle.screen_model.specs.Series.{IsEnd};
ghost use Rattle.bound_graph.specs.Graph.{index_of, node_of};
ghost use Rattle.bound_graph.specs.Index.{IsIndexed, IsNumbered, IsRising, IsRowTable};

use screen_model::{End, Place};
use std::alloc::{AllocError, Global};
use std::collections::HashMap;

/// The node of the reading at each place, by the place's row and column.
type NodeMap = HashMap<(u32, u32), u32>;

/// With so many rows for each place at most, the starts of the rows take no more memory than a map.
const ROWS_FOR_EACH_PLACE: usize = 8;

/// What the node of a place is found by.
#[derive(Drop)]
pub enum PlaceIndex {
    /// Where the places of each row start; the places rise.
    Rows(Vec<u32>),
    /// A map from rows and columns, whatever the order of the places.
    Map(NodeMap),
}

impl PlaceIndex {
    /// The index of these places: by rows if they rise and do not leave most rows out, and else by a map.
    pub fn of(alloc: Global, places: &[Place]) -> Result<PlaceIndex, AllocError>
        requires distinct { Distinct places.now }
        requires few { length places.now + 1 < 2 ^ 32 }
        ensures { IfOk result (IsIndexed places.now) }
    {
        let rows = places.last().map_or(0, |place| place.row as usize);
        if rows / ROWS_FOR_EACH_PLACE <= places.len() && is_rising(places) {
            Ok(PlaceIndex::Rows(row_starts(alloc, places)?))
        } else {
            Ok(PlaceIndex::Map(node_map(alloc, places)?))
        }
    }

    /// The node of an end.
    pub fn node(&self, places: &[Place], end: End) -> u32
        requires few { length places.now + 1 < 2 ^ 32 }
        requires indexed { IsIndexed places.now self.now }
        requires end { IsEnd places.now end }
        ensures { result ≡ node_of places.now end }
    {
        match (end, self) {
            (End::Zero, _) => 0,
            (End::At(place), PlaceIndex::Rows(starts)) => {
                index_in_row(places, starts, place) as u32 + 1
            }
            (End::At(place), PlaceIndex::Map(nodes)) => {
                nodes.get(&(place.row, place.col)).copied().unwrap_or(0)
            }
        }
    }
}

/// Whether rows do not fall from place to place, and columns rise within a row.
fn is_rising(places: &[Place]) -> bool
    ensures { result ≡ true → IsRising places.now (length places.now) }
{
    for i in 1..places.len() {
        if !comes_before(places[i - 1], places[i]) {
            return false;
        }
    }
    true
}

/// Whether a place stands in an earlier row than another, or before it in the same row.
fn comes_before(place: Place, other: Place) -> bool
    ensures rows { result ≡ true → place.row ≤ other.row }
    ensures cols { result ≡ true → place.row ≡ other.row → place.col < other.col }
{
    place.row < other.row || (place.row == other.row && place.col < other.col)
}

/// Where the places of each row start, up to the row after the last one, where all have ended.
fn row_starts(alloc: Global, places: &[Place]) -> Result<Vec<u32>, AllocError>
    requires rising { IsRising places.now (length places.now) }
    requires few { length places.now + 1 < 2 ^ 32 }
    ensures { IfOk result (λ starts. IsRowTable places.now (length places.now) 1 starts.items) }
{
    let rows = places.last().map_or(0, |place| place.row as usize + 1);
    let mut starts = Vec::with_capacity(alloc, rows + 1)?;
    for (i, place) in places.iter().enumerate() {
        starts.resize(place.row as usize + 1, i as u32)?;
    }
    starts.push(places.len() as u32)?;
    Ok(starts)
}

/// The index of a place, looked for by its column among the places of its row.
fn index_in_row(places: &[Place], starts: &[u32], place: Place) -> usize
    requires rising { IsRising places.now (length places.now) }
    requires starts { IsRowTable places.now (length places.now) 1 starts.now }
    requires contained { Contains places.now place }
    ensures { result ≡ index_of places.now place }
{
    let start = starts[place.row as usize] as usize;
    let end = starts[place.row as usize + 1] as usize;
    start + places[start..end].partition_point(|other| other.col < place.col)
}

/// The map of the nodes: i + 1 for the place of index i.
fn node_map(alloc: Global, places: &[Place]) -> Result<NodeMap, AllocError>
    requires distinct { Distinct places.now }
    requires few { length places.now + 1 < 2 ^ 32 }
    ensures { IfOk result (IsNumbered places.now (length places.now)) }
{
    let mut nodes = HashMap::with_capacity(alloc, places.len())?;
    for (i, place) in places.iter().enumerate() {
        nodes.insert((place.row, place.col), i as u32 + 1)?;
    }
    Ok(nodes)
}
