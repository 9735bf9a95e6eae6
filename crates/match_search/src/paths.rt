//! The paths of an alternating forest: the path from the root to an outer vertex, read from the
//! vertex up to the root.
ghost use Rattle.std.specs.Prelude.{◌≡◌, ℕ, ◌+◌, ◌<◌, ◌≤◌, true, length, suc, IfOk};
ghost use Rattle.graph_core.specs.from_counting.Common.{Set, mem};
ghost use Rattle.graph_core.specs.Common.{Graph};
ghost use Rattle.match_search.specs.Common.{AreClosingPaths, ClosesForest, HoldsForest, with_mate, numbers};

use crate::alternating::AlternatingForest;
use crate::growing::Adjacent;
use graph_core::vset_core::MOST_VERTICES;
use std::alloc::{AllocError as Memory, Global};

/// Writes two numbers of a row, the second of them at a place and the first before it.
fn write_pair(row: &mut [u32], place: usize, first: u32, second: u32)
    requires { suc place < length row.old }
    ensures { (j : ℕ) →
        numbers row.new j ≡ with_mate (with_mate (numbers row.old) (suc place) second) place first
        j }
{
    row[place + 1] = second;
    row[place] = first;
}

/// The number of pairs of edges of the path from a root to the outer vertex `x`.
pub fn pairs_to(forest: &AlternatingForest, mate: &[u32], x: u32) -> usize
    requires forest { HoldsForest mate.now forest.now }
    requires outer { mem forest.now.outer x ≡ true }
    ensures { (h : HoldsForest mate.now forest.now) → result ≡ h.holds.k x }
{
    let mut pairs = 0;
    let mut at = x;
    'climbing: while mate[at as usize] != 0 {
        at = forest.parent[mate[at as usize] as usize];
        pairs += 1;
    }
    pairs
}

/// Writes the vertices of the path from a root to the outer vertex `x`, which has this number of
/// pairs of edges, into a row, starting at a place.
pub fn write_path(
    row: &mut [u32],
    start: usize,
    forest: &AlternatingForest,
    mate: &[u32],
    x: u32,
    pairs: usize,
)
    requires forest { HoldsForest mate.now forest.now }
    requires outer { mem forest.now.outer x ≡ true }
    requires pairs { (h : HoldsForest mate.now forest.now) → pairs ≡ h.holds.k x }
    requires room { start + (pairs + pairs) < length row.old }
    ensures path { (h : HoldsForest mate.now forest.now) (j : ℕ) → j ≤ pairs + pairs →
        numbers row.new (start + j) ≡ h.holds.v x j }
    ensures kept { (j : ℕ) → j < start → numbers row.new j ≡ numbers row.old j }
{
    let mut v = x;
    for i in 0..pairs {
        let w = mate[v as usize];
        write_pair(row, start + (pairs - i - 1 + (pairs - i)), w, v);
        v = forest.parent[w as usize];
    }
    row[start] = v;
}

/// The paths to two outer vertices, one after the other in a row: the vertices of each from its
/// root on, and the numbers of pairs of their edges.
#[derive(Drop)]
pub struct Paths {
    pub row: Vec<u32>,
    pub first: usize,
    pub second: usize,
}

// Writes the path to the first of two vertices at the start of a row, and the path to the second
// after it. They have these numbers of pairs of edges.
fn write_paths(
    row: &mut [u32],
    forest: &AlternatingForest,
    mate: &[u32],
    bridge: Adjacent,
    first: usize,
    second: usize,
)
    requires closes { (g : Graph) × (r : Set) × (f : Set) ×
        ClosesForest g r f mate.now forest.now bridge }
    requires first_is { (h : HoldsForest mate.now forest.now) → first ≡ h.holds.k bridge.v }
    requires second_is { (h : HoldsForest mate.now forest.now) → second ≡ h.holds.k bridge.w }
    requires short { first < MOST_VERTICES }
    requires room { suc (first + first) + (second + second) < length row.old }
    ensures first { (h : HoldsForest mate.now forest.now) (j : ℕ) → j ≤ first + first →
        numbers row.new (0 + j) ≡ h.holds.v bridge.v j }
    ensures second { (h : HoldsForest mate.now forest.now) (j : ℕ) → j ≤ second + second →
        numbers row.new (suc (first + first) + j) ≡ h.holds.v bridge.w j }
{
    write_path(row, 0, forest, mate, bridge.v, first);
    write_path(row, first + first + 1, forest, mate, bridge.w, second);
}

/// The paths to two outer vertices that an edge joins.
pub fn paths_to(
    alloc: Global,
    forest: &AlternatingForest,
    mate: &[u32],
    bridge: Adjacent,
) -> Result<Paths, Memory>
    requires { (g : Graph) × (r : Set) × (f : Set) × ClosesForest g r f mate.now forest.now bridge }
    ensures { IfOk result (λ w. (g : Graph) (r f : Set) →
        ClosesForest g r f mate.now forest.now bridge → AreClosingPaths g r f mate.now w) }
{
    let first = pairs_to(forest, mate, bridge.v);
    let second = pairs_to(forest, mate, bridge.w);
    let mut row = vec![in alloc; 0; first + first + 1 + (second + second + 1)]?;
    write_paths(&mut row, forest, mate, bridge, first, second);
    Ok(Paths { row, first, second })
}
