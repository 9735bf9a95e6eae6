//! The kinds of the leaves of a decomposition, and their numbers.
ghost use Rattle.std.specs.Prelude.{◌≡◌, ◌↔◌, ◌<◌, ◌^◌, length, map, count_by, not, IfOk, IsTrue, All};
ghost use Rattle.graph_core.specs.Common.{Graph, IsBipartite};
ghost use Rattle.tree_core.specs.Common.{AreLeafKinds, IsKindOf, IsLeafKind, IsTally, is_brick, tally_of};

use crate::partitions::Partitions;
use contraction::{Partition, quotient_graph};
use graph_core::{MultiGraph, Sides};
use std::alloc::{AllocError as Memory, Global};

/// The kind of a leaf, told by its quotient.
#[derive(Clone, Copy, Debug, PartialEq, Eq)]
pub enum LeafKind {
    /// The quotient is not bipartite.
    Brick,
    /// The quotient is bipartite.
    Brace,
}

/// How many leaves a decomposition has.
#[derive(Clone, Copy, Debug, PartialEq, Eq)]
pub struct Tally {
    /// The number of leaves.
    pub leaves: u32,
    /// How many of them are bricks.
    pub bricks: u32,
    /// How many of them are braces.
    pub braces: u32,
}

/// The kind of a leaf with this quotient: a brace exactly when the quotient is bipartite, and a
/// brick otherwise. Takes O(n + m) time; the only error is `Memory`.
pub fn leaf_kind_of(alloc: Global, q: &MultiGraph) -> Result<LeafKind, Memory>
    ensures { IfOk result (IsKindOf q.now) }
{
    match q.two_sides(alloc)? {
        Sides::Even { .. } => Ok(LeafKind::Brace),
        Sides::Odd { .. } => Ok(LeafKind::Brick),
    }
}

/// The kind of a leaf of which is known whether its quotient is bipartite. Takes no memory.
pub fn kind_by_side(is_bipartite: bool) -> LeafKind
    ensures { (q : Graph) → (IsTrue is_bipartite ↔ IsBipartite q) → IsKindOf q result }
{
    if is_bipartite {
        LeafKind::Brace
    } else {
        LeafKind::Brick
    }
}

// The kind of the leaf at a partition.
fn leaf_kind(alloc: Global, g: &MultiGraph, p: &Partition) -> Result<LeafKind, Memory>
    requires { p.now.order ≡ g.now.order }
    ensures { IfOk result (λ kind. IsLeafKind g.now p.now.blocks kind) }
{
    let q = quotient_graph(alloc, g, p)?;
    leaf_kind_of(alloc, &q)
}

// The kinds of the leaves, in order.
fn leaf_kinds(alloc: Global, g: &MultiGraph, leaves: &Partitions) -> Result<Vec<LeafKind>, Memory>
    requires { All (λ p. p.order ≡ g.now.order) leaves.now }
    ensures { IfOk result
        (λ kinds. AreLeafKinds g.now (map (λ p. p.blocks) leaves.now) kinds.items) }
{
    let mut kinds = Vec::new(alloc);
    for i in 0..leaves.len() {
        let kind = leaf_kind(alloc, g, leaves.get(i))?;
        kinds.push(kind)?;
    }
    Ok(kinds)
}

// How many of the kinds are bricks.
fn count_bricks(kinds: &[LeafKind]) -> usize
    ensures { result ≡ count_by is_brick kinds.now }
{
    kinds
        .iter()
        .filter(|kind| **kind == LeafKind::Brick)
        .count()
}

// How many of the kinds are braces.
fn count_braces(kinds: &[LeafKind]) -> usize
    ensures { result ≡ count_by (λ kind. not (is_brick kind)) kinds.now }
{
    kinds
        .iter()
        .filter(|kind| **kind == LeafKind::Brace)
        .count()
}

/// The numbers of these kinds. Takes no memory, and O(k) time for k leaves.
pub fn tallied(kinds: &[LeafKind]) -> Tally
    requires { length kinds.now < 2 ^ 32 }
    ensures { result ≡ tally_of kinds.now }
{
    Tally {
        leaves: kinds.len() as u32,
        bricks: count_bricks(kinds) as u32,
        braces: count_braces(kinds) as u32,
    }
}

/// Counts the leaves at these partitions of the vertices of `g`: a leaf is a brace exactly when its
/// quotient is bipartite, and a brick otherwise. Takes O(n^2 + m) time for each leaf; the only
/// error is `Memory`.
pub fn count_leaves(alloc: Global, g: &MultiGraph, leaves: &Partitions) -> Result<Tally, Memory>
    requires order { All (λ p. p.order ≡ g.now.order) leaves.now }
    requires few { length leaves.now < 2 ^ 32 }
    ensures { IfOk result (λ tally. IsTally g.now (map (λ p. p.blocks) leaves.now) tally) }
{
    let kinds = leaf_kinds(alloc, g, leaves)?;
    Ok(tallied(&kinds))
}
