//! The two sides of a bipartite graph, or an odd closed walk.
ghost use Rattle.std.specs.Prelude.{◌≡◌, ◌≤◌, ◌++◌, ◌∷◌, ◌↔◌, not, All, Contains, IfOk, IfSome, IfNone, Some, None, length};
ghost use Rattle.vset_core.specs.from_counting.Common.{Within, is_odd, mem, none};
ghost use Rattle.graph_core.specs.Common.{components, IsBipartite, IsGraph, parent_at, depth_at, AreTrees, IsRooted, AreSides, IsEven, IsSide, way_up, way_down, graph_of};

use crate::tree::{TreeNode, climb, descend, even_vertices};
use crate::{Ends, MultiGraph, Numbers, SetList};
use std::alloc::{AllocError as Memory, Global};
use vset_core::{MOST_VERTICES, VSet};

/// Whether a graph is bipartite, with a certificate.
#[derive(Drop)]
pub enum Sides {
    /// Each edge has exactly one end in `left`, an increasing list that contains the least vertex
    /// of each component.
    Even { left: Numbers },
    /// A closed walk of odd length, its first vertex not repeated at the end.
    Odd { walk: Numbers },
}

/// The first edge whose ends have depths of the same parity.
fn level_edge(edges: &[Ends], nodes: &[TreeNode]) -> Option<Ends>
    requires { IsGraph (graph_of (length nodes.now) edges.now) }
    ensures found { IfSome result (λ edge. Contains edges.now edge ×
        (is_odd (depth_at nodes.now edge.a) ≡ is_odd (depth_at nodes.now edge.b))) }
    ensures none { IfNone result (All (λ edge.
        is_odd (depth_at nodes.now edge.a) ≡ not (is_odd (depth_at nodes.now edge.b))) edges.now) }
{
    for edge in edges {
        let first = nodes[edge.a as usize - 1];
        let second = nodes[edge.b as usize - 1];
        if first.is_odd() == second.is_odd() {
            return Some(*edge);
        }
    }
    None
}

/// The walk from `a` up to the root of its tree and from there down to `b`.
fn walk_over_root(alloc: Global, nodes: &[TreeNode], a: u32, b: u32) -> Result<Numbers, Memory>
    requires rooted { IsRooted nodes.now }
    requires first { Within (length nodes.now) a }
    requires second { Within (length nodes.now) b }
    ensures { IfOk result (λ walk.
        walk ≡ a ∷ (way_up (parent_at nodes.now) (depth_at nodes.now a) a ++
        way_down (parent_at nodes.now) (depth_at nodes.now b) b)) }
{
    let mut walk = Numbers::new(alloc);
    walk.push(a)?;
    climb(nodes, a, &mut walk)?;
    descend(nodes, b, &mut walk)?;
    Ok(walk)
}

/// The sides of the graph with these edges, by the parities of depths in its search trees.
pub(crate) fn sides_by_depth(
    alloc: Global,
    edges: &[Ends],
    nodes: &[TreeNode],
) -> Result<Sides, Memory>
    requires few { length nodes.now ≤ MOST_VERTICES }
    requires graph { IsGraph (graph_of (length nodes.now) edges.now) }
    requires trees { AreTrees (graph_of (length nodes.now) edges.now) none nodes.now }
    ensures even { IfOk result
        (λ sides. IsEven sides ↔ IsBipartite (graph_of (length nodes.now) edges.now)) }
    ensures sides { IfOk result (AreSides (graph_of (length nodes.now) edges.now)) }
{
    match level_edge(edges, nodes) {
        Some(edge) => Ok(Sides::Odd {
            walk: walk_over_root(alloc, nodes, edge.a, edge.b)?,
        }),
        None => Ok(Sides::Even {
            left: even_vertices(alloc, nodes)?,
        }),
    }
}

// The set of the numbers.
fn set_of(numbers: &[u32]) -> VSet
    requires { All (Within MOST_VERTICES) numbers.now }
    ensures { (v : _) → mem result v ≡ mem numbers.now v }
{
    let mut set = VSet::empty();
    for v in numbers {
        set = set.with(*v);
    }
    set
}

/// The components of a graph, by least vertex, and one side, `None` if and only if the graph is not
/// bipartite, from one search. Takes O(n + m) time; the only error is `Memory`.
pub fn parts_and_side(alloc: Global, g: &MultiGraph) -> Result<(SetList, Option<VSet>), Memory>
    ensures parts { IfOk result (λ found. found.0 ≡ components g.now none) }
    ensures some { IfOk result
        (λ found. (side : _) → found.1 ≡ Some side → IsSide g.now (mem side)) }
    ensures none { IfOk result (λ found. (found.1 ≡ None) ↔ ¬ (IsBipartite g.now)) }
{
    g.keeps_limits();
    let (parts, sides) = g.parts_and_sides(alloc)?;
    match sides {
        Sides::Even { left } => Ok((parts, Some(set_of(left.as_slice())))),
        Sides::Odd { .. } => Ok((parts, None)),
    }
}
