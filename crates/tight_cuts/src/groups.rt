//! The network of the pieces of an edge in groups, and its least minimum cut.
ghost use Rattle.std.specs.Prelude.{◌≡◌, ◌≢◌, ℕ, ◌+◌, ◌<◌, ◌≤◌, ◌^◌, ◌++◌, length, IfOk, OnOk};
ghost use Rattle.graph_core.specs.from_counting.Common.{Within, total, mem};
ghost use Rattle.flow_core.specs.Common.{total_capacity, with_arc};
ghost use Rattle.graph_core.specs.Common.{first_end, second_end, size};
ghost use Rattle.tight_cuts.specs.Common.{AreGroups, AreLeadersAt, AreMatchings, LeadsBeyond, IsCommonShore, IsCutOfGroups, Leads, arc_between, arcs_by, at_place, group_net, row_group, group_of};

use crate::matchings::Matchings;
use crate::pieces::{Weights, weights_of};
use crate::tightness::crossing;
use barrier_kit::allowed_edges::list_new;
use flow_core::{CutAnswer, Net, min_cut};
use graph_core::MultiGraph;
use graph_core::vset_core::{MOST_VERTICES, VSet};
use std::alloc::{AllocError as Memory, Global};

// No more matchings are in a list in which each holds an edge, or two, that no earlier one holds.
const MOST_LISTED: u32 = 4_194_304;

/// The ends `a` and `b` of an edge, and the vertices `x` and `y` that lead two of its pieces: `a`
/// and the piece of `x` make one group, `b` and the piece of `y` another, and each other piece is
/// a group. If `y` is `b`, `b` alone is a group.
#[derive(Clone, Copy, Drop)]
pub(crate) struct Grouping {
    pub(crate) a: u32,
    pub(crate) b: u32,
    pub(crate) x: u32,
    pub(crate) y: u32,
}

impl Grouping {
    // The group of a vertex, by the vertex that leads its piece.
    fn group(self, leader: u32) -> u32
        ensures { result ≡ group_of self.a self.b self.x self.y leader }
    {
        if leader == self.x {
            self.a
        } else if leader == self.y {
            self.b
        } else {
            leader
        }
    }
}

// Appends an arc between two nodes, unless they are one.
fn add_arc(net: &mut Net, first: u32, second: u32, capacity: u64) -> Result<(), Memory>
    requires first { Within net.old.nodes first }
    requires second { Within net.old.nodes second }
    requires below { total_capacity net.old + capacity < 2 ^ 63 }
    ensures { OnOk result
        (net.new ≡ record net.old { arcs = net.old.arcs ++ arc_between first second capacity }) }
{
    if first != second {
        net.add(first, second, capacity)?;
    }
    Ok(())
}

// The network of the groups: an arc for each edge that joins two groups, with the edge's weight.
fn network(
    alloc: Global,
    g: &MultiGraph,
    weights: &[u64],
    leaders: &[u32],
    groups: Grouping,
) -> Result<Net, Memory>
    requires weights { length weights.now ≡ size g.now + 1 }
    requires leaders { length leaders.now ≡ g.now.order + 1 }
    requires small { total (size g.now) (at_place weights.now) < 2 ^ 63 }
    requires within { (v : ℕ) → Within g.now.order v →
        Within g.now.order (row_group groups.a groups.b groups.x groups.y leaders.now v) }
    ensures { IfOk result
        (λ net. net ≡ group_net g.now weights.now leaders.now groups.a groups.b groups.x groups.y) }
{
    let mut net = Net::new(alloc, g.order())?;
    for k in 0..g.size() {
        let e = k + 1;
        let ends = g.ends(e);
        let first = groups.group(leaders[ends.a as usize]);
        let second = groups.group(leaders[ends.b as usize]);
        add_arc(&mut net, first, second, weights[e as usize])?;
    }
    Ok(net)
}

// The vertices whose groups are in the set of nodes.
fn vertices_of(set: VSet, leaders: &[u32], n: u32, groups: Grouping) -> VSet
    requires few { n ≤ MOST_VERTICES }
    requires leaders { length leaders.now ≡ n + 1 }
    requires within { (v : ℕ) → Within n v →
        Within n (row_group groups.a groups.b groups.x groups.y leaders.now v) }
    ensures { (v : ℕ) → Within n v →
        mem result v ≡ mem set (row_group groups.a groups.b groups.x groups.y leaders.now v) }
{
    let mut vertices = VSet::empty();
    for k in 0..n {
        let v = k + 1;
        if set.contains(groups.group(leaders[v as usize])) {
            vertices = vertices.with(v);
        }
    }
    vertices
}

// The vertices of the least minimum cut of the groups' network, if its value is at most the
// number of listed matchings.
fn cut_of_groups(
    alloc: Global,
    g: &MultiGraph,
    weights: &Weights,
    leaders: &[u32],
    groups: Grouping,
) -> Result<Option<VSet>, Memory>
    requires weights { length weights.now.row.items ≡ size g.now + 1 }
    requires leaders { length leaders.now ≡ g.now.order + 1 }
    requires groups { AreGroups g.now leaders.now weights.now.row.items groups.a groups.b groups.x
        groups.y }
    ensures { IfOk result
        (IsCutOfGroups g.now weights.now.row.items leaders.now weights.now.matchings groups.a
        groups.b groups.x groups.y) }
{
    let net = network(alloc, g, &weights.row, leaders, groups)?;
    match min_cut(alloc, &net, groups.a, groups.b, weights.matchings)? {
        CutAnswer::Cut { set, .. } => Ok(Some(vertices_of(set, leaders, g.order(), groups))),
        CutAnswer::Exceeds { .. } => Ok(None),
    }
}

/// The common shore of all tight sets that have `a` and `x` and neither `b` nor `y`, if there
/// is one. Here `x` leads a piece of edge `e`, and `y` leads another or is `b` itself.
///
/// The least minimum cut lies in each such set, so it is the common shore if it is tight. If it is
/// not, a perfect matching has two edges in it, which no listed one has; it is listed, and the next
/// cut is another one.
pub(crate) fn common_shore(
    alloc: Global,
    g: &MultiGraph,
    matchings: &mut Matchings<'_>,
    leaders: &[u32],
    groups: Grouping,
    e: u32,
) -> Result<Option<VSet>, Memory>
    requires matchings { AreMatchings g.now matchings.old }
    requires leaders { AreLeadersAt g.now groups.a groups.b e leaders.now }
    requires x { Leads g.now groups.a groups.b leaders.now groups.x }
    requires y { LeadsBeyond g.now groups.a groups.b leaders.now groups.x groups.y }
    ensures matchings { IfOk result
        (λ _. AreMatchings g.now matchings.new) }
    ensures shore { IfOk result (IsCommonShore g.now groups.a groups.b (groups.x, groups.y)) }
{
    g.keeps_limits();
    for _listed in 0..MOST_LISTED + 1 {
        let weights = weights_of(alloc, g, &matchings.pairs)?;
        let Some(shore) = cut_of_groups(alloc, g, &weights, leaders, groups)? else {
            return Ok(None);
        };
        match crossing(alloc, g, shore, &matchings.kept, &mut matchings.rows)? {
            None => return Ok(Some(shore)),
            Some(matching) => list_new(alloc, g, &mut matchings.pairs, matching)?,
        }
    }
    unreachable!()
}
