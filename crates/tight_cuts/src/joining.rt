//! Edges whose ends no nontrivial tight cut separates, as floods show.
//!
//! Let a nontrivial tight cut have edge e. Each other edge that lies together with e is not in the
//! cut, and no cluster is on both of its sides. So if such edges and the clusters join all vertices
//! but the ends of e with one another, there is no such cut. Two adjacent vertices are joined if
//! they are partners in the graph without the ends of e; one search tells the partners of a vertex.
ghost use Rattle.std.specs.Prelude.{◌≡◌, true, IfOk, OnOk, IfSome, None};
ghost use Rattle.graph_core.specs.from_counting.Common.{Within, mem};
ghost use Rattle.graph_core.specs.Common.{size};
ghost use Rattle.tight_cuts.specs.Common.{first_separated, AreClusters, AreRowsWithout, IsOneSided};

use crate::candidate::{CandidateList, any_cuts};
use crate::clusters::Clusters;
use crate::quiet_edges::without_ends;
use barrier_kit::allowed_edges::perfect_with_edge;
use barrier_kit::match_core::LazyPartners;
use graph_core::MultiGraph;
use graph_core::vset_core::VSet;
use std::alloc::{AllocError as Memory, Global};
use tree_core::graph_facts::Covered;

/// How many rows of partners may bring nothing before no more are searched for one edge.
const MOST_IDLE: u32 = 4;

/// How many edges for each vertex a graph has at least, if floods are worth their time.
const LEAST_DENSITY: u32 = 6;

/// Joins the clusters of the ends of each edge at which a flood shows that no nontrivial tight cut
/// separates them. Edges in the cuts of candidates are not asked, and in a sparse graph none is:
/// its floods need too many rows.
pub(crate) fn join_by_floods(
    alloc: Global,
    c: &Covered,
    list: &CandidateList,
    clusters: &mut Clusters,
) -> Result<(), Memory>
    requires { AreClusters c.now clusters.old }
    ensures { OnOk result (AreClusters c.now clusters.new) }
{
    if c.size() / LEAST_DENSITY < c.order() {
        return Ok(());
    }
    for k in 0..c.size() {
        join_at(alloc, c, list, clusters, k + 1)?;
    }
    Ok(())
}

// The same for one edge.
#[tactic(auto, using(crate::proofs::ClusteredVertices::none_unparted))]
fn join_at(
    alloc: Global,
    c: &Covered,
    list: &CandidateList,
    clusters: &mut Clusters,
    e: u32,
) -> Result<(), Memory>
    requires edge { Within (size c.now) e }
    requires clusters { AreClusters c.now clusters.old }
    ensures { OnOk result (AreClusters c.now clusters.new) }
{
    c.keeps_covered();
    if clusters.has_both(c.graph(), e) || any_cuts(list, c.graph(), e) {
        return Ok(());
    }
    if is_inseparable_by_flood(alloc, c, clusters, e)? {
        clusters.join(c.graph(), e);
    }
    Ok(())
}

// Whether a flood shows that no nontrivial tight cut has edge `e`.
fn is_inseparable_by_flood(
    alloc: Global,
    c: &Covered,
    clusters: &Clusters,
    e: u32,
) -> Result<bool, Memory>
    requires edge { Within (size c.now) e }
    requires clusters { AreClusters c.now clusters.now }
    ensures { IfOk result (λ shown. shown ≡ true → first_separated c.now e ≡ None) }
{
    let g = c.graph();
    g.keeps_limits();
    let others = without_ends(g, e);
    let Some(start) = others.first() else {
        return Ok(false);
    };
    let Some(base) = perfect_with_edge(alloc, g, c.matching(), e)? else {
        return Ok(false);
    };
    let ends = g.ends(e);
    let met = VSet::empty().with(ends.a).with(ends.b);
    let mut rows = LazyPartners::new(alloc, g, met, &base)?;
    let near = clusters.widened(g, e, VSet::one(start));
    let reach = reach_of(alloc, g, &mut rows, clusters, e, others, near)?;
    Ok(others.is_subset(reach))
}

// A vertex set widened by rows of partners and by clusters, as far as they go or are needed to
// reach all others.
fn reach_of(
    alloc: Global,
    g: &MultiGraph,
    rows: &mut LazyPartners<'_>,
    clusters: &Clusters,
    e: u32,
    others: VSet,
    near: VSet,
) -> Result<VSet, Memory>
    requires edge { Within (size g.now) e }
    requires clusters { AreClusters g.now clusters.now }
    requires rows { AreRowsWithout g.now e rows.old }
    requires near { IsOneSided g.now e (mem near) }
    ensures { IfOk result (λ reach. IsOneSided g.now e (mem reach)) }
{
    let mut reach = near;
    let mut asked = VSet::empty();
    let mut idle = 0;
    for _round in 0..g.order() {
        let open = reach.meet(others).minus(asked);
        let Some(u) = next_vertex(g, reach, open, others.minus(reach)) else {
            return Ok(reach);
        };
        asked = asked.with(u);
        let wide = widened_by_row(alloc, g, rows, e, reach, u)?;
        if wide == reach {
            idle += 1;
        }
        if idle == MOST_IDLE {
            return Ok(reach);
        }
        reach = clusters.widened(g, e, wide);
    }
    Ok(reach)
}

// Of the vertices that are open and in the reach, the first with the most neighbours among the
// missing vertices; none if no such vertex has any.
fn next_vertex(g: &MultiGraph, reach: VSet, open: VSet, missing: VSet) -> Option<u32>
    ensures { IfSome result (λ u. Within g.now.order u × (mem reach u ≡ true)) }
{
    let mut found = None;
    let mut most = 0;
    for k in 0..g.order() {
        if open.contains(k + 1) && reach.contains(k + 1) {
            let near = g.rows()[k as usize].meet(missing);
            // a count of bits takes longer than a test for none
            if near != VSet::empty() && near.len() > most {
                most = near.len();
                found = Some(k + 1);
            }
        }
    }
    found
}

// A vertex set with the neighbours of one of its vertices that are also partners of it.
fn widened_by_row(
    alloc: Global,
    g: &MultiGraph,
    rows: &mut LazyPartners<'_>,
    e: u32,
    reach: VSet,
    u: u32,
) -> Result<VSet, Memory>
    requires edge { Within (size g.now) e }
    requires rows { AreRowsWithout g.now e rows.old }
    requires reach { IsOneSided g.now e (mem reach) }
    requires vertex { Within g.now.order u }
    requires member { mem reach u ≡ true }
    ensures reach { IfOk result (λ wide. IsOneSided g.now e (mem wide)) }
    ensures same { rows.new ≡ rows.old }
{
    g.keeps_limits();
    let row = rows.of(alloc, u)?;
    let beside = g.rows()[u as usize - 1].meet(row);
    Ok(reach.union(beside))
}
