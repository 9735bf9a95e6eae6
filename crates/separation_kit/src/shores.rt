//! The cuts that the cut pairs of a bicritical graph give.
ghost use Rattle.std.specs.Prelude.{◌≡◌, ◌≤◌, fold, map, slice_get, All, IfOk, OnOk};
ghost use Rattle.std.specs.Option.{option_map};
ghost use Rattle.graph_core.specs.from_counting.Common.{Within, singleton, union, mem, rising_list, IsRisingIn};
ghost use Rattle.graph_core.specs.Common.{IsCovered, IsBicritical, cut_pair, with_cut, pair_of};
ghost use Rattle.separation_kit.specs.Common.{separation_cuts, shores_at_pair};

use crate::critical::{is_cut_pair, parts_without};
use crate::dominators::dominator_candidates;
use crate::first_pairs::FirstPairs;
use crate::pairs::all_pairs;
use graph_core::vset_core::{MOST_VERTICES, VSet};
use graph_core::{Ends, MultiGraph, SetList, add_cut};
use std::alloc::{AllocError as Memory, Global};

// The component with one vertex of the pair.
fn with_vertex(n: u32, part: VSet, a: u32) -> VSet
    requires few { n ≤ MOST_VERTICES }
    requires vertex { Within n a }
    requires part { IsRisingIn n part }
    ensures { result ≡ rising_list n (union (mem part) (singleton a)) }
{
    let shore = part.with(a);
    shore.rises();
    shore
}

// Appends the cuts of the components, each together with the vertex a.
fn add_with_vertex(cuts: &mut SetList, n: u32, parts: &SetList, a: u32) -> Result<(), Memory>
    requires few { n ≤ MOST_VERTICES }
    requires vertex { Within n a }
    requires parts { All (IsRisingIn n) parts.now }
    ensures { OnOk result
        (cuts.new ≡ fold (with_cut n) cuts.old
        (map (λ s. rising_list n (union (mem s) (singleton a))) parts.now)) }
{
    for part in parts.as_slice() {
        add_cut(cuts, n, with_vertex(n, *part, a))?;
    }
    Ok(())
}

// Appends the cuts that a pair gives: ∂(V(K) + u) for each component K of G - u - v, where u is the
// first vertex of the pair.
fn add_pair_cuts(
    alloc: Global,
    g: &MultiGraph,
    cuts: &mut SetList,
    pair: Ends,
) -> Result<(), Memory>
    requires first { Within g.now.order pair.a }
    requires second { Within g.now.order pair.b }
    ensures { OnOk result
        (cuts.new ≡ fold (with_cut g.now.order) cuts.old (shores_at_pair g.now (pair_of pair))) }
{
    let parts = parts_without(alloc, g, pair.a, pair.b)?;
    add_with_vertex(cuts, g.order(), &parts, pair.a)?;
    Ok(())
}

/// The nontrivial cuts that the cut pairs u < v of a bicritical covered graph give: ∂(V(K) + u) for
/// each component K of G - u - v. Each cut is listed once, by its canonical shore, and is tight
/// (Edmonds, Lovász and Pulleyblank 1982). Takes O(n^2 m) steps on words at most for the pairs, and
/// O(k) for each component at a cut pair, if the list then has k cuts; the only error is `Memory`.
pub fn separation_cuts(alloc: Global, g: &MultiGraph) -> Result<SetList, Memory>
    requires covered { IsCovered g.now }
    requires bicritical { IsBicritical g.now }
    requires four { 4 ≤ g.now.order }
    ensures { IfOk result (λ cuts. cuts ≡ separation_cuts g.now) }
{
    let sets = dominator_candidates(alloc, g)?;
    let pairs = all_pairs(alloc, g.order())?;
    let mut cuts = SetList::new(alloc);
    for pair in &pairs {
        if is_cut_pair(g, &sets, *pair) {
            add_pair_cuts(alloc, g, &mut cuts, *pair)?;
        }
    }
    Ok(cuts)
}

/// The first of the cuts that `separation_cuts` lists, from the first cut pair. Takes O(n^2) steps
/// on words at most; the only error is `Memory`.
pub fn first_separation_cut(alloc: Global, pairs: &FirstPairs) -> Result<Option<VSet>, Memory>
    requires bicritical { IsBicritical pairs.now }
    requires four { 4 ≤ pairs.now.order }
    ensures { IfOk result (λ cut. cut ≡ slice_get (separation_cuts pairs.now) 0) }
{
    first_cut_at(alloc, pairs.covered().graph(), pairs.cut())
}

// The first cut that the first cut pair gives.
fn first_cut_at(alloc: Global, g: &MultiGraph, pair: Option<Ends>) -> Result<Option<VSet>, Memory>
    requires bicritical { IsBicritical g.now }
    requires four { 4 ≤ g.now.order }
    requires pair { option_map pair_of pair ≡ cut_pair g.now }
    ensures { IfOk result (λ cut. cut ≡ slice_get (separation_cuts g.now) 0) }
{
    g.keeps_limits();
    match pair {
        None => Ok(None),
        Some(pair) => {
            let mut cuts = SetList::new(alloc);
            add_pair_cuts(alloc, g, &mut cuts, pair)?;
            if cuts.is_empty() {
                return Ok(None);
            }
            Ok(Some(cuts.get(0)))
        }
    }
}
