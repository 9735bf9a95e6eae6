//! The rules that a cut of a derivation keeps.
ghost use Rattle.std.specs.Prelude.{◌≡◌, ◌-◌, ℕ, true, All, length, IfOk, None, Some};
ghost use Rattle.graph_core.specs.from_counting.Common.{Within, is_odd, mem, rising_list, IsRisingIn};
ghost use Rattle.graph_core.specs.Common.{IsTightAt, IsUnion, block_count, blocks_in, lifted, quotient};
ghost use Rattle.match_core.specs.Common.{IsOf, edges_of};
ghost use Rattle.tree_core.specs.Common.{IsCutAt};
ghost use Rattle.tree_check.specs.Common.{why_of, BreaksCut, CrossesAt};

use crate::judgement::Why;
use crate::known_places::KnownPlaces;
use graph_core::Numbers;
use graph_core::vset_core::VSet;
use match_core::Matching;
use move_laws::contraction::{Partition, lift, quotient, quotient_graph};
use std::alloc::{AllocError as Memory, Global};
use tight_cuts::{Tightness, is_tight, tightness_in};
use tree_core::Place;

/// The first rule that the cut of `shore` breaks at `p`; `None` if and only if `shore` is a
/// canonical nontrivial shore that is tight at `p`.
pub(crate) fn cut_fault(alloc: Global, p: &Place, shore: VSet) -> Result<Option<Why>, Memory>
    requires { All (Within (p.now.graph.order - 1)) shore }
    ensures some { IfOk result
        (λ o. (why : _) → o ≡ Some why →
        BreaksCut p.now.graph p.now.blocks (mem shore) (why_of why)) }
    ensures none { IfOk result (λ o. o ≡ None → IsCutAt p.now.graph p.now.blocks shore) }
{
    shore.rises();
    let blocks = p.partition();
    if !blocks.is_union(shore) {
        return Ok(Some(Why::NotBlocks));
    }
    let inside = blocks.blocks_in(shore) as usize;
    if inside % 2 == 0 {
        return Ok(Some(Why::Even));
    }
    if inside < 3 || blocks.len() < inside + 3 {
        return Ok(Some(Why::Trivial));
    }
    match crossing_at(alloc, p, shore)? {
        Some(matching) => Ok(Some(Why::NotTight { matching })),
        None => Ok(None),
    }
}

/// The same at a place of the graph of which cuts are known. A known cut is not judged again, and
/// the shore is that of a known cut from now on if it breaks no rule.
pub(crate) fn fault_if_unknown<'c, 'g>(
    alloc: Global,
    known: &mut KnownPlaces<'c, 'g>,
    p: &Place<'c>,
    shore: VSet,
) -> Result<Option<Why>, Memory>
    requires graph { p.now.graph ≡ known.old }
    requires shore { All (Within (p.now.graph.order - 1)) shore }
    ensures some { IfOk result
        (λ o. (why : _) → o ≡ Some why →
        BreaksCut p.now.graph p.now.blocks (mem shore) (why_of why)) }
    ensures none { IfOk result (λ o. o ≡ None → IsCutAt p.now.graph p.now.blocks shore) }
    ensures same { known.new ≡ known.old }
{
    if known.has_cut(p.partition(), shore) {
        return Ok(None);
    }
    match cut_fault(alloc, p, shore)? {
        Some(why) => Ok(Some(why)),
        None => {
            let partition = p.partition().copy(alloc)?;
            known.add_cut(partition, shore)?;
            Ok(None)
        }
    }
}

// Whether p is at single vertices and the shore, an odd number of them, is tight there, by what is
// known of the graph.
fn is_known_tight(alloc: Global, p: &Place, shore: VSet) -> Result<bool, Memory>
    requires shore { IsRisingIn p.now.graph.order shore }
    requires odd { is_odd (block_count p.now.blocks (mem shore)) ≡ true }
    ensures { IfOk result
        (λ tight. tight ≡ true → IsTightAt p.now.graph p.now.blocks (mem shore)) }
{
    p.keeps_place();
    let Some(c) = p.known() else {
        return Ok(false);
    };
    match tightness_in(alloc, c, shore)? {
        Tightness::Tight => Ok(true),
        Tightness::Crossed { .. } => Ok(false),
    }
}

// A perfect matching at p with at least two edges in the cut of the shore, a union of an odd
// number of blocks; none if and only if the shore is tight at p. The quotient graph alone is made,
// and at single vertices only where the shore is not tight.
fn crossing_at(alloc: Global, p: &Place, shore: VSet) -> Result<Option<Numbers>, Memory>
    requires shore { IsRisingIn p.now.graph.order shore }
    requires union { IsUnion p.now.graph.order p.now.blocks (mem shore) }
    requires odd { is_odd (block_count p.now.blocks (mem shore)) ≡ true }
    ensures some { IfOk result
        (λ o. (m : _) → o ≡ Some m → CrossesAt p.now.graph p.now.blocks (mem shore) m) }
    ensures none { IfOk result (λ o. o ≡ None → IsTightAt p.now.graph p.now.blocks (mem shore)) }
{
    p.keeps_place();
    if is_known_tight(alloc, p, shore)? {
        return Ok(None);
    }
    let blocks = p.partition();
    let q = quotient_graph(alloc, p.graph(), blocks)?;
    let places = places_in(blocks, shore);
    match is_tight(alloc, &q, places)? {
        Tightness::Tight => Ok(None),
        Tightness::Crossed { matching } => {
            let edges = edges_at(alloc, p, &matching)?;
            Ok(Some(edges))
        }
    }
}

// The edges of the graph that lift a matching of the quotient at p. Remembered edges are made for
// them alone.
fn edges_at(alloc: Global, p: &Place, matching: &Matching) -> Result<Numbers, Memory>
    requires { IsOf (quotient p.now.graph p.now.blocks) matching.now }
    ensures { IfOk result (λ edges.
        edges ≡ lifted p.now.graph p.now.blocks (mem (edges_of matching.now))) }
{
    let q = quotient(alloc, p.graph(), p.partition())?;
    lift(alloc, &q, matching)
}

// The places of the blocks that are in the shore.
fn places_in(p: &Partition, shore: VSet) -> VSet
    ensures { result ≡ rising_list (length p.now.blocks) (blocks_in p.now.blocks (mem shore)) }
{
    p.keeps_partition();
    let mut places = VSet::empty();
    for i in 0..p.len() {
        if p.block(i).is_subset(shore) {
            places = places.with(i as u32 + 1);
        }
    }
    places.rises();
    places
}
