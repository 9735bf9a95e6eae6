//! Decompositions of one graph in several orders. A place that one of them has visited is not
//! searched again: its quotient and its candidates are known.
ghost use Rattle.std.specs.Prelude.{◌≡◌, ◌↔◌, ◌≤◌, ◌+◌, All, Some, length, slice_get, IfOk, IfSome, IsTrue, OnOk};
ghost use Rattle.tight_cuts.specs.Common.{AreClustersAt};
ghost use Rattle.tree_core.specs.Common.{IsDerivation, IsTally, cut_count, leaves, place_of, shape_of};
ghost use Rattle.decomposer.specs.Common.{FindsKinds, IsPicked, IsPlaceOf};

use crate::decomposition::{MOST_COUNTED, cut_tree};
use crate::orders::Order;
use crate::shores::listed_shore;
use std::alloc::{AllocError, Global};
use std::marker::Model;
use tight_cuts::graph_facts::Covered;
use tight_cuts::{CandidateList, Clusters, candidates_from_clusters};
use tree_core::{KnownPlace, LeafKind, Place, Tally, Tree, tallied};

/// The tree of tight cuts that an order picks, with its leaves counted.
#[derive(Drop)]
pub struct CountedTree {
    /// The tree.
    pub tree: Tree,
    /// How many leaves it has, and how many of them are bricks and braces.
    pub tally: Tally,
}

// A place with all its candidates. Contracts see the place.
#[derive(Drop)]
struct VisitedPlace<'g> {
    place: KnownPlace<'g>,
    candidates: CandidateList,
}

impl<'g> Model for VisitedPlace<'g> {
    ghost use Rattle.tree_core.specs.Places.{PlaceValue};
    ghost use Rattle.decomposer.specs.Picked.{AreCandidatesAt};

    ghost Value = { PlaceValue };

    ghost view = { λ p. p.place };

    ghost invariant = { λ p. AreCandidatesAt p.place.graph p.place.blocks p.candidates };
}

impl<'g> VisitedPlace<'g> {
    // A place, with what is sought there. The clusters are those that are known at the place.
    fn of(
        alloc: Global,
        place: Place<'g>,
        clusters: &mut Clusters,
    ) -> Result<VisitedPlace<'g>, AllocError>
        requires { AreClustersAt place.graph place.blocks clusters.old }
        ensures place { IfOk result (λ p. p ≡ place.entry) }
        ensures clusters { OnOk result
            (AreClustersAt place.entry.graph place.entry.blocks clusters.new) }
    {
        let place = KnownPlace::of(alloc, place)?;
        let candidates = candidates_from_clusters(alloc, &place, clusters)?;
        Ok(VisitedPlace { place, candidates })
    }

    // Whether it has the blocks of the other place.
    fn is_at(&self, place: &Place) -> bool
        ensures { IsTrue result ↔ (self.now.blocks ≡ place.now.blocks) }
    {
        let own = self.place.place();
        own.partition().has_blocks_of(place.partition())
    }
}

/// The places of one covered graph that decompositions have visited, each with what is known of its
/// quotient and with all its candidates. Contracts see the graph.
#[derive(Drop)]
pub struct VisitedPlaces<'g> {
    covered: &'g Covered<'g>,
    places: Vec<VisitedPlace<'g>>,
}

impl<'g> Model for VisitedPlaces<'g> {
    ghost use Rattle.graph_core.specs.Common.{Graph};
    ghost use Rattle.std.specs.Prelude.{All};
    ghost use Rattle.decomposer.specs.VisitedPlaces.{IsPlaceOf};

    ghost Value = { Graph };

    ghost view = { λ visited. visited.covered.now };

    ghost invariant = { λ visited. All (IsPlaceOf visited.covered.now) visited.places.items };
}

impl<'g> VisitedPlaces<'g> {
    /// A covered graph of which no place was visited yet. Takes no memory.
    pub fn none(alloc: Global, covered: &'g Covered<'g>) -> VisitedPlaces<'g>
        ensures { result ≡ covered.now }
    {
        VisitedPlaces {
            covered,
            places: Vec::new(alloc),
        }
    }

    /// The tree of tight cuts that `order` picks from the graph, as `decompose` returns it, with
    /// its leaves counted. Nothing is sought at a place that was visited before. Elsewhere it costs
    /// what `decompose` costs, less the first `Covered::of`; the only error is `AllocError`, out of
    /// memory.
    pub fn decompose<O: Order>(
        &mut self,
        alloc: Global,
        order: &O,
    ) -> Result<CountedTree, AllocError>
        ensures graph { self.new ≡ self.old }
        ensures derivation { IfOk result (λ found. IsDerivation self.old (shape_of found.tree)) }
        ensures picked { IfOk result
            (λ found. IsPicked (O.picks order.now) self.old (shape_of found.tree)) }
        ensures counts { IfOk result (λ found.
            IsTally self.old (leaves self.old.order (shape_of found.tree)) found.tally) }
    {
        let covered = self.covered;
        covered.keeps_covered();
        let root = Place::root(alloc, covered)?;
        root.keeps_place();
        let mut kinds = Vec::new(alloc);
        let clusters = Clusters::new(alloc, covered.graph())?;
        let (tree, _) = self.decompose_at(alloc, order, root, 0, clusters, &mut kinds)?;
        let tally = tallied(&kinds);
        Ok(CountedTree { tree, tally })
    }

    // The tree that the order picks at a place with so many cuts before it, and the number of cuts
    // before what follows it. The kinds of its leaves are appended. The clusters are those that are
    // known at the place.
    fn decompose_at<O: Order>(
        &mut self,
        alloc: Global,
        order: &O,
        place: Place<'g>,
        before: usize,
        mut clusters: Clusters,
        kinds: &mut Vec<LeafKind>,
    ) -> Result<(Tree, usize), AllocError>
        requires graph { place.graph ≡ self.old }
        requires clusters { AreClustersAt place.graph place.blocks clusters }
        requires room { before + length place.blocks ≤ MOST_COUNTED }
        ensures graph { self.new ≡ self.old }
        ensures made { IfOk result (λ made. FindsKinds (O.picks order.now) place.entry before
            kinds.old.items (shape_of made.0) made.1 kinds.new.items) }
        ensures few { IfOk result (λ made. 4 ≤ length place.entry.blocks →
            cut_count (shape_of made.0) + 3 ≤ length place.entry.blocks) }
    {
        let number = visit(alloc, &mut self.places, place, &mut clusters)?;
        let visited = &self.places[number];
        match listed_shore(&order, &visited.place, &visited.candidates, before) {
            None => {
                kinds.push(visited.place.kind())?;
                Ok((Tree::Leaf, before))
            }
            Some(shore) => {
                clusters.stay_below(&visited.place, shore);
                let known = clusters.copy(alloc)?;
                let inside = visited.place.place().kept(alloc, shore)?;
                let outside = visited.place.place().merged(alloc, shore)?;
                let (kept, between) = self.decompose_at(
                    alloc,
                    order,
                    inside,
                    before + 1,
                    known,
                    kinds,
                )?;
                let (merged, after) = self.decompose_at(
                    alloc, order, outside, between, clusters, kinds,
                )?;
                let tree = cut_tree(alloc, shore, kept, merged)?;
                Ok((tree, after))
            }
        }
    }
}

// The number of a place among those that were visited, if it was.
fn number_of(visited: &[VisitedPlace], place: &Place) -> Option<usize>
    requires { All (IsPlaceOf place.now.graph) visited.now }
    ensures { IfSome result (λ i. slice_get visited.now i ≡ Some place.now) }
{
    for (i, known) in visited.iter().enumerate() {
        if known.is_at(place) {
            return Some(i);
        }
    }
    None
}

// The number of a place among those that were visited. If it was not yet, it is visited now. The
// clusters are those that are known at the place.
fn visit<'g>(
    alloc: Global,
    visited: &mut Vec<VisitedPlace<'g>>,
    place: Place<'g>,
    clusters: &mut Clusters,
) -> Result<usize, AllocError>
    requires graph { All (IsPlaceOf place.graph) visited.old.items }
    requires clusters { AreClustersAt place.graph place.blocks clusters.old }
    ensures graph { All (IsPlaceOf place.entry.graph) visited.new.items }
    ensures number { IfOk result (λ i. slice_get visited.new.items i ≡ Some place.entry) }
    ensures clusters { OnOk result
        (AreClustersAt place.entry.graph place.entry.blocks clusters.new) }
{
    if let Some(number) = number_of(visited, &place) {
        return Ok(number);
    }
    let number = visited.len();
    let known = VisitedPlace::of(alloc, place, clusters)?;
    visited.push(known)?;
    Ok(number)
}
