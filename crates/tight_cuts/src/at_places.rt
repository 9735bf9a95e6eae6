//! The candidates at a place, and the first of them, from what the place knows of its quotient.
ghost use Rattle.std.specs.Prelude.{◌≡◌, [], ◌↔◌, All, IfOk, OnOk, None, Some, length, map};
ghost use Rattle.std.specs.Option.{option_map};
ghost use Rattle.graph_core.specs.from_counting.Common.{Set};
ghost use Rattle.graph_core.specs.Common.{Graph, IsTightAt, blocks_in, IsNontrivial};
ghost use Rattle.tight_cuts.specs.Common.{AreClustersAt, first_of, IsCandidateAt, candidates_at, lifted_candidate, candidate_of};

use crate::candidate::{Candidate, CandidateList};
use crate::clusters::Clusters;
use crate::finder::{first_candidate, listed};
use quick_kinds::separation_kit::FirstPairs;
use std::alloc::{AllocError as Memory, Global};
use tree_core::KnownPlace;
use tree_core::contraction::Partition;

/// The candidates at a place: at single vertices those of the graph, in the order of its own edges,
/// else those of the quotient, each shore taken to vertices of the graph, with `inside` and
/// `outside` counted in blocks. Each is a canonical nontrivial shore that is tight at the place,
/// and the list is empty exactly when no nontrivial shore is tight there (Lovász 1987). Costs what
/// `candidates` costs at the quotient, less its `Covered`, which the place has; the only error is
/// `Memory`.
pub fn candidates_at_place(alloc: Global, place: &KnownPlace) -> Result<CandidateList, Memory>
    ensures list { IfOk result
        (λ list. list ≡ candidates_at place.now.graph place.now.blocks) }
    ensures tight { IfOk result
        (λ list. All (IsCandidateAt place.now.graph place.now.blocks) list) }
    ensures none { IfOk result
        (λ list. (list ≡ []) ↔ ((x : Set) → IsTightAt place.now.graph place.now.blocks x →
        IsNontrivial (length place.now.blocks) (blocks_in place.now.blocks x) → ⊥)) }
{
    let mut clusters = Clusters::new(alloc, place.place().graph())?;
    candidates_from_clusters(alloc, place, &mut clusters)
}

/// The candidates at a place, where clusters of vertices are known that no nontrivial tight cut
/// there separates: edges between them are not asked. The clusters are those that are known then;
/// they serve each place below (`Clusters::stay_below`), so that few edges are asked there. Costs
/// what `candidates_at_place` costs at most; the only error is `Memory`.
pub fn candidates_from_clusters(
    alloc: Global,
    place: &KnownPlace,
    clusters: &mut Clusters,
) -> Result<CandidateList, Memory>
    requires { AreClustersAt place.now.graph place.now.blocks clusters.old }
    ensures clusters { OnOk result
        (AreClustersAt place.now.graph place.now.blocks clusters.new) }
    ensures list { IfOk result
        (λ list. list ≡ candidates_at place.now.graph place.now.blocks) }
    ensures tight { IfOk result
        (λ list. All (IsCandidateAt place.now.graph place.now.blocks) list) }
    ensures none { IfOk result
        (λ list. (list ≡ []) ↔ ((x : Set) → IsTightAt place.now.graph place.now.blocks x →
        IsNontrivial (length place.now.blocks) (blocks_in place.now.blocks x) → ⊥)) }
{
    place.keeps_place();
    let list = listed_at(alloc, place, clusters)?;
    Ok(list)
}

/// The first candidate at a place, and `None` exactly when no nontrivial shore is tight there. The
/// search ends with it. Costs what `first_candidate` costs at the quotient; the only error is
/// `Memory`.
pub fn first_at_place(alloc: Global, place: &KnownPlace) -> Result<Option<Candidate>, Memory>
    ensures first { IfOk result (λ found.
        option_map candidate_of found ≡ first_of (candidates_at place.now.graph place.now.blocks)) }
    ensures some { IfOk result (λ found. (c : _) → found ≡ Some c →
        IsCandidateAt place.now.graph place.now.blocks (candidate_of c)) }
    ensures none { IfOk result (λ found. (found ≡ None) ↔
        ((x : Set) → IsTightAt place.now.graph place.now.blocks x →
        IsNontrivial (length place.now.blocks) (blocks_in place.now.blocks x) → ⊥)) }
{
    place.keeps_place();
    let found = first_listed_at(alloc, place)?;
    Ok(found)
}

// The candidates of the graph that is seen at the place, led back if it is a quotient.
fn listed_at(
    alloc: Global,
    place: &KnownPlace,
    clusters: &mut Clusters,
) -> Result<CandidateList, Memory>
    requires { AreClustersAt place.now.graph place.now.blocks clusters.old }
    ensures clusters { OnOk result
        (AreClustersAt place.now.graph place.now.blocks clusters.new) }
    ensures list { IfOk result
        (λ list. list ≡ candidates_at place.now.graph place.now.blocks) }
{
    place.keeps_place();
    match place.below() {
        Some(q) => {
            let mut inside = clusters.of_blocks(alloc, place)?;
            let list = listed(alloc, &FirstPairs::of(q), &mut inside)?;
            *clusters = inside.of_vertices(alloc, place)?;
            lifted(alloc, place.place().partition(), &list)
        }
        None => listed(alloc, &FirstPairs::of(place.covered()), clusters),
    }
}

// The first of them.
fn first_listed_at(alloc: Global, place: &KnownPlace) -> Result<Option<Candidate>, Memory>
    ensures { IfOk result (λ found.
        option_map candidate_of found ≡ first_of (candidates_at place.now.graph place.now.blocks)) }
{
    let pairs = FirstPairs::of(place.covered());
    let found = first_candidate(alloc, &pairs)?;
    match place.below() {
        Some(_) => Ok(lifted_first(place.place().partition(), found)),
        None => Ok(found),
    }
}

// The candidates of the quotient at a partition, led back to the graph.
fn lifted(alloc: Global, p: &Partition, found: &CandidateList) -> Result<CandidateList, Memory>
    ensures { (g : Graph) → g.order ≡ p.now.order →
        IfOk result (λ list. list ≡ map (lifted_candidate g p.now.blocks) found.now) }
{
    let mut list = CandidateList::new(alloc);
    for candidate in found.as_slice() {
        list.push(lifted_one(p, *candidate))?;
    }
    Ok(list)
}

// The first candidate of the quotient at a partition, led back to the graph.
fn lifted_first(p: &Partition, found: Option<Candidate>) -> Option<Candidate>
    ensures { (g : Graph) → g.order ≡ p.now.order → option_map candidate_of result
        ≡ option_map (lifted_candidate g p.now.blocks) (option_map candidate_of found) }
{
    Some(lifted_one(p, found?))
}

// One candidate of the quotient at a partition, with the shore as vertices of the graph.
fn lifted_one(p: &Partition, candidate: Candidate) -> Candidate
    ensures { (g : Graph) → g.order ≡ p.now.order →
        candidate_of result ≡ lifted_candidate g p.now.blocks (candidate_of candidate) }
{
    Candidate {
        shore: p.lift_set(candidate.shore),
        ..candidate
    }
}
