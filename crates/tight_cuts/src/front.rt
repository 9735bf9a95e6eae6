//! The candidates of the first two parts: the cuts of barriers, and those of separations.
ghost use Rattle.std.specs.Prelude.{◌≡◌, ◌≤◌, IfOk, IfSome, map, slice_get};
ghost use Rattle.std.specs.Option.{option_map};
ghost use Rattle.graph_core.specs.from_counting.Common.{IsRisingIn};
ghost use Rattle.graph_core.specs.Common.{IsBicritical};
ghost use Rattle.barrier_kit.specs.Common.{barrier_cuts};
ghost use Rattle.quick_kinds.specs.from_separation_kit.Common.{separation_cuts};
ghost use Rattle.tight_cuts.specs.Common.{Barrier, Separation, candidate_at, first_of, front_candidates, candidate_of, origin_of};

use crate::candidate::{Candidate, CandidateList, Origin, candidates_of};
use barrier_kit::{barrier_cuts_of, first_barrier_cut, first_barrier_cut_from};
use graph_core::vset_core::{MOST_VERTICES, VSet};
use quick_kinds::separation_kit::{FirstPairs, first_separation_cut, separation_cuts};
use std::alloc::{AllocError as Memory, Global};
use tree_core::graph_facts::Covered;

// The cuts of barriers, as candidates.
fn barrier_candidates(alloc: Global, c: &Covered) -> Result<CandidateList, Memory>
    ensures { IfOk result
        (λ list. list ≡ map (candidate_at c.now.order Barrier) (barrier_cuts c.now)) }
{
    c.keeps_covered();
    let shores = barrier_cuts_of(alloc, c)?;
    candidates_of(alloc, c.order(), Origin::Barrier, &shores)
}

// The cuts of separations, as candidates.
fn separation_candidates(alloc: Global, c: &Covered) -> Result<CandidateList, Memory>
    requires bicritical { IsBicritical c.now }
    requires four { 4 ≤ c.now.order }
    ensures { IfOk result
        (λ list. list ≡ map (candidate_at c.now.order Separation) (separation_cuts c.now)) }
{
    c.keeps_covered();
    let shores = separation_cuts(alloc, c.graph())?;
    candidates_of(alloc, c.order(), Origin::Separation, &shores)
}

/// The candidates of the first two parts: the cuts of barriers if the graph is not bicritical,
/// and those of separations if it is.
pub(crate) fn front_candidates(alloc: Global, pairs: &FirstPairs) -> Result<CandidateList, Memory>
    ensures { IfOk result (λ list. list ≡ front_candidates pairs.now) }
{
    pairs.keeps_covered();
    if let Some(_) = pairs.equivalent() {
        return barrier_candidates(alloc, pairs.covered());
    }
    if pairs.order() < 4 {
        return barrier_candidates(alloc, pairs.covered());
    }
    separation_candidates(alloc, pairs.covered())
}

// The cut, if there is one, as a candidate.
fn as_candidate(n: u32, origin: Origin, cut: Option<VSet>) -> Option<Candidate>
    requires few { n ≤ MOST_VERTICES }
    requires rising { IfSome cut (IsRisingIn n) }
    ensures { option_map candidate_of result ≡ option_map (candidate_at n (origin_of origin)) cut }
{
    Some(Candidate::new(n, origin, cut?))
}

// The first cut of a barrier. The classes are made only if they are not lent.
fn first_barrier(alloc: Global, pairs: &FirstPairs) -> Result<Option<VSet>, Memory>
    ensures { IfOk result (λ cut. cut ≡ slice_get (barrier_cuts pairs.now) 0) }
{
    match pairs.classes() {
        Some(classes) => first_barrier_cut_from(alloc, pairs.covered(), classes),
        None => first_barrier_cut(alloc, pairs.covered()),
    }
}

// The first cut of a barrier, as a candidate.
fn first_barrier_candidate(alloc: Global, pairs: &FirstPairs) -> Result<Option<Candidate>, Memory>
    ensures { IfOk result
        (λ found. option_map candidate_of found ≡
        first_of (map (candidate_at pairs.now.order Barrier) (barrier_cuts pairs.now))) }
{
    pairs.keeps_covered();
    let cut = first_barrier(alloc, pairs)?;
    Ok(as_candidate(pairs.order(), Origin::Barrier, cut))
}

// The first cut of a separation, as a candidate.
fn first_separation_candidate(
    alloc: Global,
    pairs: &FirstPairs,
) -> Result<Option<Candidate>, Memory>
    requires bicritical { IsBicritical pairs.now }
    requires four { 4 ≤ pairs.now.order }
    ensures { IfOk result
        (λ found. option_map candidate_of found ≡
        first_of (map (candidate_at pairs.now.order Separation) (separation_cuts pairs.now))) }
{
    pairs.keeps_covered();
    let cut = first_separation_cut(alloc, pairs)?;
    Ok(as_candidate(pairs.order(), Origin::Separation, cut))
}

/// The first of the candidates of the first two parts. The search ends with it.
pub(crate) fn first_front_candidate(
    alloc: Global,
    pairs: &FirstPairs,
) -> Result<Option<Candidate>, Memory>
    ensures { IfOk result
        (λ found. option_map candidate_of found ≡ first_of (front_candidates pairs.now)) }
{
    pairs.keeps_covered();
    if let Some(_) = pairs.equivalent() {
        return first_barrier_candidate(alloc, pairs);
    }
    if pairs.order() < 4 {
        return first_barrier_candidate(alloc, pairs);
    }
    first_separation_candidate(alloc, pairs)
}
