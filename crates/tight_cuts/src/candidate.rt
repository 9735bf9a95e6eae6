//! Candidates: shores of nontrivial tight cuts, and lists of them.
ghost use Rattle.std.specs.Prelude.{◌≡◌, ◌<◌, ◌≤◌, ◌++◌, ◌∷◌, [], ◌==◌, All, IfOk, OnOk, OnErr, length, map, slice_get, Some};
ghost use Rattle.std.specs.List.{list_any};
ghost use Rattle.graph_core.specs.from_counting.Common.{Within, mem, IsRisingIn};
ghost use Rattle.graph_core.specs.Common.{in_cut, size};
ghost use Rattle.tight_cuts.specs.Candidates.{candidate_at, cuts};
ghost use Rattle.tight_cuts.specs.View.{candidate_of, origin_of};

use graph_core::vset_core::{MOST_VERTICES, VSet};
use graph_core::{MultiGraph, SetList, is_in_cut};
use std::alloc::{AllocError as Memory, Global};
use std::marker::Model;

/// The part of the list of candidates that a candidate comes from.
#[derive(Clone, Copy, Debug, PartialEq, Eq, Drop)]
pub enum Origin {
    /// A component of the graph without a class of the canonical partition.
    Barrier,
    /// A component of the graph without a cut pair, with the lesser vertex of the pair.
    Separation,
    /// The common shore of all tight sets that separate two pairs of vertices, found by a minimum
    /// cut or by floods.
    Flow,
}

/// A nontrivial tight cut by its canonical shore, the one without the greatest vertex, with the
/// numbers of vertices inside and outside.
#[derive(Clone, Copy, PartialEq, Eq, Drop)]
pub struct Candidate {
    pub shore: VSet,
    pub inside: u32,
    pub outside: u32,
    pub origin: Origin,
}

impl Candidate {
    /// The candidate of a shore within the vertices 1 to n.
    pub(crate) fn new(n: u32, origin: Origin, shore: VSet) -> Candidate
        requires vertices { n ≤ MOST_VERTICES }
        requires shore { IsRisingIn n shore }
        ensures { candidate_of result ≡ candidate_at n (origin_of origin) shore }
    {
        let inside = shore.len();
        Candidate {
            shore,
            inside,
            outside: n - inside,
            origin,
        }
    }
}

/// A list of candidates, seen by contracts as such a list.
#[derive(Drop)]
pub struct CandidateList {
    items: Vec<Candidate>,
}

impl Model for CandidateList {
    ghost use Rattle.std.specs.Prelude.{List, map};
    ghost use Rattle.tight_cuts.specs.Candidates.{Candidate};
    ghost use Rattle.tight_cuts.specs.View.{candidate_of};

    ghost Value = { List Candidate };

    ghost view = { λ list. map candidate_of list.items.items };
}

impl CandidateList {
    /// The empty list. Takes no memory.
    pub fn new(alloc: Global) -> CandidateList
        ensures { result ≡ [] }
    {
        CandidateList {
            items: Vec::new(alloc),
        }
    }

    /// The number of candidates.
    pub fn len(&self) -> usize
        ensures { result ≡ length self.now }
    {
        self.items.len()
    }

    /// Whether there is no candidate.
    pub fn is_empty(&self) -> bool
        ensures { result ≡ (length self.now == 0) }
    {
        self.items.is_empty()
    }

    /// The candidate at place `i`, counted from 0.
    pub fn get(&self, i: usize) -> Candidate
        requires { i < length self.now }
        ensures { slice_get self.now i ≡ Some (candidate_of result) }
    {
        self.items[i]
    }

    /// The candidates, in order.
    pub fn as_slice(&self) -> &[Candidate]
        ensures { map candidate_of result.now ≡ self.now }
    {
        &self.items
    }

    /// Appends a candidate. Takes constant time, averaged over the calls; the only error is
    /// `Memory`, and the list is then unchanged.
    pub fn push(&mut self, item: Candidate) -> Result<(), Memory>
        ensures ok { OnOk result (self.new ≡ self.old ++ candidate_of item ∷ []) }
        ensures err { OnErr result (self.new ≡ self.old) }
    {
        self.items.push(item)?;
        Ok(())
    }
}

/// The candidates of these shores, which are canonical and nontrivial.
pub(crate) fn candidates_of(
    alloc: Global,
    n: u32,
    origin: Origin,
    shores: &SetList,
) -> Result<CandidateList, Memory>
    requires vertices { n ≤ MOST_VERTICES }
    requires shores { All (IsRisingIn n) shores.now }
    ensures { IfOk result (λ list. list ≡ map (candidate_at n (origin_of origin)) shores.now) }
{
    let mut list = CandidateList::new(alloc);
    for shore in shores.as_slice() {
        list.push(Candidate::new(n, origin, *shore))?;
    }
    Ok(list)
}

/// Whether edge `e` of `g` is in the cut of a candidate.
pub(crate) fn any_cuts(list: &CandidateList, g: &MultiGraph, e: u32) -> bool
    requires { Within (size g.now) e }
    ensures { result ≡ list_any (cuts g.now e) list.now }
{
    any_in_cut(&list.items, g, e)
}

// Whether the edge is in the cut of one of these.
fn any_in_cut(items: &[Candidate], g: &MultiGraph, e: u32) -> bool
    requires { Within (size g.now) e }
    ensures { result ≡ list_any (λ c. in_cut g.now (mem c.shore) e) items.now }
{
    items.iter().any(|c| is_in_cut(g, c.shore, e))
}
