//! A maximum matching of G - removed, with the frame that shows it to be one: a matching is
//! augmented until a step returns a frame instead. Each step leaves two fewer exposed vertices, so
//! there are at most n / 2 of them.
ghost use Rattle.std.specs.Prelude.{◌≡◌, ◌≢◌, ℕ, ◌+◌, ◌<◌, ◌≤◌, ◌==◌, ◌&&◌, not, false, true, length, IfOk, OnOk};
ghost use Rattle.graph_core.specs.from_counting.Common.{Within, mem, Set};
ghost use Rattle.graph_core.specs.Common.{Graph, IsGraph, AreRows, graph_of, IsMatching};
ghost use Rattle.match_search.specs.Common.{HasMates, HoldsMatching, marks, numbers, IsGraphRow, HasFrame, IsBest, MayBeExposed, AreAlike};

use crate::alternating::AlternatingForest;
use crate::answer::{Answer, FinalSets};
use crate::augment::augment_once;
use crate::instance::{Instance, instance_of};
use crate::marked::marks_of;
use crate::mates::{join, mates_of};
use graph_core::vset_core::{MOST_VERTICES, VSet};
use graph_core::{Ends, MultiGraph};
use std::alloc::{AllocError as Memory, Global};

/// The marks of a maximum matching, and its frame.
#[derive(Drop)]
pub struct Best {
    pub mark: Vec<bool>,
    pub sets: FinalSets,
}

/// The mates of a maximum matching, and its frame.
#[derive(Drop)]
pub struct Mated {
    pub mate: Vec<u32>,
    pub sets: FinalSets,
}

/// Makes a maximum matching of G - removed, given by its marks, as `find_mates` does.
pub fn find_best(alloc: Global, g: &MultiGraph, removed: VSet) -> Result<Best, Memory>
    ensures { IfOk result (λ b. IsBest g.now (mem removed) b) }
{
    let Mated { mate, sets } = find_mates(alloc, g, removed)?;
    let mark = marks_of(alloc, g.order(), g.edges(), &mate)?;
    Ok(Best { mark, sets })
}

/// Makes a maximum matching of G - removed: first greedily, edge by edge, then by augmentations.
pub fn find_mates(alloc: Global, g: &MultiGraph, removed: VSet) -> Result<Mated, Memory>
    ensures long { IfOk result (λ b. length b.mate.items ≡ g.now.order + 1) }
    ensures frame { IfOk result (λ b. HasFrame g.now (mem removed) b.mate.items b.sets) }
{
    let n = g.order();
    let ends = g.edges();
    let FirstPairs { mut mate, met } = first_pairs(alloc, n, ends, removed)?;
    let exposed = VSet::full(n).minus(met);
    let sets = enlarge(alloc, g.rows(), removed, exposed, &mut mate)?;
    Ok(Mated { mate, sets })
}

/// Augments a matching of G - removed, given by its marks, until it is maximum. It works with
/// mates; the list of edges is read only at the beginning and at the end.
pub fn best_from(
    alloc: Global,
    n: u32,
    ends: &[Ends],
    rows: &[VSet],
    removed: VSet,
    given: &[bool],
) -> Result<Best, Memory>
    requires row { IsGraphRow n ends.now }
    requires neighbours { AreRows (graph_of n ends.now) rows.now }
    requires long { length given.now ≡ length ends.now + 1 }
    requires matching { IsMatching (graph_of n ends.now) (mem removed) (marks given.now) }
    ensures { IfOk result (λ b. IsBest (graph_of n ends.now) (mem removed) b) }
{
    let mut mate = mates_of(alloc, n, ends, given)?;
    let exposed = unmated(&mate).minus(removed);
    let sets = enlarge(alloc, rows, removed, exposed, &mut mate)?;
    let mark = marks_of(alloc, n, ends, &mate)?;
    Ok(Best { mark, sets })
}

/// Augments a matching of G - removed, given by its mates, until it is maximum, and returns its
/// frame; `rows` are the sets of neighbours, and `exposed` contains the exposed vertices. A perfect
/// matching has an empty frame, and no search is prepared for it. The only error is `Memory`.
pub fn enlarge(
    alloc: Global,
    rows: &[VSet],
    removed: VSet,
    exposed: VSet,
    mate: &mut [u32],
) -> Result<FinalSets, Memory>
    requires few { length rows.now ≤ MOST_VERTICES }
    requires long { length mate.old ≡ length rows.now + 1 }
    requires holds { (g : Graph) × (f : Set) × IsGraph g × AreRows g rows.now ×
        HasMates g (mem removed) f (numbers mate.old) }
    requires exposed { (v : ℕ) → Within (length rows.now) v → mem removed v ≡ false →
        numbers mate.old v ≡ 0 → mem exposed v ≡ true }
    ensures { IfOk result (λ sets. (g : Graph) (f : Set) → IsGraph g → AreRows g rows.now →
        HasMates g (mem removed) f (numbers mate.old) → HasFrame g (mem removed) mate.new sets) }
{
    if exposed.len() == 0 {
        return Ok(FinalSets {
            outer: VSet::empty(),
            inner: VSet::empty(),
        });
    }
    let mut instance = instance_of(alloc, rows, removed)?;
    last_frame(alloc, &mut instance, exposed, mate)
}

/// Augments a matching, given by its mates, until a step returns a frame. The candidates contain
/// the exposed vertices. All blossoms are expanded again at the end.
pub(crate) fn last_frame(
    alloc: Global,
    instance: &mut Instance,
    candidates: VSet,
    mate: &mut [u32],
) -> Result<FinalSets, Memory>
    requires holds { (g : Graph) × (r : Set) × (f : Set) ×
        HoldsMatching g r f instance.old mate.old }
    requires candidates { MayBeExposed instance.old.left mate.old candidates }
    ensures frame { IfOk result (λ sets. (g : Graph) (r f : Set) →
        HoldsMatching g r f instance.old mate.old → HasFrame g r mate.new sets) }
    ensures restored { OnOk result (AreAlike instance.old instance.new) }
{
    let n = instance.rows.len() as u32;
    let mut forest = AlternatingForest::empty(alloc, n)?;
    let mut exposed = candidates;
    'augmenting: loop {
        match augment_once(alloc, instance, &mut forest, exposed, mate)? {
            Answer::Grown => exposed = unmated(mate),
            Answer::Final(sets) => return Ok(sets),
        }
    }
}

// The mates of a greedy matching, and the set of removed vertices and of those with a mate.
#[derive(Drop)]
struct FirstPairs {
    mate: Vec<u32>,
    met: VSet,
}

// A greedy matching: each edge in turn, if both its ends are free.
fn first_pairs(alloc: Global, n: u32, ends: &[Ends], removed: VSet) -> Result<FirstPairs, Memory>
    requires { IsGraphRow n ends.now }
    ensures long { IfOk result (λ pairs. length pairs.mate.items ≡ n + 1) }
    ensures mates { IfOk result (λ pairs. (m : Set) ×
        HasMates (graph_of n ends.now) (mem removed) m (numbers pairs.mate.items)) }
    ensures met { IfOk result (λ pairs. (v : ℕ) → mem removed v ≡ false →
        numbers pairs.mate.items v ≡ 0 → mem pairs.met v ≡ false) }
{
    let mut mate = vec![in alloc; 0; n as usize + 1]?;
    let mut met = removed;
    for e in ends {
        if mate[e.a as usize] == 0 && mate[e.b as usize] == 0 {
            if is_addable(*e, met) {
                join(&mut mate, e.a, e.b);
                met = met.with(e.a).with(e.b);
            }
        }
    }
    Ok(FirstPairs { mate, met })
}

// The first place from a given one on where no mate is, or the length of the row.
fn next_unmated(mate: &[u32], from: usize) -> usize
    requires { from ≤ length mate.now }
    ensures after { from ≤ result }
    ensures within { result ≤ length mate.now }
    ensures passed { (v : ℕ) → from ≤ v → v < result → numbers mate.now v ≢ 0 }
{
    let mut v = from;
    'passing: while v < mate.len() {
        if mate[v] == 0 {
            break;
        }
        v += 1;
    }
    v
}

// The vertices without a mate.
fn unmated(mate: &[u32]) -> VSet
    requires some { 1 ≤ length mate.now }
    requires few { length mate.now ≤ MOST_VERTICES + 1 }
    ensures { (v : ℕ) → 1 ≤ v → v < length mate.now → numbers mate.now v ≡ 0 → mem result v ≡ true }
{
    let mut found = VSet::empty();
    let mut v = next_unmated(mate, 1);
    'finding: while v < mate.len() {
        found = found.with(v as u32);
        v = next_unmated(mate, v + 1);
    }
    found
}

/// Whether an edge joins two different vertices outside the set.
pub fn is_addable(e: Ends, met: VSet) -> bool
    requires a { Within MOST_VERTICES e.a }
    requires b { Within MOST_VERTICES e.b }
    ensures { result ≡ (not (e.a == e.b) && (not (mem met e.a) && not (mem met e.b))) }
{
    e.a != e.b && (!met.contains(e.a) && !met.contains(e.b))
}
