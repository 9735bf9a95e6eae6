//! Which two vertices can be missed together?
//!
//! Two vertices u and v outside a set R are partners if G - R - u - v has a perfect matching. The
//! table of partners says much about the structure of a graph: an edge is allowed if and only if
//! its ends are partners; the class of u in the canonical partition is the set of all vertices that
//! are not partners of u; and G is bicritical if and only if any two different vertices are
//! partners.
//!
//! The table is made from a maximum matching of G - R. A perfect matching of G - R - u - v misses
//! just u and v in G - R. So if a maximum matching misses neither 0 nor 2 vertices, no vertex has a
//! partner, and no row is searched. Otherwise a row takes one search. If no vertex is missed, the
//! matching less its edge at u misses one vertex of G - R - u, the mate of u; it cannot be
//! augmented, so the first step returns a frame, and the outer vertices of a frame are exactly
//! those that some matching of the same size misses. If two are missed, a row takes at most one
//! more augmentation.
ghost use Rattle.std.specs.Prelude.{◌≡◌, ◌≢◌, ℕ, ◌+◌, ◌-◌, ◌<◌, ◌≤◌, ◌==◌, ◌&&◌, ◌||◌, not, true, length, IfOk, OnOk};
ghost use Rattle.graph_core.specs.from_counting.Common.{Within, count, Set, none, item, mem};
ghost use Rattle.graph_core.specs.Common.{size, IsMatching, missed_count};
ghost use Rattle.match_core.specs.HeldMates.{HoldsMates};
ghost use Rattle.match_core.specs.MatchingRows.{IsOf};
ghost use Rattle.match_search.specs.Common.{HasMates, IsBest, ServesRows, marks, numbers, AreAlike};
ghost use Rattle.match_core.specs.Partners.{AreEmptyRows, ArePartners, are_partners};

use crate::frames::maximum;
use crate::matching::Matching;
use crate::mates::mates_off;
use graph_core::MultiGraph;
use graph_core::vset_core::VSet;
use match_search::{Best, Instance, RowSpace, best_from, instance_of, mates_of, missable_in};
use std::alloc::{AllocError as Memory, Global};
use std::marker::Model;

/// For each vertex of a graph the set of its partners. Contracts see the list of these sets, by
/// vertex.
#[derive(Drop)]
pub struct PartnerTable {
    rows: Vec<VSet>,
}

impl Model for PartnerTable {
    ghost use Rattle.std.specs.Prelude.{List, ℕ};

    ghost Value = { List (List ℕ) };

    ghost view = { λ table. table.rows.items };
}

impl PartnerTable {
    /// The partners of `u`. Takes no memory.
    pub fn of(&self, u: u32) -> VSet
        requires { Within (length self.now) u }
        ensures { result ≡ item self.now u }
    {
        self.rows[u as usize - 1]
    }
}

/// The partners of each vertex in G - removed, from any matching `m` of `g`: two vertices outside
/// `removed` are partners if there is a perfect matching of G - removed without these two. The row
/// of a vertex of `removed` is empty. If `m` misses a vertex of G - removed, it is first made
/// maximum there. If it then misses neither 0 nor 2 vertices, no row is searched; otherwise a row
/// takes one search, after at most one augmentation: O(n^3) steps on words for all rows if `m`
/// misses none, and O(n^4 + m) at most. The only error is `Memory`.
pub fn partners(
    alloc: Global,
    g: &MultiGraph,
    removed: VSet,
    m: &Matching,
) -> Result<PartnerTable, Memory>
    requires { IsOf g.now m.now }
    ensures { IfOk result (ArePartners g.now (mem removed)) }
{
    let first = mates_off(alloc, g, removed, m)?;
    if misses_none(VSet::full(g.order()).minus(removed), &first) {
        return rows_from(alloc, g, removed, &first);
    }
    let Best { mark, sets: _ } = enlarged(alloc, g, removed, m)?;
    if !leaves_partners(missed_by(g, removed, &mark)) {
        return empty_rows(alloc, g.order());
    }
    let mate = mates_in(alloc, g, removed, &mark)?;
    rows_from(alloc, g, removed, &mate)
}

// Whether each vertex of a set has a mate.
fn misses_none(set: VSet, mate: &[u32]) -> bool
    requires { (v : ℕ) → mem set v ≡ true → v < length mate.now }
    ensures { result ≡ true → (v : ℕ) → mem set v ≡ true → numbers mate.now v ≢ 0 }
{
    let mut rest = set;
    'looking: while let Some((v, others)) = rest.split_first() {
        rest = others;
        if mate[v as usize] == 0 {
            return false;
        }
    }
    true
}

// The mates of a matching of G - removed.
fn mates_in(alloc: Global, g: &MultiGraph, removed: VSet, mark: &[bool]) -> Result<Vec<u32>, Memory>
    requires long { length mark.now ≡ size g.now + 1 }
    requires matching { IsMatching g.now (mem removed) (marks mark.now) }
    ensures long { IfOk result (λ mate. length mate.items ≡ g.now.order + 1) }
    ensures mates { IfOk result
        (λ mate. HasMates g.now (mem removed) (marks mark.now) (numbers mate.items)) }
{
    let n = g.order();
    let ends = g.edges();
    mates_of(alloc, n, ends, mark)
}

// Whether there can be partners if a maximum matching misses so many vertices.
fn leaves_partners(missed: usize) -> bool
    ensures { result ≡ (missed == 0 || missed == 2) }
{
    missed == 0 || missed == 2
}

// The table with a search for each row, from the mates of a maximum matching.
#[tactic(auto, using(crate::proofs::HeldMates::first_mates, crate::proofs::HeldMates::mates_alike))]
fn rows_from(
    alloc: Global,
    g: &MultiGraph,
    removed: VSet,
    mate: &[u32],
) -> Result<PartnerTable, Memory>
    requires long { length mate.now ≡ g.now.order + 1 }
    requires mates { (m : Set) × HasMates g.now (mem removed) m (numbers mate.now) }
    ensures { IfOk result (ArePartners g.now (mem removed)) }
{
    g.keeps_limits();
    let mut instance = instance_of(alloc, g.rows(), removed)?;
    let mut space = RowSpace::new(alloc, instance.left, mate)?;
    let mut rows = Vec::with_capacity(alloc, g.order() as usize)?;
    for k in 0..g.order() {
        let row = partners_of(alloc, g, &mut instance, &mut space, removed, mate, k + 1)?;
        rows.push(row)?;
    }
    Ok(PartnerTable { rows })
}

// The table of `n` empty rows.
fn empty_rows(alloc: Global, n: u32) -> Result<PartnerTable, Memory>
    ensures { IfOk result (AreEmptyRows n) }
{
    let rows = vec![in alloc; VSet::empty(); n as usize]?;
    Ok(PartnerTable { rows })
}

/// The partners of each vertex of `g`: u and v, different, are partners if G - u - v has a perfect
/// matching. Takes one maximum matching and at most n searches, O(n^4 + m) steps on words at most;
/// the only error is `Memory`.
pub fn all_partners(alloc: Global, g: &MultiGraph) -> Result<PartnerTable, Memory>
    ensures { IfOk result (ArePartners g.now none) }
{
    let found = maximum(alloc, g)?;
    partners(alloc, g, VSet::empty(), &found.matching)
}

// The partners of one vertex: the vertices that matchings without it can miss alone. The instance
// is restored at the end, and the space serves the next row.
pub(crate) fn partners_of(
    alloc: Global,
    g: &MultiGraph,
    instance: &mut Instance,
    space: &mut RowSpace,
    removed: VSet,
    mate: &[u32],
    u: u32,
) -> Result<VSet, Memory>
    requires held { HoldsMates g.now (mem removed) instance.old mate.now }
    requires space { ServesRows instance.old.left mate.now space.old }
    requires vertex { Within g.now.order u }
    ensures within { IfOk result (λ row. (v : ℕ) → mem row v ≡ true → Within g.now.order v) }
    ensures row { IfOk result
        (λ row. (v : ℕ) → Within g.now.order v → mem row v ≡ are_partners g.now (mem removed) u v) }
    ensures restored { OnOk result (AreAlike instance.old instance.new) }
    ensures space { OnOk result (ServesRows instance.old.left mate.now space.new) }
{
    g.keeps_limits();
    if removed.contains(u) {
        return Ok(VSet::empty());
    }
    missable_in(alloc, instance, space, mate, u)
}

// A maximum matching of G - removed, made from a matching of `g` less its edges at `removed`.
fn enlarged(alloc: Global, g: &MultiGraph, removed: VSet, m: &Matching) -> Result<Best, Memory>
    requires { IsOf g.now m.now }
    ensures { IfOk result (λ b. IsBest g.now (mem removed) b) }
{
    let n = g.order();
    let ends = g.edges();
    let mark = m.cleared(alloc, removed)?.marks(alloc, g.size() as usize)?;
    best_from(alloc, n, ends, g.rows(), removed, &mark)
}

// How many vertices of G - removed the marked edges miss.
fn missed_by(g: &MultiGraph, removed: VSet, mark: &[bool]) -> usize
    requires long { length mark.now ≡ size g.now + 1 }
    requires matching { IsMatching g.now (mem removed) (marks mark.now) }
    ensures { result ≡ missed_count g.now (mem removed) (marks mark.now) }
{
    g.keeps_limits();
    let left = VSet::full(g.order()).minus(removed);
    left.rises();
    left.len() as usize - 2 * marked_count(mark)
}

// How many places from 1 on are marked.
fn marked_count(mark: &[bool]) -> usize
    requires { 1 ≤ length mark.now }
    ensures { result ≡ count (length mark.now - 1) (marks mark.now) }
{
    let mut found = 0;
    for k in 1..mark.len() {
        if mark[k] {
            found += 1;
        }
    }
    found
}
