//! The search at one edge for tight cuts through it: one least minimum cut for each piece.
//!
//! Let a and b be the ends of the edge. The tight sets with a and without b are closed under union
//! and intersection. So let S(x) be the intersection of those that hold x, if there is one: it is a
//! least minimum cut of a and the piece of x against b. A pair (x, y) is separated exactly when
//! S(x) is there and lacks y; S(x) is then the common shore of all that separate it. Hence the
//! first pair is the first x whose S(x) is there and is not everything but b, with the least y that
//! S(x) lacks (Picard and Queyranne 1980). Mostly there is no such x, and two cuts show it.
ghost use Rattle.std.specs.Prelude.{◌≡◌, ◌≢◌, ℕ, ◌+◌, ◌<◌, ◌≤◌, ◌==◌, ◌&&◌, ◌↔◌, All, not, true, false, length, Some, None, IfNone, IfOk, IfSome};
ghost use Rattle.graph_core.specs.from_counting.Common.{Within, mem, pair_set};
ghost use Rattle.tight_cuts.specs.Candidates.{first_separated, greater_end, lesser_end};
ghost use Rattle.tight_cuts.specs.EdgeSearch.{AreLeadersAt, AreMatchings, IsShoreOfEdge, Leads, NoneBefore, at_place};

use crate::edge_cuts::EdgeSearch;
use crate::groups::{Grouping, common_shore};
use crate::inseparable::is_inseparable;
use crate::leading::leaders_at;
use crate::matchings::Matchings;
use crate::quiet_edges::is_quiet;
use graph_core::MultiGraph;
use graph_core::vset_core::{MOST_VERTICES, VSet};
use std::alloc::{AllocError as Memory, Global};
use tree_core::graph_facts::Covered;

/// Whether `x` leads a piece of the edge with the ends `a` and `b`.
pub(crate) fn leads(leaders: &[u32], a: u32, b: u32, x: u32) -> bool
    requires { x < length leaders.now }
    ensures { result ≡ (not (pair_set a b x) && (at_place leaders.now x == x)) }
{
    x != a && x != b && leaders[x as usize] == x
}

/// The least vertex other than `b` that the shore lacks; `None` exactly when it lacks none.
pub(crate) fn first_lacking(shore: VSet, n: u32, b: u32) -> Option<u32>
    requires few { n ≤ MOST_VERTICES }
    requires vertex { Within n b }
    ensures some { IfSome result (λ y. Within n y × (y ≢ b) × (mem shore y ≡ false)) }
    ensures none { IfNone result ((y : ℕ) → Within n y → y ≢ b → mem shore y ≡ true) }
{
    VSet::full(n).minus(shore).without(b).first()
}

// What the pairs (x, y) give at edge `e`, for the x of `groups`, which leads a piece, and all y, if
// no pair before them is separated, by one least minimum cut.
fn shore_of_piece(
    alloc: Global,
    g: &MultiGraph,
    matchings: &mut Matchings<'_>,
    leaders: &[u32],
    groups: Grouping,
    e: u32,
) -> Result<Option<VSet>, Memory>
    requires matchings { AreMatchings g.now matchings.old }
    requires leaders { AreLeadersAt g.now (lesser_end g.now e) (greater_end g.now e) e
        leaders.now }
    requires first { groups.a ≡ lesser_end g.now e }
    requires second { groups.b ≡ greater_end g.now e }
    requires x { Leads g.now (lesser_end g.now e) (greater_end g.now e) leaders.now groups.x }
    requires y { groups.y ≡ greater_end g.now e }
    requires before { NoneBefore g.now e groups.x 1 }
    ensures matchings { IfOk result
        (λ _. AreMatchings g.now matchings.new) }
    ensures some { IfOk result (λ o. (s : _) → o ≡ Some s → IsShoreOfEdge g.now e o) }
    ensures none { IfOk result (λ o. o ≡ None → NoneBefore g.now e (groups.x + 1) 1) }
{
    g.keeps_limits();
    let Some(shore) = common_shore(alloc, g, matchings, leaders, groups, e)? else {
        return Ok(None);
    };
    match first_lacking(shore, g.order(), groups.b) {
        Some(_) => Ok(Some(shore)),
        None => Ok(None),
    }
}

// What the pairs (x, y) give, for one x and all y, if no pair before them is separated; nothing
// unless x leads a piece.
fn shore_from(
    alloc: Global,
    g: &MultiGraph,
    matchings: &mut Matchings<'_>,
    leaders: &[u32],
    e: u32,
    x: u32,
) -> Result<Option<VSet>, Memory>
    requires matchings { AreMatchings g.now matchings.old }
    requires leaders { AreLeadersAt g.now (lesser_end g.now e) (greater_end g.now e) e
        leaders.now }
    requires x { Within g.now.order x }
    requires before { NoneBefore g.now e x 1 }
    ensures matchings { IfOk result
        (λ _. AreMatchings g.now matchings.new) }
    ensures some { IfOk result (λ o. (s : _) → o ≡ Some s → IsShoreOfEdge g.now e o) }
    ensures none { IfOk result (λ o. o ≡ None → NoneBefore g.now e (x + 1) 1) }
{
    g.keeps_limits();
    let ends = g.ends(e);
    let a = ends.a.min(ends.b);
    let b = ends.a.max(ends.b);
    if !leads(leaders, a, b, x) {
        return Ok(None);
    }
    shore_of_piece(alloc, g, matchings, leaders, Grouping { a, b, x, y: b }, e)
}

// What the pairs give in order. Only pairs of vertices that lead pieces are asked: a pair is
// separated by its pieces alone. After the first such vertex one more cut may show that no pair is
// separated.
fn first_shore(
    alloc: Global,
    g: &MultiGraph,
    matchings: &mut Matchings<'_>,
    leaders: &[u32],
    e: u32,
) -> Result<Option<VSet>, Memory>
    requires matchings { AreMatchings g.now matchings.old }
    requires leaders { AreLeadersAt g.now (lesser_end g.now e) (greater_end g.now e) e
        leaders.now }
    ensures matchings { IfOk result
        (λ _. AreMatchings g.now matchings.new) }
    ensures shore { IfOk result (IsShoreOfEdge g.now e) }
{
    g.keeps_limits();
    for k in 0..g.order() {
        if let Some(shore) = shore_from(alloc, g, matchings, leaders, e, k + 1)? {
            return Ok(Some(shore));
        }
        if is_inseparable(alloc, g, matchings, leaders, e, k + 1)? {
            return Ok(None);
        }
    }
    Ok(None)
}

/// The search at the edges of any covered graph, by the perfect matchings that are listed so far
/// and those that it lists.
#[derive(Drop)]
pub(crate) struct NetworkSearch<'g> {
    pub(crate) matchings: Matchings<'g>,
}

impl<'g> EdgeSearch for NetworkSearch<'g> {
    ghost is_of = { λ search g. AreMatchings g search.matchings };

    fn shore_of_edge(
        &mut self,
        alloc: Global,
        c: &Covered,
        e: u32,
    ) -> Result<Option<VSet>, Memory> {
        let g = c.graph();
        if is_quiet(alloc, g, &mut self.matchings, e)? {
            return Ok(None);
        }
        let leaders = leaders_at(alloc, c, &mut self.matchings, e)?;
        first_shore(alloc, g, &mut self.matchings, &leaders, e)
    }
}
