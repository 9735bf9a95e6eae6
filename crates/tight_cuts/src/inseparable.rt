//! A cut that shows that an edge gives nothing.
//!
//! Let a and b be the ends of the edge, and let x be another vertex. If each tight set with a and x
//! and without b is everything but b, and each with b and x and without a everything but a, then
//! the tight sets with a and without b are a alone and everything but b: no pair is separated. The
//! former is known where no pair with the first vertex x is separated, so one cut is left to make.
ghost use Rattle.std.specs.Prelude.{◌≡◌, ◌+◌, true, IfOk, None};
ghost use Rattle.graph_core.specs.from_counting.Common.{Within};
ghost use Rattle.graph_core.specs.Common.{size};
ghost use Rattle.tight_cuts.specs.Common.{first_separated, greater_end, lesser_end, AreLeadersAt, AreMatchings, AreWhole, Leads, NoneBefore};

use crate::edge_search::{first_lacking, leads};
use crate::groups::{Grouping, common_shore};
use crate::matchings::Matchings;
use crate::quiet_edges::without_ends;
use graph_core::MultiGraph;
use std::alloc::{AllocError as Memory, Global};

/// Whether one more cut shows that no pair is separated at edge `e`, if none with a first vertex up
/// to `x` is. It is made only if `x` is the least vertex that is no end of `e`.
pub(crate) fn is_inseparable(
    alloc: Global,
    g: &MultiGraph,
    matchings: &mut Matchings<'_>,
    leaders: &[u32],
    e: u32,
    x: u32,
) -> Result<bool, Memory>
    requires matchings { AreMatchings g.now matchings.old }
    requires leaders { AreLeadersAt g.now (lesser_end g.now e) (greater_end g.now e) e
        leaders.now }
    requires x { Within g.now.order x }
    requires before { NoneBefore g.now e (x + 1) 1 }
    ensures matchings { IfOk result
        (λ _. AreMatchings g.now matchings.new) }
    ensures none { IfOk result (λ r. r ≡ true → first_separated g.now e ≡ None) }
{
    g.keeps_limits();
    let Some(least) = without_ends(g, e).first() else {
        return Ok(false);
    };
    if x != least {
        return Ok(false);
    }
    let ends = g.ends(e);
    let a = ends.a.min(ends.b);
    let b = ends.a.max(ends.b);
    if !leads(leaders, a, b, x) {
        return Ok(false);
    }
    let far = Grouping {
        a: b,
        b: a,
        x,
        y: a,
    };
    are_whole(alloc, g, matchings, leaders, far, e)
}

// Whether each tight set that has `a` and `x` and lacks `b` is everything but `b`.
fn are_whole(
    alloc: Global,
    g: &MultiGraph,
    matchings: &mut Matchings<'_>,
    leaders: &[u32],
    groups: Grouping,
    e: u32,
) -> Result<bool, Memory>
    requires matchings { AreMatchings g.now matchings.old }
    requires leaders { AreLeadersAt g.now groups.a groups.b e leaders.now }
    requires x { Leads g.now groups.a groups.b leaders.now groups.x }
    requires y { groups.y ≡ groups.b }
    ensures matchings { IfOk result
        (λ _. AreMatchings g.now matchings.new) }
    ensures whole { IfOk result (λ r. r ≡ true → AreWhole g.now groups.a groups.b groups.x) }
{
    g.keeps_limits();
    let Some(shore) = common_shore(alloc, g, matchings, leaders, groups, e)? else {
        return Ok(true);
    };
    match first_lacking(shore, g.order(), groups.b) {
        Some(_) => Ok(false),
        None => Ok(true),
    }
}
