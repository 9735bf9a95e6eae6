//! A maximum matching, by the mates of the vertices, and the Gallai-Edmonds sets.
ghost use Rattle.std.specs.Prelude.{◌≡◌, ◌+◌, ◌≤◌, ◌==◌, IfOk, length};
ghost use Rattle.allowed_edges.specs.from_counting.Common.{count};
ghost use Rattle.allowed_edges.specs.from_match_search.Common.{numbers};
ghost use Rattle.mcg6_lines.specs.MatchingLines.{IsMatchedWith};

use allowed_edges::match_core::FinalSets;
use allowed_edges::match_core::match_search::{Mated, find_mates};
use graph_core::vset_core::VSet;
use graph_core::{MultiGraph, ThreeSets};
use std::alloc::{AllocError as Memory, Global};

/// A maximum matching: its number of edges, and for each vertex the other end of its edge, or 0 if
/// the matching misses it. The place 0 of the mates is not used.
#[derive(Drop)]
pub struct MaximumMatching {
    pub edges: u32,
    pub mate: Vec<u32>,
    pub sets: ThreeSets,
}

impl MaximumMatching {
    /// A maximum matching of the graph with the Gallai-Edmonds sets, by one search. Costs what
    /// `find_mates` of `match_search` costs; the only error is `Memory`.
    pub fn of(alloc: Global, g: &MultiGraph) -> Result<MaximumMatching, Memory>
        ensures long { IfOk result (λ found. length found.mate.items ≡ g.now.order + 1) }
        ensures right { IfOk result (λ found. IsMatchedWith g.now found.edges
            (numbers found.mate.items) found.sets.d found.sets.a found.sets.c) }
    {
        g.keeps_limits();
        let n = g.order();
        let Mated { mate, sets } = find_mates(alloc, g, VSet::empty())?;
        let FinalSets { outer, inner } = sets;
        outer.rises();
        inner.rises();
        let rest = VSet::full(n).minus(outer.union(inner));
        rest.rises();
        let exposed = count_exposed(&mate, n);
        let edges = (n - exposed) / 2;
        Ok(MaximumMatching {
            edges,
            mate,
            sets: ThreeSets {
                d: outer,
                a: inner,
                c: rest,
            },
        })
    }
}

// How many of the vertices 1 to n have no mate.
fn count_exposed(mate: &[u32], n: u32) -> u32
    requires { length mate.now ≡ n + 1 }
    ensures is { result ≡ count n (λ v. numbers mate.now v == 0) }
    ensures few { result ≤ n }
{
    let mut exposed = 0;
    for done in 0..n {
        if mate[done as usize + 1] == 0 {
            exposed += 1;
        }
    }
    exposed
}
