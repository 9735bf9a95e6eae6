//! The quick tests for bricks and braces beside the plain enumeration of all perfect matchings
//! and all odd sets.
ghost use Rattle.std.specs.Prelude.{◌≤◌};
ghost use Rattle.plain_graph.specs.Small.{IsSmall};

use super::made::set_of_bits;
use super::numbered::{Family, numbered};
use graph_core::MultiGraph;
use graph_core::vset_core::VSet;
use plain_graph::{edges_in_cut, is_bipartite, is_covered, is_small, perfect_matchings};
use quick_kinds::{quick_brace, quick_brick};
use rand_core::utils::NextWord;
use rand_pcg::Lcg64Xsh32;
use std::alloc::{AllocError as Memory, Global};
use std::test::Fail;

// Whether the set is one of the vertices, with an odd number of at least three inside and outside.
fn is_nontrivial(g: &MultiGraph, set: VSet) -> bool {
    g.keeps_limits();
    let rest = VSet::full(g.order()).minus(set);
    set.is_subset(VSet::full(g.order()))
        && set.len() % 2 == 1
        && rest.len() % 2 == 1
        && set.len() >= 3
        && rest.len() >= 3
}

fn each_crosses_once(g: &MultiGraph, matchings: &[VSet], set: VSet) -> bool
    requires { IsSmall g.now }
{
    matchings
        .iter()
        .all(|matching| edges_in_cut(g, *matching, set) == 1)
}

// Whether some cut of a graph of at most 8 vertices is nontrivial and tight: each has a shore
// without the vertex 8.
fn has_tight_cut(alloc: Global, g: &MultiGraph) -> Result<bool, Memory>
    requires { IsSmall g.now }
{
    let matchings = perfect_matchings(alloc, g, VSet::empty())?;
    for bits in 0..128 {
        let set = set_of_bits(bits);
        if is_nontrivial(g, set) && each_crosses_once(g, matchings.as_slice(), set) {
            return Ok(true);
        }
    }
    Ok(false)
}

// Whether the quick test for the sort of the graph finds no nontrivial tight cut; none if it
// does not take the graph.
fn is_whole(alloc: Global, g: &MultiGraph) -> Result<Option<bool>, Memory> {
    if !is_covered(alloc, g)? || g.order() < 4 {
        return Ok(None);
    }
    if is_bipartite(alloc, g)? {
        return Ok(Some(quick_brace(alloc, g)?));
    }
    Ok(Some(quick_brick(alloc, g)?.is_none()))
}

// How many graphs were compared, and how many of them are bricks or braces.
#[derive(Clone, Copy, PartialEq, Eq)]
struct Seen {
    compared: u32,
    whole: u32,
}

impl Seen {
    fn of(compared: u32, whole: u32) -> Seen {
        Seen { compared, whole }
    }

    fn and(self, is_whole: bool) -> Seen {
        let one = if is_whole { 1 } else { 0 };
        Seen {
            compared: self.compared.saturating_add(1),
            whole: self.whole.saturating_add(one),
        }
    }
}

// What was seen before, and this graph; none if the quick test and the enumeration do not
// agree on it.
fn and_graph(alloc: Global, seen: Seen, g: &MultiGraph) -> Result<Option<Seen>, Memory> {
    if !is_small(g) {
        return Ok(Some(seen));
    }
    match is_whole(alloc, g)? {
        None => Ok(Some(seen)),
        Some(is_whole) => {
            if has_tight_cut(alloc, g)? == is_whole {
                return Ok(None);
            }
            Ok(Some(seen.and(is_whole)))
        }
    }
}

// What is seen of the graphs of these numbers; none if one is found on which the two do not agree.
fn all_of(alloc: Global, order: u32, family: Family, numbers: &[u32]) -> Result<Option<Seen>, Fail>
    requires { order ≤ 128 }
{
    let mut seen = Seen::of(0, 0);
    for number in numbers {
        let g = numbered(alloc, order, family, *number)?;
        match and_graph(alloc, seen, &g)? {
            None => return Ok(None),
            Some(more) => seen = more,
        }
    }
    Ok(Some(seen))
}

// All numbers below a limit.
fn below(alloc: Global, limit: u32) -> Result<Vec<u32>, Memory> {
    let mut numbers = Vec::new(alloc);
    for number in 0..limit {
        numbers.push(number)?;
    }
    Ok(numbers)
}

#[test]
fn all_graphs_of_four_and_six_vertices(rt: HostRuntime) -> Result<(), Fail> {
    let numbers = below(rt.alloc(), 1 << 4)?;
    assert!(rt; all_of(rt.alloc(), 4, Family::Any, &numbers)? == Some(Seen::of(3, 3)));
    let numbers = below(rt.alloc(), 1 << 12)?;
    assert!(rt; all_of(rt.alloc(), 6, Family::Any, &numbers)? == Some(Seen::of(1108, 689)));
    Ok(())
}

#[test]
fn all_bipartite_graphs_of_eight_vertices(rt: HostRuntime) -> Result<(), Fail> {
    let numbers = below(rt.alloc(), 1 << 10)?;
    assert!(rt; all_of(rt.alloc(), 8, Family::Bipartite, &numbers)? == Some(Seen::of(552, 64)));
    Ok(())
}

// So many numbers, of which three bits in eight are set.
fn drawn(alloc: Global, many: u32) -> Result<Vec<u32>, Memory> {
    let mut words = Lcg64Xsh32::new(8, 1);
    let mut numbers = Vec::new(alloc);
    for _ in 0..many {
        numbers.push(words.next_word() & (words.next_word() | words.next_word()))?;
    }
    Ok(numbers)
}

#[test]
fn graphs_of_eight_vertices(rt: HostRuntime) -> Result<(), Fail> {
    let numbers = drawn(rt.alloc(), 400)?;
    assert!(rt; all_of(rt.alloc(), 8, Family::Any, &numbers)? == Some(Seen::of(56, 21)));
    Ok(())
}
