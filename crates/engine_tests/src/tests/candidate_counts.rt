//! How many candidates graphs have of which the tight cuts are known.

use super::shapes::{TWO_K33, chordal_ring, pages, three_parts};
use gallai_edmonds::graph_facts::Covered;
use graph_core::MultiGraph;
use plain_graph::{graph_with, is_covered};
use std::alloc::{AllocError as Memory, Global};
use std::test::Fail;
use tree_check::separation_kit::FirstPairs;
use tree_check::tight_cuts::{candidates, first_candidate};

// The number of candidates; none if the graph is not covered, or `first_candidate` answers another
// one than the first of them.
fn candidates_of(alloc: Global, g: &MultiGraph) -> Result<Option<usize>, Memory> {
    if !is_covered(alloc, g)? {
        return Ok(None);
    }
    let list = candidates(alloc, g)?;
    let covered = Covered::known(alloc, g)?;
    let first = first_candidate(alloc, &FirstPairs::of(&covered))?;
    if first == list.as_slice().first().copied() {
        return Ok(Some(list.len()));
    }
    Ok(None)
}

// The length of a chord, and half the numbers of vertices of the rings with it.
static RINGS: [(u32, &[u32]); 2] = [(3, &[3, 4, 5, 6, 7]), (5, &[6, 7, 8])];

// The number of candidates of a ring, with half the number of its vertices and the length of a
// chord.
fn candidates_of_ring(alloc: Global, half: u32, jump: u32) -> Result<Option<usize>, Fail> {
    if half < 3 || half > 50 || jump > 50 {
        return Ok(None);
    }
    let g = chordal_ring(alloc, half, jump)?;
    Ok(candidates_of(alloc, &g)?)
}

#[test]
fn bipartite_cubic_graphs(rt: HostRuntime) -> Result<(), Fail> {
    for (jump, halves) in &RINGS {
        for half in *halves {
            assert!(rt; candidates_of_ring(rt.alloc(), *half, *jump)? == Some(0));
        }
    }
    let spliced = graph_with(rt.alloc(), 10, &TWO_K33)?;
    assert!(rt; candidates_of(rt.alloc(), &spliced)? == Some(1));
    Ok(())
}

// The number of candidates with no, one, two and three parts of 5 vertices.
static PARTS: [usize; 4] = [3, 3, 3, 3];

#[test]
fn barriers_of_three_with_three_odd_parts(rt: HostRuntime) -> Result<(), Fail> {
    let mut fives = 0;
    for many in &PARTS {
        assert!(rt; fives <= 3);
        let g = three_parts(rt.alloc(), fives)?;
        assert!(rt; candidates_of(rt.alloc(), &g)? == Some(*many));
        fives += 1;
    }
    Ok(())
}

// The number of candidates of two, three and four K4 on the same two vertices.
static PAGES: [(u32, usize); 3] = [(2, 2), (3, 3), (4, 4)];

#[test]
fn pairs_with_several_parts(rt: HostRuntime) -> Result<(), Fail> {
    for (pages_in, many) in &PAGES {
        assert!(rt; *pages_in <= 50);
        let with_spine = pages(rt.alloc(), *pages_in, true)?;
        assert!(rt; candidates_of(rt.alloc(), &with_spine)? == Some(*many));
        let without = pages(rt.alloc(), *pages_in, false)?;
        assert!(rt; candidates_of(rt.alloc(), &without)? == Some(*many));
    }
    Ok(())
}
