//! Worked graphs: partitions, quotients with their remembered edges, and lifted matchings.
ghost use Rattle.std.specs.Prelude.{◌≡◌, ◌≤◌, IfOk};

use super::made::{made, set_of};
use contraction::{Contracted, Partition, lift, quotient};
use graph_core::vset_core::{MOST_VERTICES, VSet};
use graph_core::{Ends, MultiGraph, Numbers};
use match_core::perfect_with;
use plain_graph::{CYCLE_OF_8, DOUBLED_SQUARE, K4, TRIANGLE_IN_K33};
use std::alloc::Global;
use std::test::Fail;

// The single vertices with the shore merged, where there is one.
fn merged(alloc: Global, order: u32, shore: VSet) -> Result<Partition, Fail>
    requires { order ≤ MOST_VERTICES }
    ensures { IfOk result (λ p. p.order ≡ order) }
{
    let singles = Partition::singles(alloc, order)?;
    if singles.is_union(shore) && shore.len() > 0 {
        return Ok(singles.merge(alloc, shore)?);
    }
    Ok(singles)
}

fn contracted(alloc: Global, graph: &MultiGraph, shore: VSet) -> Result<Contracted, Fail> {
    graph.keeps_limits();
    let partition = merged(alloc, graph.order(), shore)?;
    Ok(quotient(alloc, graph, &partition)?)
}

// The blocks of the single vertices 1 to 8 where 1, 2 and 8 are one.
static BLOCKS: [&[u32]; 6] = [&[3], &[4], &[5], &[6], &[7], &[1, 2, 8]];

// Sets, and whether they are unions of these blocks.
static UNIONS: [(&[u32], bool); 6] = [
    (&[1, 2, 8], true),
    (&[1, 2, 3, 8], true),
    (&[3, 4], true),
    (&[], true),
    (&[1, 2], false),
    (&[3, 9], false),
];

// Whether the partition has these blocks, in their order.
pub fn has_blocks(partition: &Partition, blocks: &[&[u32]]) -> bool {
    if partition.len() != blocks.len() {
        return false;
    }
    for (i, block) in blocks.iter().enumerate() {
        if i < partition.len() && partition.block(i) != set_of(block) {
            return false;
        }
    }
    true
}

#[test]
fn partitions_by_greatest_vertex(rt: HostRuntime) -> Result<(), Fail> {
    let singles = Partition::singles(rt.alloc(), 8)?;
    assert!(rt; singles.order() == 8 && singles.len() == 8 && !singles.is_empty());
    assert!(rt; singles.blocks_in(set_of(&[2, 4, 8])) == 3);
    let partition = merged(rt.alloc(), 8, set_of(&[1, 2, 8]))?;
    assert!(rt; has_blocks(&partition, &BLOCKS));
    for (set, is_union) in &UNIONS {
        assert!(rt; partition.is_union(set_of(set)) == *is_union);
    }
    assert!(rt; partition.blocks_in(set_of(&[1, 2, 3, 8])) == 2);
    Ok(())
}

// A graph, by its order and its edges, and a shore that is contracted.
type Cut = (u32, &'static [(u32, u32)], &'static [u32]);

const FAR_SIDE: Cut = (8, &TRIANGLE_IN_K33, &[4, 5, 6, 7, 8]);

const TRIANGLE_SIDE: Cut = (8, &TRIANGLE_IN_K33, &[1, 2, 3]);

const FIVE_OF_EIGHT: Cut = (8, &CYCLE_OF_8, &[1, 2, 3, 4, 5]);

const WHOLE_CYCLE: Cut = (8, &CYCLE_OF_8, &[]);

const DOUBLED: Cut = (4, &DOUBLED_SQUARE, &[]);

// Three vertices of the complete graph of four are one: three edges go to the fourth.
const THREE_OF_FOUR: Cut = (4, &K4, &[1, 2, 3]);

fn contracted_at(alloc: Global, (order, edges, shore): &Cut) -> Result<Contracted, Fail> {
    let graph = made(alloc, *order, edges)?;
    contracted(alloc, &graph, set_of(shore))
}

// The edges of the quotient at a cut, in order: the two digits of a number are the ends of one, and
// each remembers these edges of the graph.
struct Quotient {
    cut: Cut,
    ends: &'static [u32],
    remembered: &'static [&'static [u32]],
}

static QUOTIENTS: [Quotient; 6] = [
    Quotient {
        cut: FAR_SIDE,
        ends: &[12, 13, 14, 23, 24, 34],
        remembered: &[&[1], &[2], &[4], &[3], &[5], &[6]],
    },
    Quotient {
        cut: TRIANGLE_SIDE,
        ends: &[12, 13, 14, 25, 26, 35, 36, 45, 46],
        remembered: &[&[4], &[5], &[6], &[7], &[10], &[8], &[11], &[9], &[12]],
    },
    Quotient {
        cut: FIVE_OF_EIGHT,
        ends: &[12, 14, 23, 34],
        remembered: &[&[5], &[8], &[6], &[7]],
    },
    Quotient {
        cut: WHOLE_CYCLE,
        ends: &[12, 18, 23, 34, 45, 56, 67, 78],
        remembered: &[&[1], &[8], &[2], &[3], &[4], &[5], &[6], &[7]],
    },
    Quotient {
        cut: THREE_OF_FOUR,
        ends: &[12],
        remembered: &[&[3, 5, 6]],
    },
    Quotient {
        cut: DOUBLED,
        ends: &[12, 14, 23, 34],
        remembered: &[&[1, 2], &[5], &[3], &[4]],
    },
];

// Whether edge e of the quotient has these ends and remembers these edges.
fn is_edge(q: &Contracted, e: u32, ends: u32, edges: &[u32]) -> bool {
    if e < 1 || e > q.graph().size() {
        return false;
    }
    let (a, b) = (ends / 10, ends % 10);
    q.graph().ends(e) == Ends { a, b } && q.remembered(e) == edges
}

// Whether the quotient has the edges of this row, in their order.
fn has_edges(q: &Contracted, wanted: &Quotient) -> bool {
    let mut e = 0u32;
    for (ends, edges) in wanted.ends.iter().zip(wanted.remembered) {
        e = e.saturating_add(1);
        if !is_edge(q, e, *ends, edges) {
            return false;
        }
    }
    q.graph().size() == e && wanted.ends.len() == wanted.remembered.len()
}

#[test]
fn quotients_with_remembered_edges(rt: HostRuntime) -> Result<(), Fail> {
    for wanted in &QUOTIENTS {
        let q = contracted_at(rt.alloc(), &wanted.cut)?;
        assert!(rt; has_edges(&q, wanted));
    }
    Ok(())
}

#[test]
fn places_lifted_to_vertices(rt: HostRuntime) -> Result<(), Fail> {
    let q = contracted_at(rt.alloc(), &FAR_SIDE)?;
    assert!(rt; q.lift_set(set_of(&[2, 4])) == set_of(&[2, 4, 5, 6, 7, 8]));
    assert!(rt; q.lift_set(VSet::empty()) == VSet::empty());
    Ok(())
}

// An edge of a quotient, and the edges of a perfect matching of the quotient that holds it, lifted.
static LIFTED: [(Cut, u32, &[u32]); 4] = [
    (FAR_SIDE, 3, &[3, 4]),
    (FAR_SIDE, 1, &[1, 6]),
    (FIVE_OF_EIGHT, 2, &[6, 8]),
    (DOUBLED, 1, &[1, 4]),
];

// Whether a perfect matching of the quotient that holds the edge is lifted to these edges.
fn lifts_to(alloc: Global, q: &Contracted, held: u32, lifted: &[u32]) -> Result<bool, Fail> {
    if held < 1 || held > q.graph().size() {
        return Ok(false);
    }
    let mut edges = Numbers::new(alloc);
    edges.push(held)?;
    match perfect_with(alloc, q.graph(), &edges)? {
        Some(matching) => Ok(lift(alloc, q, &matching)?.as_slice() == lifted),
        None => Ok(false),
    }
}

// Whether this is so of the quotient at the cut.
fn is_lifted(alloc: Global, cut: &Cut, held: u32, lifted: &[u32]) -> Result<bool, Fail> {
    let q = contracted_at(alloc, cut)?;
    lifts_to(alloc, &q, held, lifted)
}

#[test]
fn matchings_lifted_by_least_edges(rt: HostRuntime) -> Result<(), Fail> {
    for (cut, held, lifted) in &LIFTED {
        assert!(rt; is_lifted(rt.alloc(), cut, *held, lifted)?);
    }
    Ok(())
}
