//! Premises of Hall's theorem and of König's theorem.

use super::claims::Claim::{Edges, Few, Is, Set};
use super::claims::OfEdges::Matching;
use super::claims::OfSet::{Cover, Hall, Matched, Side};
use super::claims::Property::{Bipartite, EqualCover, Loopless};
use super::graphs::{K2, ONE_LOOP, TRIANGLE, TWO_PARALLEL};
use super::rows::{Row, all_are_so};
use std::test::Fail;

static HALL: [Row; 2] = [
    Row {
        premises: &["hall_law: A is a side"],
        without: &["hall_law: IsSide"],
        graph: "the triangle, where A contains all its vertices",
        given: TRIANGLE,
        holds: &[Is(&[Loopless]), Set(&[Hall], &[1, 2, 3])],
        fails: &[Set(&[Side, Matched], &[1, 2, 3])],
    },
    Row {
        premises: &["hall_law: no loop"],
        without: &["hall_law: IsMultigraph"],
        graph: "two vertices and one edge, a loop at the vertex of A",
        given: ONE_LOOP,
        holds: &[Set(&[Side, Hall], &[1])],
        fails: &[Is(&[Loopless]), Set(&[Matched], &[1])],
    },
];

static COVERS: [Row; 4] = [
    Row {
        premises: &["koenig_law: `equal`: bipartite; no loop"],
        without: &["koenig_law.equal: IsSide"],
        graph: "the triangle",
        given: TRIANGLE,
        holds: &[Is(&[Loopless])],
        fails: &[Is(&[Bipartite, EqualCover])],
    },
    Row {
        premises: &["koenig_law: `equal`: bipartite; no loop"],
        without: &["koenig_law.equal: IsMultigraph"],
        graph: "two vertices and one edge, a loop",
        given: ONE_LOOP,
        holds: &[Set(&[Side], &[1])],
        fails: &[Is(&[Loopless, EqualCover])],
    },
    Row {
        premises: &["koenig_law: `below`: a matching; a vertex cover"],
        without: &["koenig_law.below: IsMatching"],
        graph: "two parallel edges and one of their ends",
        given: TWO_PARALLEL,
        holds: &[Set(&[Cover], &[1])],
        fails: &[Edges(Matching, &[1, 2]), Few(&[1, 2], 2)],
    },
    Row {
        premises: &["koenig_law: `below`: a matching; a vertex cover"],
        without: &["koenig_law.below: IsVertexCover"],
        graph: "K2 with its edge and no vertex",
        given: K2,
        holds: &[Edges(Matching, &[1])],
        fails: &[Set(&[Cover], &[]), Few(&[1], 1)],
    },
];

#[test]
fn premises_of_halls_theorem(rt: HostRuntime) -> Result<(), Fail> {
    all_are_so(rt.alloc(), &HALL)
}

#[test]
fn premises_of_koenigs_theorem(rt: HostRuntime) -> Result<(), Fail> {
    all_are_so(rt.alloc(), &COVERS)
}
