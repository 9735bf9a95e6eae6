//! Premises of the theorem on separating cuts.

use super::claims::Claim::{Is, Set};
use super::claims::OfSet::{MetOnce, Proper, Separating, Tight};
use super::claims::Property::{Bipartite, Connected, Covered};
use super::graphs::{ONE_VERTEX, PATH_OF_4, PRISM, TWO_EDGES};
use super::rows::{Row, all_are_so};
use std::test::Fail;

static ROWS: [Row; 4] = [
    Row {
        premises: &["separating_law: `meets`: connected"],
        without: &["separating_law.meets: IsConnected"],
        graph: "two disjoint edges, where X is one vertex",
        given: TWO_EDGES,
        holds: &[Set(&[Proper, MetOnce], &[1])],
        fails: &[Is(&[Connected]), Set(&[Separating], &[1])],
    },
    Row {
        premises: &["separating_law: `meets`: X is a proper subset"],
        without: &["separating_law.meets: mem x v ≡ false"],
        graph: "K1 with X = V(G)",
        given: ONE_VERTEX,
        holds: &[Is(&[Connected]), Set(&[MetOnce], &[1])],
        fails: &[Set(&[Proper, Separating], &[1])],
    },
    Row {
        premises: &["separating_law: `tight`: matching covered"],
        without: &["separating_law.tight: IsCovered"],
        graph: "the path with four vertices and its first vertex",
        given: PATH_OF_4,
        holds: &[Set(&[Tight], &[1])],
        fails: &[Is(&[Covered]), Set(&[Separating], &[1])],
    },
    Row {
        premises: &["separating_law: `bipartite`: the graph is bipartite"],
        without: &["separating_law.bipartite: IsSide"],
        graph: "the prism",
        given: PRISM,
        holds: &[Is(&[Covered]), Set(&[Proper, Separating], &[1, 2, 3])],
        fails: &[Is(&[Bipartite]), Set(&[Tight], &[1, 2, 3])],
    },
];

#[test]
fn premises_on_separating_cuts(rt: HostRuntime) -> Result<(), Fail> {
    all_are_so(rt.alloc(), &ROWS)
}
