//! Premises of the marriage theorem and of Hetyei's theorem.

use super::claims::Claim::{Edges, Is, Lead, Number, Set, Strong};
use super::claims::OfEdges::{Matching, PerfectMatching, Together};
use super::claims::OfNumber::Order;
use super::claims::OfSet::{Half, Hall, PairsMatched, Perfect, Proper, Side, Surplus};
use super::claims::Property::{Bipartite, Connected, Covered, Loopless, Met};
use super::ears::Steps;
use super::graphs::{
    DIAMOND, EDGE_AND_VERTEX, EMPTY, FOUR_ISOLATED, K2, K2_WITH_LOOP, LOOPED_PATH, ONE_LOOP,
    PATH_OF_3, PATH_OF_4, STAR_OF_3, TWO_ISOLATED,
};
use super::rows::{Row, all_are_so};
use std::test::Fail;

static MARRIAGE: [Row; 3] = [
    Row {
        premises: &["marriage_law: |A| = |B|"],
        without: &["marriage_law: count g.order a ≡ count g.order (complement a)"],
        graph: "the path with three vertices, where A is its middle vertex",
        given: PATH_OF_3,
        holds: &[Number(Order, 2), Is(&[Loopless]), Set(&[Side, Hall], &[2])],
        fails: &[Set(&[Half], &[2]), Set(&[Perfect], &[])],
    },
    Row {
        premises: &["marriage_law: A is a side"],
        without: &["marriage_law: IsSide"],
        graph: "the star K1,3, where A contains the centre and one other vertex",
        given: STAR_OF_3,
        holds: &[Is(&[Loopless]), Set(&[Half, Hall], &[1, 2])],
        fails: &[Set(&[Side], &[1, 2]), Set(&[Perfect], &[])],
    },
    Row {
        premises: &["marriage_law: no loop"],
        without: &["marriage_law: IsMultigraph"],
        graph: "two vertices and one edge, a loop at the vertex of A",
        given: ONE_LOOP,
        holds: &[Set(&[Side, Half, Hall], &[1])],
        fails: &[Is(&[Loopless]), Set(&[Perfect], &[])],
    },
];

static NEIGHBOURS: [Row; 4] = [
    Row {
        premises: &[
            "hetyei_law: `neighbours`, `pairs`: two vertices",
            "hetyei_law: `digraph`: two vertices",
        ],
        without: &[
            "hetyei_law.neighbours: 2 ≤ g.order",
            "hetyei_law.pairs: 2 ≤ g.order",
            "hetyei_law.digraph: 2 ≤ g.order",
        ],
        graph: "the empty graph",
        given: EMPTY,
        holds: &[
            Is(&[Loopless, Connected]),
            Set(&[Side, Half, Surplus, PairsMatched], &[]),
            Edges(PerfectMatching, &[]),
            Strong(&[], &[], &[]),
        ],
        fails: &[Number(Order, 2), Is(&[Covered])],
    },
    Row {
        premises: &["hetyei_law: `neighbours`: connected; equal sides; surplus"],
        without: &["hetyei_law.neighbours: IsConnected"],
        graph: "two isolated vertices",
        given: TWO_ISOLATED,
        holds: &[
            Is(&[Loopless]),
            Number(Order, 2),
            Set(&[Side, Half, Surplus], &[1]),
        ],
        fails: &[Is(&[Connected, Covered])],
    },
    Row {
        premises: &["hetyei_law: `neighbours`: connected; equal sides; surplus"],
        without: &["hetyei_law.neighbours: count g.order a ≡ count g.order (complement a)"],
        graph: "the path with three vertices, where A is its middle vertex",
        given: PATH_OF_3,
        holds: &[
            Number(Order, 2),
            Set(&[Side, Surplus], &[2]),
            Is(&[Loopless, Connected]),
        ],
        fails: &[Set(&[Half], &[2]), Is(&[Covered])],
    },
    Row {
        premises: &["hetyei_law: `neighbours`: connected; equal sides; surplus"],
        without: &["hetyei_law.neighbours: HasSurplus"],
        graph: "the path with four vertices",
        given: PATH_OF_4,
        holds: &[
            Number(Order, 2),
            Set(&[Side, Half], &[1, 3]),
            Is(&[Loopless, Connected]),
        ],
        fails: &[Set(&[Surplus], &[1, 3]), Is(&[Covered])],
    },
];

static PAIRS: [Row; 4] = [
    Row {
        premises: &["hetyei_law: `neighbours`, `four_neighbours`: A is a side; no loop"],
        without: &[
            "hetyei_law.neighbours: IsSide",
            "hetyei_law.four_neighbours: IsSide",
        ],
        graph: "the diamond 12, 13, 23, 24, 34 with A = {1, 2}",
        given: DIAMOND,
        holds: &[
            Is(&[Loopless, Connected]),
            Number(Order, 2),
            Number(Order, 4),
            Set(&[Half, Surplus], &[1, 2]),
        ],
        fails: &[Set(&[Side], &[1, 2]), Is(&[Covered])],
    },
    Row {
        premises: &["hetyei_law: `neighbours`, `four_neighbours`: A is a side; no loop"],
        without: &[
            "hetyei_law.neighbours: IsMultigraph",
            "hetyei_law.four_neighbours: IsMultigraph",
        ],
        graph: "the path 1 2 3 4 with a loop at 1, A = {1, 3}",
        given: LOOPED_PATH,
        holds: &[
            Number(Order, 2),
            Number(Order, 4),
            Is(&[Connected]),
            Set(&[Side, Half, Surplus], &[1, 3]),
        ],
        fails: &[Is(&[Loopless, Covered])],
    },
    Row {
        premises: &["hetyei_law: `pairs`, `four_pairs`: A is a side"],
        without: &["hetyei_law.pairs: IsSide", "hetyei_law.four_pairs: IsSide"],
        graph: "the diamond with A = {1, 4}",
        given: DIAMOND,
        holds: &[
            Number(Order, 2),
            Number(Order, 4),
            Is(&[Loopless, Connected]),
            Set(&[Proper, PairsMatched], &[1, 4]),
        ],
        fails: &[Set(&[Side], &[1, 4]), Is(&[Covered])],
    },
    Row {
        premises: &["hetyei_law: `pairs`: connected"],
        without: &["hetyei_law.pairs: IsConnected"],
        graph: "two isolated vertices",
        given: TWO_ISOLATED,
        holds: &[
            Is(&[Loopless]),
            Number(Order, 2),
            Set(&[Side, PairsMatched], &[1]),
        ],
        fails: &[Is(&[Connected, Covered])],
    },
];

static FOURS: [Row; 3] = [
    Row {
        premises: &[
            "hetyei_law: `four_neighbours`: four vertices; equal sides",
            "hetyei_law: `four_pairs`: four vertices; both sides not empty",
        ],
        without: &[
            "hetyei_law.four_neighbours: 4 ≤ g.order",
            "hetyei_law.four_pairs: 4 ≤ g.order",
        ],
        graph: "two isolated vertices",
        given: TWO_ISOLATED,
        holds: &[
            Is(&[Loopless]),
            Set(&[Side, Half, Surplus, Proper, PairsMatched], &[1]),
        ],
        fails: &[Number(Order, 4), Is(&[Covered])],
    },
    Row {
        premises: &["hetyei_law: `four_neighbours`: four vertices; equal sides"],
        without: &["hetyei_law.four_neighbours: count g.order a ≡ count g.order (complement a)"],
        graph: "the star K1,3, where A is its centre",
        given: STAR_OF_3,
        holds: &[
            Is(&[Loopless]),
            Number(Order, 4),
            Set(&[Side, Surplus], &[1]),
        ],
        fails: &[Set(&[Half], &[1]), Is(&[Covered])],
    },
    Row {
        premises: &["hetyei_law: `four_pairs`: four vertices; both sides not empty"],
        without: &["hetyei_law.four_pairs: 1 ≤ count g.order a"],
        graph: "four isolated vertices, where A is empty",
        given: FOUR_ISOLATED,
        holds: &[
            Is(&[Loopless]),
            Number(Order, 4),
            Set(&[Side, PairsMatched], &[]),
        ],
        fails: &[Set(&[Proper], &[]), Is(&[Covered])],
    },
];

static EARS: [Row; 3] = [
    Row {
        premises: &["hetyei_law: `ears`: A is a side; no isolated vertices"],
        without: &["hetyei_law.ears: IsSide"],
        graph: "the diamond",
        given: DIAMOND,
        holds: &[Is(&[Loopless, Met]), Lead(Steps::Ears, &[1])],
        fails: &[Is(&[Bipartite, Covered])],
    },
    Row {
        premises: &["hetyei_law: `ears`: A is a side; no isolated vertices"],
        without: &["hetyei_law.ears: is_met"],
        graph: "an edge and an isolated vertex",
        given: EDGE_AND_VERTEX,
        holds: &[Is(&[Loopless]), Set(&[Side], &[1]), Lead(Steps::Ears, &[1])],
        fails: &[Is(&[Met, Covered])],
    },
    Row {
        premises: &["hetyei_law: `ears`: no loop"],
        without: &["hetyei_law.ears: IsMultigraph"],
        graph: "K2 with a loop",
        given: K2_WITH_LOOP,
        holds: &[Set(&[Side], &[1]), Is(&[Covered, Met])],
        fails: &[
            Is(&[Loopless]),
            Lead(Steps::Ears, &[1]),
            Lead(Steps::Ears, &[2]),
        ],
    },
];

static DIGRAPHS: [Row; 2] = [
    Row {
        premises: &["hetyei_law: `digraph`: A is a side"],
        without: &["hetyei_law.digraph: IsSide"],
        graph: "the diamond 12, 13, 23, 24, 34 with A = {1, 4} and M = {12, 34}",
        given: DIAMOND,
        holds: &[
            Is(&[Loopless]),
            Number(Order, 2),
            Edges(PerfectMatching, &[1, 5]),
            Strong(&[1, 4], &[1, 5], &[]),
        ],
        fails: &[Set(&[Side], &[1, 4]), Edges(Together, &[3]), Is(&[Covered])],
    },
    Row {
        premises: &["hetyei_law: `digraph`: M is perfect"],
        without: &["hetyei_law.digraph: IsPerfect"],
        graph: "K2 with the empty matching",
        given: K2,
        holds: &[
            Is(&[Loopless, Covered]),
            Number(Order, 2),
            Set(&[Side], &[1]),
            Edges(Matching, &[]),
        ],
        fails: &[Edges(PerfectMatching, &[]), Strong(&[1], &[], &[])],
    },
];

#[test]
fn premises_of_the_marriage_theorem(rt: HostRuntime) -> Result<(), Fail> {
    all_are_so(rt.alloc(), &MARRIAGE)
}

#[test]
fn premises_on_neighbours(rt: HostRuntime) -> Result<(), Fail> {
    all_are_so(rt.alloc(), &NEIGHBOURS)
}

#[test]
fn premises_on_pairs(rt: HostRuntime) -> Result<(), Fail> {
    all_are_so(rt.alloc(), &PAIRS)
}

#[test]
fn premises_on_fours(rt: HostRuntime) -> Result<(), Fail> {
    all_are_so(rt.alloc(), &FOURS)
}

#[test]
fn premises_on_ears_of_hetyei(rt: HostRuntime) -> Result<(), Fail> {
    all_are_so(rt.alloc(), &EARS)
}

#[test]
fn premises_on_the_digraph_of_a_matching(rt: HostRuntime) -> Result<(), Fail> {
    all_are_so(rt.alloc(), &DIGRAPHS)
}
