//! Premises of the theorems on braces.

use super::claims::Claim::{Edges, Is, Number, Parted, Set, Strong, StrongEach};
use super::claims::OfEdges::{PerfectMatching, Together};
use super::claims::OfNumber::Order;
use super::claims::OfSet::{FoursMatched, Nontrivial, Perfect, Side, Tight, WideSurplus};
use super::claims::Property::{
    Bipartite, Composite, Connected, Covered, Loopless, ThreeConnected, TwoExtendable,
};
use super::graphs::{
    HEXAGON, K33, K33_WITH_LOOP, LOOPED_HEXAGON, PATH_OF_4, PRISM, STAR_OF_5, THREE_EDGES, TWO_K4,
};
use super::rows::{Row, all_are_so};
use std::test::Fail;

static BRACES: [Row; 5] = [
    Row {
        premises: &["braces_law: matching covered"],
        without: &[
            "braces_law.fours: IsCovered",
            "braces_law.neighbourhoods: IsCovered",
            "braces_law.two_edges: IsCovered",
        ],
        graph: "the star K1,5, where A is its centre",
        given: STAR_OF_5,
        holds: &[
            Is(&[Loopless, TwoExtendable, Composite]),
            Set(&[Side, FoursMatched, WideSurplus], &[1]),
            Set(&[Tight], &[2, 3, 4]),
        ],
        fails: &[Is(&[Covered])],
    },
    Row {
        premises: &["braces_law: `fours`, `neighbourhoods`: A is a side"],
        without: &[
            "braces_law.fours: IsSide",
            "braces_law.neighbourhoods: IsSide",
        ],
        graph: "two copies of K4 sharing an edge, where A is empty",
        given: TWO_K4,
        holds: &[
            Is(&[Loopless, Covered, Composite]),
            Set(&[FoursMatched, WideSurplus], &[]),
        ],
        fails: &[Set(&[Side], &[])],
    },
    // 12 and 56 are in different triangles and do not face each other
    Row {
        premises: &["braces_law: `two_edges`: bipartite"],
        without: &["braces_law.two_edges: IsSide"],
        graph: "the prism",
        given: PRISM,
        holds: &[Is(&[Loopless, Covered])],
        fails: &[
            Is(&[Bipartite, Composite, TwoExtendable]),
            Edges(Together, &[1, 6]),
        ],
    },
    Row {
        premises: &["braces_law: `neighbourhoods`: no loop"],
        without: &["braces_law.neighbourhoods: IsMultigraph"],
        graph: "the hexagon with loops at 1, 3 and 5",
        given: LOOPED_HEXAGON,
        holds: &[
            Is(&[Covered, Composite]),
            Set(&[Side, WideSurplus], &[1, 3, 5]),
            Set(&[Tight], &[1, 2, 3]),
        ],
        fails: &[Is(&[Loopless])],
    },
    Row {
        premises: &["braces_law: `two_edges`, `connected`: no loop"],
        without: &[
            "braces_law.two_edges: IsMultigraph",
            "braces_law.connected: IsMultigraph",
        ],
        graph: "K3,3 with a loop",
        given: K33_WITH_LOOP,
        holds: &[Is(&[Covered]), Set(&[Side], &[1, 2, 3]), Number(Order, 6)],
        fails: &[
            Is(&[Loopless, Composite, TwoExtendable]),
            Edges(Together, &[10]),
        ],
    },
];

static CONNECTED: [Row; 4] = [
    Row {
        premises: &[
            "braces_law: `connected`: six vertices",
            "extendable_law: six vertices",
        ],
        without: &[
            "braces_law.connected: 6 ≤ g.order",
            "extendable_law.uncut: 6 ≤ g.order",
            "extendable_law.kinds: 6 ≤ g.order",
            "extendable_law.connected: 6 ≤ g.order",
        ],
        graph: "the path with four vertices",
        given: PATH_OF_4,
        holds: &[
            Is(&[Loopless, Connected, TwoExtendable]),
            Set(&[Side], &[1, 3]),
            Set(&[Perfect], &[]),
        ],
        fails: &[
            Number(Order, 6),
            Edges(Together, &[2]),
            Is(&[Covered, ThreeConnected]),
        ],
    },
    Row {
        premises: &[
            "braces_law: `connected`: the three conditions",
            "extendable_law: connected",
        ],
        without: &[
            "braces_law.connected: IsConnected",
            "extendable_law.uncut: IsConnected",
            "extendable_law.kinds: IsConnected",
            "extendable_law.connected: IsConnected",
        ],
        graph: "three disjoint edges",
        given: THREE_EDGES,
        holds: &[
            Set(&[Side], &[1, 3, 5]),
            Number(Order, 6),
            Set(&[Perfect], &[]),
            Is(&[Loopless, TwoExtendable]),
        ],
        fails: &[Is(&[Connected, Covered, ThreeConnected])],
    },
    Row {
        premises: &[
            "braces_law: `connected`: the three conditions",
            "extendable_law: a perfect matching",
        ],
        without: &[
            "braces_law.connected: HasPerfect",
            "extendable_law.uncut: HasPerfect",
            "extendable_law.kinds: HasPerfect",
            "extendable_law.connected: HasPerfect",
        ],
        graph: "the star K1,5",
        given: STAR_OF_5,
        holds: &[
            Set(&[Side], &[1]),
            Number(Order, 6),
            Is(&[Loopless, Connected, TwoExtendable]),
        ],
        fails: &[Set(&[Perfect], &[]), Is(&[Covered, ThreeConnected])],
    },
    Row {
        premises: &[
            "braces_law: `connected`: the three conditions",
            "extendable_law: 2-extendable",
        ],
        without: &[
            "braces_law.connected: IsTwoExtendable",
            "extendable_law.uncut: IsTwoExtendable",
            "extendable_law.kinds: IsTwoExtendable",
            "extendable_law.connected: IsTwoExtendable",
        ],
        graph: "the hexagon",
        given: HEXAGON,
        holds: &[
            Set(&[Side], &[1, 3, 5]),
            Number(Order, 6),
            Is(&[Loopless, Connected, Composite]),
            Set(&[Perfect], &[]),
        ],
        fails: &[Is(&[TwoExtendable, ThreeConnected])],
    },
];

static DIGRAPHS: [Row; 2] = [
    // the edges 2, 5 and 11 are 13, 24 and 56
    Row {
        premises: &["strong_digraph_law: A is a side"],
        without: &[
            "strong_digraph_law.mates: IsSide",
            "strong_digraph_law.brace: IsSide",
        ],
        graph: "two copies of K4 sharing the edge 12, with A = {1}, M = {13, 24, 56} and the edge 13",
        given: TWO_K4,
        holds: &[
            Is(&[Covered]),
            Edges(PerfectMatching, &[2, 5, 11]),
            Strong(&[1], &[2, 5, 11], &[1, 3]),
            Set(&[Tight, Nontrivial], &[1, 5, 6]),
            Parted(1, 3),
        ],
        fails: &[Set(&[Side], &[1])],
    },
    Row {
        premises: &["strong_digraph_law: M is perfect"],
        without: &[
            "strong_digraph_law.mates: IsPerfect",
            "strong_digraph_law.brace: IsPerfect",
        ],
        graph: "K3,3, where M has one edge",
        given: K33,
        holds: &[Is(&[Covered]), Set(&[Side], &[1, 2, 3])],
        fails: &[
            Edges(PerfectMatching, &[1]),
            Is(&[Composite]),
            StrongEach(&[1, 2, 3], &[1]),
        ],
    },
];

#[test]
fn premises_on_braces(rt: HostRuntime) -> Result<(), Fail> {
    all_are_so(rt.alloc(), &BRACES)
}

#[test]
fn premises_on_connected_braces(rt: HostRuntime) -> Result<(), Fail> {
    all_are_so(rt.alloc(), &CONNECTED)
}

#[test]
fn premises_on_digraphs(rt: HostRuntime) -> Result<(), Fail> {
    all_are_so(rt.alloc(), &DIGRAPHS)
}
