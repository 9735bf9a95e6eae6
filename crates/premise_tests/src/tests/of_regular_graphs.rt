//! Premises of the theorem on regular graphs.

use super::claims::Claim::{CutSize, Edges, Is, Number, Set};
use super::claims::OfEdges::Together;
use super::claims::OfNumber::{OddCut, Order, Regular, WideCuts, WideOddCuts};
use super::claims::OfSet::{Odd, Side, Tight};
use super::claims::Property::{
    Allowed, Bipartite, Composite, Connected, Covered, Loopless, TwoEdgeConnected,
};
use super::graphs::{
    BRIDGED, DISJOINT_K4, DOUBLED_HEXAGON, DOUBLED_STAR, EMPTY, FOUR_CYCLE, HEXAGON, K2_WITH_LOOPS,
    LADDER, PATH_OF_3, PRISM, SEVEN_ISOLATED, THREE_ISOLATED, TWO_K4,
};
use super::rows::{Row, all_are_so};
use std::test::Fail;

static COVERED: [Row; 6] = [
    Row {
        premises: &["regular_law: `allowed`, `covered`, `tight`: wide odd cuts"],
        without: &[
            "regular_law.allowed: HasWideOddCuts",
            "regular_law.covered: HasWideOddCuts",
            "regular_law.tight: HasWideOddCuts",
        ],
        graph: "the cubic graph with the edges 12, 13, 23, 23, 45, 46, 56, 56, 14",
        given: BRIDGED,
        holds: &[
            Is(&[Loopless, Connected]),
            Number(Regular, 3),
            Number(Order, 2),
            Set(&[Tight], &[1, 2, 3]),
            CutSize(&[1, 2, 3], 1),
        ],
        fails: &[
            Number(WideOddCuts, 3),
            Edges(Together, &[1]),
            Is(&[Allowed, Covered]),
        ],
    },
    Row {
        premises: &["regular_law: `allowed`, `covered`: regular"],
        without: &[
            "regular_law.allowed: IsRegular",
            "regular_law.covered: IsRegular",
        ],
        graph: "the star K1,3 with doubled edges, r = 2",
        given: DOUBLED_STAR,
        holds: &[
            Is(&[Loopless, Connected]),
            Number(WideOddCuts, 2),
            Number(Order, 2),
        ],
        fails: &[Number(Regular, 2), Is(&[Allowed, Covered])],
    },
    Row {
        premises: &["regular_law: `covered`: connected; two vertices"],
        without: &["regular_law.covered: IsConnected"],
        graph: "two disjoint copies of K4",
        given: DISJOINT_K4,
        holds: &[
            Is(&[Loopless, Allowed]),
            Number(Regular, 3),
            Number(WideOddCuts, 3),
            Number(Order, 2),
        ],
        fails: &[Is(&[Connected, Covered])],
    },
    Row {
        premises: &[
            "regular_law: `covered`: connected; two vertices",
            "cubic_law: `covered`: two vertices",
        ],
        without: &[
            "regular_law.covered: 2 ≤ g.order",
            "cubic_law.covered: 2 ≤ g.order",
        ],
        graph: "the empty graph",
        given: EMPTY,
        holds: &[
            Is(&[Loopless, Connected, TwoEdgeConnected]),
            Number(Regular, 3),
            Number(WideOddCuts, 3),
        ],
        fails: &[Number(Order, 2), Is(&[Covered])],
    },
    Row {
        premises: &[
            "regular_law: `tight`, `wide`: regular",
            "cubic_law: `wide`, `essential`: cubic",
        ],
        without: &[
            "regular_law.tight: IsRegular",
            "regular_law.wide: IsRegular",
            "cubic_law.wide: IsCubic",
            "cubic_law.essential: IsCubic",
        ],
        graph: "two copies of K4 sharing an edge",
        given: TWO_K4,
        holds: &[
            Is(&[Loopless, Composite]),
            Number(WideOddCuts, 3),
            Number(WideCuts, 4),
            Set(&[Tight], &[1, 3, 4]),
            CutSize(&[1, 3, 4], 5),
            Set(&[Tight], &[2, 3, 4]),
            CutSize(&[2, 3, 4], 5),
            Number(Order, 6),
            Number(WideCuts, 5),
        ],
        fails: &[Number(Regular, 3)],
    },
    Row {
        premises: &[
            "regular_law: `wide`: more than r",
            "cubic_law: `wide`: four edges",
        ],
        without: &[
            "regular_law.wide: r + 1 ≤ cut_size g x",
            "cubic_law.wide: 4 ≤ cut_size g x",
        ],
        graph: "the hexagon with every other edge doubled",
        given: DOUBLED_HEXAGON,
        holds: &[
            Is(&[Loopless, Composite]),
            Number(Regular, 3),
            Number(WideCuts, 3),
            Set(&[Tight], &[1, 2, 3]),
            CutSize(&[1, 2, 3], 3),
        ],
        fails: &[Number(WideCuts, 4)],
    },
];

static SIDES: [Row; 3] = [
    Row {
        premises: &[
            "regular_law: `bipartite`: bipartite; regular; no loop",
            "cubic_law: `sides`: bipartite",
        ],
        without: &["regular_law.bipartite: IsSide", "cubic_law.sides: IsSide"],
        graph: "the cubic graph",
        given: BRIDGED,
        holds: &[Is(&[Loopless, Connected]), Number(Regular, 3)],
        fails: &[Is(&[Bipartite, TwoEdgeConnected]), Number(WideOddCuts, 3)],
    },
    Row {
        premises: &["regular_law: `bipartite`: bipartite; regular; no loop"],
        without: &["regular_law.bipartite: IsRegular"],
        graph: "the path with three vertices, r = 2",
        given: PATH_OF_3,
        holds: &[Is(&[Loopless]), Set(&[Side], &[2])],
        fails: &[Number(Regular, 2), Number(WideOddCuts, 2)],
    },
    Row {
        premises: &[
            "regular_law: `bipartite`: bipartite; regular; no loop",
            "cubic_law: `sides`: no loop",
        ],
        without: &[
            "regular_law.bipartite: IsMultigraph",
            "cubic_law.sides: IsMultigraph",
        ],
        graph: "K2 with a loop at each vertex",
        given: K2_WITH_LOOPS,
        holds: &[Set(&[Side], &[1]), Number(Regular, 3), Is(&[Connected])],
        fails: &[Is(&[Loopless, TwoEdgeConnected]), Number(WideOddCuts, 3)],
    },
];

static NARROW: [Row; 4] = [
    Row {
        premises: &[
            "regular_law: `narrow`: bipartite; regular; odd; r ≥ 1",
            "cubic_law: `narrow`: bipartite",
        ],
        without: &["regular_law.narrow: IsSide", "cubic_law.narrow: IsSide"],
        graph: "the prism",
        given: PRISM,
        holds: &[
            Is(&[Loopless]),
            Number(Regular, 3),
            Set(&[Odd], &[1, 2, 3]),
            CutSize(&[1, 2, 3], 3),
        ],
        fails: &[Is(&[Bipartite]), Set(&[Tight], &[1, 2, 3])],
    },
    Row {
        premises: &[
            "regular_law: `narrow`: bipartite; regular; odd; r ≥ 1",
            "cubic_law: `narrow`: cubic",
        ],
        without: &["regular_law.narrow: IsRegular", "cubic_law.narrow: IsCubic"],
        graph: "the ladder with three rungs",
        given: LADDER,
        holds: &[
            Is(&[Loopless]),
            Set(&[Side], &[1, 3, 5]),
            Set(&[Odd], &[1, 2, 3]),
            CutSize(&[1, 2, 3], 3),
        ],
        fails: &[Number(Regular, 3), Set(&[Tight], &[1, 2, 3])],
    },
    Row {
        premises: &["regular_law: `narrow`: bipartite; regular; odd; r ≥ 1"],
        without: &["regular_law.narrow: is_odd (count g.order x) ≡ true"],
        graph: "the 4-cycle with {1, 2}",
        given: FOUR_CYCLE,
        holds: &[
            Is(&[Loopless]),
            Set(&[Side], &[1, 3]),
            Number(Regular, 2),
            CutSize(&[1, 2], 2),
        ],
        fails: &[Set(&[Odd, Tight], &[1, 2])],
    },
    // here r = 0, and the premise is that there are edges at a vertex
    Row {
        premises: &["regular_law: `narrow`: bipartite; regular; odd; r ≥ 1"],
        without: &["regular_law.narrow: 1 ≤ r"],
        graph: "three isolated vertices",
        given: THREE_ISOLATED,
        holds: &[
            Is(&[Loopless]),
            Set(&[Side], &[]),
            Number(Regular, 0),
            Set(&[Odd], &[1]),
            CutSize(&[1], 0),
        ],
        fails: &[Number(Regular, 1), Set(&[Tight], &[1])],
    },
];

static BRACES: [Row; 4] = [
    Row {
        premises: &[
            "regular_law: `brace`: bipartite; regular; r ≥ 1",
            "cubic_law: `brace`: bipartite",
        ],
        without: &["regular_law.brace: IsSide", "cubic_law.brace: IsSide"],
        graph: "the prism",
        given: PRISM,
        holds: &[Is(&[Loopless]), Number(Regular, 3), Number(OddCut, 3)],
        fails: &[Is(&[Bipartite, Composite])],
    },
    // by parity a nontrivial cut of three edges would be that of an odd set in a cubic graph; the
    // hexagon has cuts of even size alone
    Row {
        premises: &[
            "regular_law: `brace`: bipartite; regular; r ≥ 1",
            "cubic_law: `brace`: cubic",
        ],
        without: &["regular_law.brace: IsRegular", "cubic_law.brace: IsCubic"],
        graph: "the hexagon",
        given: HEXAGON,
        holds: &[Is(&[Loopless, Composite]), Set(&[Side], &[1, 3, 5])],
        fails: &[Number(Regular, 3), Number(OddCut, 3)],
    },
    Row {
        premises: &["regular_law: `brace`: bipartite; regular; r ≥ 1"],
        without: &["regular_law.brace: 1 ≤ r"],
        graph: "seven isolated vertices",
        given: SEVEN_ISOLATED,
        holds: &[
            Is(&[Loopless]),
            Set(&[Side], &[]),
            Number(Regular, 0),
            Number(OddCut, 0),
        ],
        fails: &[Number(Regular, 1), Is(&[Composite])],
    },
    Row {
        premises: &["regular_law: `cubic`: cubic"],
        without: &["regular_law.cubic: IsCubic"],
        graph: "the hexagon",
        given: HEXAGON,
        holds: &[Is(&[Loopless, TwoEdgeConnected, Connected])],
        fails: &[Number(Regular, 3), Number(WideOddCuts, 3)],
    },
];

#[test]
fn premises_on_covered_regular_graphs(rt: HostRuntime) -> Result<(), Fail> {
    all_are_so(rt.alloc(), &COVERED)
}

#[test]
fn premises_on_sides_of_regular_graphs(rt: HostRuntime) -> Result<(), Fail> {
    all_are_so(rt.alloc(), &SIDES)
}

#[test]
fn premises_on_narrow_cuts_of_regular_graphs(rt: HostRuntime) -> Result<(), Fail> {
    all_are_so(rt.alloc(), &NARROW)
}

#[test]
fn premises_on_regular_braces(rt: HostRuntime) -> Result<(), Fail> {
    all_are_so(rt.alloc(), &BRACES)
}
