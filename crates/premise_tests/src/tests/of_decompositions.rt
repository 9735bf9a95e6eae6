//! Premises of the theorems on tight cuts and tight cut decompositions.

use super::claims::Claim::{Ends, Is, Joined, Laminar, Number, Place, Set, Sets};
use super::claims::OfNumber::Order;
use super::claims::OfSet::{Additive, Nontrivial, Odd, Tight};
use super::claims::Property::{Bipartite, Composite, Covered, Decomposed, FewLeaves, Loopless};
use super::graphs::{HEXAGON, K2, K2_WITH_LOOP, PATH_OF_4, PATH_OF_6, PRISM, THREE_ISOLATED};
use super::rows::{Row, all_are_so};
use std::test::Fail;

static CUTS: [Row; 4] = [
    Row {
        premises: &["uncrossing_law: an odd intersection"],
        without: &["uncrossing_law.tight: is_odd (count g.order (meet x y)) ≡ true"],
        graph: "the hexagon 1 2 3 4 5 6 with the tight shores {1, 2, 3} and {2, 3, 4}",
        given: HEXAGON,
        holds: &[Is(&[Covered]), Sets(&[Tight], &[&[1, 2, 3], &[2, 3, 4]])],
        fails: &[Set(&[Odd, Tight], &[2, 3]), Set(&[Tight], &[1, 2, 3, 4])],
    },
    // the sentence is that nothing joins {2, 6} and {3, 4}, the differences
    Row {
        premises: &["uncrossing_law: `edges`: matching covered"],
        without: &["uncrossing_law.edges: IsCovered"],
        graph: "the path 1 2 3 4 5 6 with the tight shores {1, 2, 6} and {1, 3, 4}",
        given: PATH_OF_6,
        holds: &[
            Sets(&[Tight], &[&[1, 2, 6], &[1, 3, 4]]),
            Set(&[Odd], &[1]),
            Joined(&[2, 6], &[3, 4]),
        ],
        fails: &[Is(&[Covered])],
    },
    Row {
        premises: &["laminar_law: `family`: matching covered"],
        without: &["laminar_law.family: IsCovered"],
        graph: "three isolated vertices",
        given: THREE_ISOLATED,
        holds: &[Laminar(&[])],
        fails: &[Is(&[Covered, Decomposed])],
    },
    // the cut that is not in the family crosses the one that is: no family has both
    Row {
        premises: &["laminar_law: `first`: the cut is in the family"],
        without: &["laminar_law.first: IsIn y f"],
        graph: "the hexagon with the family of one of its nontrivial tight cuts",
        given: HEXAGON,
        holds: &[
            Is(&[Covered]),
            Laminar(&[&[1, 2, 3]]),
            Laminar(&[&[2, 3, 4]]),
        ],
        fails: &[Laminar(&[&[1, 2, 3], &[2, 3, 4]])],
    },
];

static TREES: [Row; 4] = [
    // the tree with no cuts is a derivation only of a graph without nontrivial tight cuts
    Row {
        premises: &["uniqueness_law: both are derivations"],
        without: &[
            "uniqueness_law.leaves: IsDerivation",
            "uniqueness_law.quotients: IsDerivation",
            "uniqueness_law.numbers: IsDerivation",
            "uniqueness_law.tests: IsDerivation",
            "uniqueness_law.orders: IsDerivation",
            "uniqueness_law.braces: IsDerivation",
        ],
        graph: "the hexagon",
        given: HEXAGON,
        holds: &[Is(&[Covered, Composite]), Ends(0, 2)],
        fails: &[Ends(0, 1)],
    },
    // no set of a graph with four vertices is nontrivial, so the partition is a leaf
    Row {
        premises: &[
            "derivation_exists_law: matching covered",
            "brick_number_law: matching covered",
            "brick_number_law: `partitions`: a matching covered quotient",
        ],
        without: &[
            "derivation_exists_law.some: IsCovered",
            "derivation_exists_law.picked: IsCovered",
            "derivation_exists_law.named: IsCovered",
            "derivation_exists_law.script: IsCovered",
            "brick_number_law.one: IsCovered",
            "brick_number_law.partitions: IsCovered",
        ],
        graph: "the path with four vertices",
        given: PATH_OF_4,
        holds: &[Is(&[Bipartite])],
        fails: &[Is(&[Covered, Decomposed, Composite])],
    },
    // the list has three places, 0 to 2, and none at its length
    Row {
        premises: &[
            "derivation_exists_law: the rule returns a position in the list, counted from 0",
        ],
        without: &["derivation_exists_law.picked: ChoosesPlaces"],
        graph: "the hexagon",
        given: HEXAGON,
        holds: &[Is(&[Covered, Composite]), Place(0), Place(2)],
        fails: &[Place(3)],
    },
    Row {
        premises: &["derivation_exists_law: `first`: the cut is tight"],
        without: &["derivation_exists_law.first: IsTightShore"],
        graph: "the cut of a triangle of the prism",
        given: PRISM,
        holds: &[
            Is(&[Covered]),
            Sets(&[Nontrivial, Odd], &[&[1, 2, 3], &[4, 5, 6]]),
            Ends(1, 0),
        ],
        fails: &[Set(&[Tight], &[1, 2, 3]), Is(&[Composite])],
    },
];

static NUMBERS: [Row; 4] = [
    Row {
        premises: &["brick_number_law: `bipartite`: no loop"],
        without: &["brick_number_law.bipartite: IsMultigraph"],
        graph: "K2 with a loop",
        given: K2_WITH_LOOP,
        holds: &[Is(&[Covered]), Ends(0, 1)],
        fails: &[Is(&[Loopless, Bipartite])],
    },
    Row {
        premises: &["brick_number_law: `few`: four vertices"],
        without: &["brick_number_law.few: 4 ≤ g.order"],
        graph: "K2",
        given: K2,
        holds: &[Is(&[Covered]), Ends(0, 1)],
        fails: &[Number(Order, 4), Is(&[FewLeaves])],
    },
    Row {
        premises: &["brick_number_law: `additive`: tight"],
        without: &["brick_number_law.additive: IsTightShore"],
        graph: "the prism",
        given: PRISM,
        holds: &[Set(&[Nontrivial], &[1, 2, 3]), Ends(1, 0), Is(&[FewLeaves])],
        fails: &[Set(&[Tight, Additive], &[1, 2, 3])],
    },
    Row {
        premises: &["brick_number_law: `additive`: nontrivial"],
        without: &["brick_number_law.additive: IsTightShore"],
        graph: "the hexagon",
        given: HEXAGON,
        holds: &[
            Set(&[Tight], &[1]),
            Ends(0, 2),
            Set(&[Additive], &[1, 2, 3]),
        ],
        fails: &[Set(&[Nontrivial, Additive], &[1])],
    },
];

#[test]
fn premises_on_tight_cuts(rt: HostRuntime) -> Result<(), Fail> {
    all_are_so(rt.alloc(), &CUTS)
}

#[test]
fn premises_on_decompositions(rt: HostRuntime) -> Result<(), Fail> {
    all_are_so(rt.alloc(), &TREES)
}

#[test]
fn premises_on_brick_numbers(rt: HostRuntime) -> Result<(), Fail> {
    all_are_so(rt.alloc(), &NUMBERS)
}
