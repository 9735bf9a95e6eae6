//! Premises on the cuts of barriers and of 2-separations.

use super::claims::Claim::{Few, Is, Parts, Set};
use super::claims::OfSet::{Barrier, EvenParts, LeftByBarrier, Nontrivial, Perfect, Proper, Tight};
use super::claims::Property::Covered;
use super::graphs::{HEXAGON, K2, PATH_OF_4, STAR_AND_EDGE, TWO_K4};
use super::rows::{Row, all_are_so};
use std::test::Fail;

static BARRIERS: [Row; 2] = [
    Row {
        premises: &["elp_cuts_law: `barrier`: matching covered"],
        without: &["elp_cuts_law.barrier: IsCovered"],
        graph: "the path 1 2 3 4 with the barrier {2}, which leaves {3, 4}",
        given: PATH_OF_4,
        holds: &[
            Set(&[Barrier, Proper], &[2]),
            Set(&[LeftByBarrier], &[3, 4]),
            Parts(&[2], 2),
        ],
        fails: &[Is(&[Covered]), Set(&[Tight], &[3, 4])],
    },
    // the one component is the graph
    Row {
        premises: &["elp_cuts_law: `barrier`: B is not empty"],
        without: &["elp_cuts_law.barrier: s a ≡ true"],
        graph: "K2, which is left by the empty barrier",
        given: K2,
        holds: &[Is(&[Covered]), Set(&[Barrier], &[]), Parts(&[], 1)],
        fails: &[Set(&[Proper], &[]), Set(&[Tight], &[1, 2])],
    },
];

static PAIRS: [Row; 4] = [
    Row {
        premises: &["elp_cuts_law: `pair`, `either`: matching covered"],
        without: &[
            "elp_cuts_law.pair: IsCovered",
            "elp_cuts_law.either: IsCovered",
        ],
        graph: "the star K1,3, an edge, and two isolated vertices u and v",
        given: STAR_AND_EDGE,
        holds: &[Parts(&[7, 8], 2), Set(&[EvenParts], &[7, 8])],
        fails: &[Is(&[Covered]), Set(&[Perfect, Barrier], &[7, 8])],
    },
    Row {
        premises: &["elp_cuts_law: `separation`: a perfect matching is left"],
        without: &["elp_cuts_law.separation: HasPerfect"],
        graph: "the hexagon 1 2 3 4 5 6 with u = 1 and v = 3, which leave {2}",
        given: HEXAGON,
        holds: &[Parts(&[1, 3], 2), Set(&[Proper], &[2]), Few(&[2], 4)],
        fails: &[Set(&[Perfect], &[1, 3]), Set(&[Tight], &[1, 2])],
    },
    Row {
        premises: &["elp_cuts_law: `separation`: some components; not all"],
        without: &["elp_cuts_law.separation: 1 ≤ count g.order m"],
        graph: "two copies of K4 sharing an edge uv without any component",
        given: TWO_K4,
        holds: &[Parts(&[1, 2], 2), Set(&[Perfect], &[1, 2]), Few(&[], 4)],
        fails: &[Set(&[Proper], &[]), Set(&[Nontrivial], &[1])],
    },
    Row {
        premises: &["elp_cuts_law: `separation`: some components; not all"],
        without: &["elp_cuts_law.separation: count g.order m + 3 ≤ g.order"],
        graph: "two copies of K4 sharing an edge uv with both components",
        given: TWO_K4,
        holds: &[
            Parts(&[1, 2], 2),
            Set(&[Perfect], &[1, 2]),
            Set(&[Proper], &[3, 4, 5, 6]),
            Set(&[Tight, Nontrivial], &[1, 3, 4]),
        ],
        fails: &[Few(&[3, 4, 5, 6], 4), Set(&[Nontrivial], &[1, 3, 4, 5, 6])],
    },
];

#[test]
fn premises_on_components_of_barriers(rt: HostRuntime) -> Result<(), Fail> {
    all_are_so(rt.alloc(), &BARRIERS)
}

#[test]
fn premises_on_cut_pairs(rt: HostRuntime) -> Result<(), Fail> {
    all_are_so(rt.alloc(), &PAIRS)
}
