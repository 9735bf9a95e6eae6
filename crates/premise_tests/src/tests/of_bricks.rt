//! Premises of the theorem of Edmonds, Lovász and Pulleyblank, and of that on 2-extendable graphs.

use super::claims::Claim::{Is, Number, Set, Sets};
use super::claims::OfNumber::Order;
use super::claims::OfSet::{
    Alone, ElpCut, ElpCutBeside, LeftByBarrier, Nontrivial, Perfect, ReasonInside, Side, Tight,
};
use super::claims::Property::{
    BarrierCut, Bicritical, Bipartite, Composite, Connected, Covered, Loopless, Nonbipartite,
    SeparationCut, ThreeConnected, TwoExtendable, Unseparated,
};
use super::graphs::{
    K2, K2_WITH_LOOP, K4, K24, K33, SHORE_NO_PART, STAR_OF_5, THREE_ISOLATED, TWO_K4,
};
use super::rows::{Row, all_are_so};
use std::test::Fail;

static CUTS: [Row; 2] = [
    Row {
        premises: &[
            "elp_law: `cut`: matching covered",
            "elp_law: `bipartite`: matching covered",
        ],
        without: &["elp_law.cut: IsCovered", "elp_law.bipartite: IsCovered"],
        graph: "the star K1,5",
        given: STAR_OF_5,
        holds: &[
            Is(&[Loopless]),
            Sets(&[Tight, Nontrivial], &[&[1, 2, 3], &[2, 3, 4]]),
            Set(&[Side], &[1]),
        ],
        fails: &[
            Is(&[Covered, BarrierCut, SeparationCut]),
            Set(&[Perfect], &[]),
            Set(&[LeftByBarrier], &[1, 2, 3]),
        ],
    },
    Row {
        premises: &["elp_law: `bipartite`: the graph is bipartite"],
        without: &["elp_law.bipartite: IsSide"],
        graph: "two copies of K4 sharing an edge",
        given: TWO_K4,
        holds: &[Is(&[Covered]), Sets(&[Tight], &[&[1, 3, 4], &[2, 3, 4]])],
        fails: &[
            Is(&[Bipartite, BarrierCut]),
            Sets(&[LeftByBarrier], &[&[1, 3, 4], &[2, 3, 4]]),
        ],
    },
];

static CUTS_BESIDE: [Row; 5] = [
    Row {
        premises: &["elp_law: `beside`, `alone`: matching covered"],
        without: &["elp_law.beside: IsCovered", "elp_law.alone: IsCovered"],
        graph: "the star K1,5",
        given: STAR_OF_5,
        holds: &[Set(&[Tight, Nontrivial, Alone], &[1, 2, 3])],
        fails: &[
            Is(&[Covered]),
            Set(&[Perfect], &[]),
            Set(&[ElpCutBeside, ElpCut], &[1, 2, 3]),
        ],
    },
    Row {
        premises: &["elp_law: `inside`: matching covered"],
        without: &["elp_law.inside: IsCovered"],
        graph: "the complete bipartite graph K2,4",
        given: K24,
        holds: &[Set(&[Tight, Nontrivial], &[1, 3, 4])],
        fails: &[
            Is(&[Covered]),
            Set(&[Perfect], &[]),
            Set(&[ReasonInside], &[1, 3, 4]),
        ],
    },
    Row {
        premises: &["elp_law: `beside`, `inside`, `alone`: tight"],
        without: &[
            "elp_law.beside: IsTight",
            "elp_law.inside: IsTight",
            "elp_law.alone: IsTight",
        ],
        graph: "two copies of K4 sharing an edge",
        given: TWO_K4,
        holds: &[
            Is(&[Covered, Bicritical]),
            Set(&[Nontrivial, Alone], &[1, 3, 5]),
        ],
        fails: &[Set(&[Tight, ElpCutBeside, ReasonInside, ElpCut], &[1, 3, 5])],
    },
    Row {
        premises: &["elp_law: `beside`, `inside`, `alone`: nontrivial"],
        without: &[
            "elp_law.beside: IsNontrivial",
            "elp_law.inside: IsNontrivial",
            "elp_law.alone: IsNontrivial",
        ],
        graph: "K4",
        given: K4,
        holds: &[Is(&[Covered, Bicritical]), Set(&[Tight, Alone], &[1])],
        fails: &[Set(&[Nontrivial, ElpCutBeside, ReasonInside, ElpCut], &[1])],
    },
    Row {
        premises: &["elp_law: `alone`: no other cut beside it"],
        without: &["elp_law.alone: Cross"],
        graph: "the bicritical graph with the edges 13, 14, 15, 17, 23, 24, 25, 26, 28, 34, 57, 67, 68 and 78",
        given: SHORE_NO_PART,
        holds: &[
            Is(&[Covered, Bicritical]),
            Set(&[Tight, Nontrivial, ElpCutBeside], &[1, 5, 7]),
        ],
        fails: &[Set(&[Alone, ElpCut], &[1, 5, 7])],
    },
];

static BRICKS: [Row; 6] = [
    Row {
        premises: &["elp_law: `brick`: four vertices"],
        without: &["elp_law.brick: 4 ≤ g.order"],
        graph: "K2",
        given: K2,
        holds: &[Is(&[Loopless, Bicritical, Unseparated, Bipartite])],
        fails: &[Number(Order, 4)],
    },
    Row {
        premises: &["elp_law: `brick`: bicritical"],
        without: &["elp_law.brick: IsBicritical"],
        graph: "K3,3",
        given: K33,
        holds: &[Is(&[Loopless, Unseparated, Bipartite]), Number(Order, 4)],
        fails: &[Is(&[Bicritical])],
    },
    Row {
        premises: &["elp_law: `brick`: no cut pair"],
        without: &["elp_law.brick: ¬ (IsCutPair g u v)"],
        graph: "two copies of K4 sharing an edge",
        given: TWO_K4,
        holds: &[Is(&[Loopless, Bicritical, Composite]), Number(Order, 4)],
        fails: &[Is(&[Unseparated, ThreeConnected])],
    },
    Row {
        premises: &["elp_law: `brick`, `three_connected`: no loop"],
        without: &[
            "elp_law.brick: IsMultigraph",
            "elp_law.three_connected: IsMultigraph",
        ],
        graph: "K2 with a loop",
        given: K2_WITH_LOOP,
        holds: &[Is(&[Covered])],
        fails: &[
            Is(&[Loopless, Composite, Bipartite, ThreeConnected]),
            Number(Order, 4),
        ],
    },
    Row {
        premises: &["elp_law: `connected`: four vertices"],
        without: &["elp_law.connected: 4 ≤ g.order"],
        graph: "three isolated vertices",
        given: THREE_ISOLATED,
        holds: &[Is(&[Unseparated])],
        fails: &[Number(Order, 4), Is(&[ThreeConnected])],
    },
    Row {
        premises: &["extendable_law: `brick`: not bipartite"],
        without: &["extendable_law.brick: ¬ (IsBipartite g)"],
        graph: "K3,3",
        given: K33,
        holds: &[
            Is(&[Loopless, Connected, TwoExtendable]),
            Number(Order, 6),
            Set(&[Perfect], &[]),
        ],
        fails: &[Is(&[Nonbipartite, Bicritical])],
    },
];

#[test]
fn premises_on_barrier_cuts_and_separations(rt: HostRuntime) -> Result<(), Fail> {
    all_are_so(rt.alloc(), &CUTS)
}

#[test]
fn premises_on_cuts_that_do_not_cross(rt: HostRuntime) -> Result<(), Fail> {
    all_are_so(rt.alloc(), &CUTS_BESIDE)
}

#[test]
fn premises_on_bricks(rt: HostRuntime) -> Result<(), Fail> {
    all_are_so(rt.alloc(), &BRICKS)
}
