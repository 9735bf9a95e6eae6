//! Premises of the theorem on cubic graphs.

use super::claims::Claim::{CutSize, Ends, Is, Number, Set};
use super::claims::OfNumber::{Order, Regular, WideCuts};
use super::claims::OfSet::{Perfect, Side, Tight};
use super::claims::Property::{Composite, Connected, Covered, Loopless, TwoEdgeConnected};
use super::graphs::{BRIDGED, DOUBLED_HEXAGON, HEXAGON, K2, K23, TRIPLE_EDGES};
use super::rows::{Row, all_are_so};
use std::test::Fail;

static ROWS: [Row; 7] = [
    Row {
        premises: &["cubic_law: `covered`, `tight`: 2-edge-connected"],
        without: &[
            "cubic_law.covered: IsTwoEdgeConnected",
            "cubic_law.tight: IsTwoEdgeConnected",
        ],
        graph: "the cubic graph with the edges 12, 13, 23, 23, 45, 46, 56, 56, 14",
        given: BRIDGED,
        holds: &[
            Is(&[Loopless]),
            Number(Regular, 3),
            Number(Order, 2),
            Set(&[Tight], &[1, 2, 3]),
            CutSize(&[1, 2, 3], 1),
        ],
        fails: &[Is(&[TwoEdgeConnected, Covered])],
    },
    Row {
        premises: &["cubic_law: `covered`: cubic"],
        without: &["cubic_law.covered: IsCubic"],
        graph: "K2,3",
        given: K23,
        holds: &[Is(&[Loopless, TwoEdgeConnected]), Number(Order, 2)],
        fails: &[Number(Regular, 3), Set(&[Perfect], &[]), Is(&[Covered])],
    },
    Row {
        premises: &["cubic_law: `tight`: cubic"],
        without: &["cubic_law.tight: IsCubic"],
        graph: "the hexagon",
        given: HEXAGON,
        holds: &[
            Is(&[Loopless, TwoEdgeConnected]),
            Set(&[Tight], &[1, 2, 3]),
            CutSize(&[1, 2, 3], 2),
        ],
        fails: &[Number(Regular, 3), CutSize(&[1, 2, 3], 3)],
    },
    Row {
        premises: &["cubic_law: `essential`: six vertices; four edges"],
        without: &["cubic_law.essential: 6 ≤ g.order"],
        graph: "two disjoint triple edges",
        given: TRIPLE_EDGES,
        holds: &[Is(&[Loopless]), Number(Regular, 3), Number(WideCuts, 4)],
        fails: &[Number(Order, 6), Is(&[Covered])],
    },
    Row {
        premises: &["cubic_law: `essential`: six vertices; four edges"],
        without: &["cubic_law.essential: 4 ≤ cut_size g x"],
        graph: "the hexagon with every other edge doubled",
        given: DOUBLED_HEXAGON,
        holds: &[
            Is(&[Loopless, Composite]),
            Number(Regular, 3),
            Number(Order, 6),
        ],
        fails: &[Number(WideCuts, 4), Ends(1, 0), Ends(0, 1)],
    },
    Row {
        premises: &["cubic_law: `sides`: connected"],
        without: &["cubic_law.sides: IsConnected"],
        graph: "two disjoint triple edges",
        given: TRIPLE_EDGES,
        holds: &[Is(&[Loopless]), Number(Regular, 3), Set(&[Side], &[1, 3])],
        fails: &[Is(&[Connected, TwoEdgeConnected])],
    },
    Row {
        premises: &["cubic_law: `sides`: cubic"],
        without: &["cubic_law.sides: IsCubic"],
        graph: "K2",
        given: K2,
        holds: &[Is(&[Loopless, Connected]), Set(&[Side], &[1])],
        fails: &[Number(Regular, 3), Is(&[TwoEdgeConnected])],
    },
];

#[test]
fn premises_on_cubic_graphs(rt: HostRuntime) -> Result<(), Fail> {
    all_are_so(rt.alloc(), &ROWS)
}
