//! Premises of Plesník's theorem on regular graphs after some edges are deleted.

use super::claims::Claim::{Avoided, Few, Is, Number};
use super::claims::OfNumber::{EdgeConnected, Regular, WideOddCuts};
use super::claims::Property::{Even, Loopless};
use super::graphs::{BRIDGED, DOUBLED_STAR, HEXAGON, K4, TRIANGLE};
use super::rows::{Row, all_are_so};
use std::test::Fail;

static DELETED: [Row; 3] = [
    Row {
        premises: &["regular_law: `deleted`: wide odd cuts; fewer than r edges; regular"],
        without: &["regular_law.deleted: HasWideOddCuts"],
        graph: "the cubic graph above without its bridge 14",
        given: BRIDGED,
        holds: &[Is(&[Loopless]), Number(Regular, 3), Few(&[9], 3)],
        fails: &[Number(WideOddCuts, 3), Avoided(&[9])],
    },
    Row {
        premises: &["regular_law: `deleted`: wide odd cuts; fewer than r edges; regular"],
        without: &["regular_law.deleted: count (size g) f + 1 ≤ r"],
        graph: "K4 without the three edges at a vertex",
        given: K4,
        holds: &[
            Is(&[Loopless]),
            Number(Regular, 3),
            Number(WideOddCuts, 3),
            Avoided(&[1, 2]),
        ],
        fails: &[Few(&[1, 2, 3], 3), Avoided(&[1, 2, 3])],
    },
    Row {
        premises: &["regular_law: `deleted`: wide odd cuts; fewer than r edges; regular"],
        without: &["regular_law.deleted: IsRegular"],
        graph: "the star K1,3 with doubled edges, r = 2, without any edge deleted",
        given: DOUBLED_STAR,
        holds: &[Is(&[Loopless]), Number(WideOddCuts, 2), Few(&[], 2)],
        fails: &[Number(Regular, 2), Avoided(&[])],
    },
];

static CONNECTED: [Row; 3] = [
    Row {
        premises: &["regular_law: `connected`: even order; (r − 1)-edge-connected; regular"],
        without: &["regular_law.connected: is_odd g.order ≡ false"],
        graph: "the triangle, r = 2",
        given: TRIANGLE,
        holds: &[
            Is(&[Loopless]),
            Number(Regular, 2),
            Number(EdgeConnected, 1),
        ],
        fails: &[Is(&[Even]), Number(WideOddCuts, 2)],
    },
    Row {
        premises: &["regular_law: `connected`: even order; (r − 1)-edge-connected; regular"],
        without: &["regular_law.connected: r ≤ cut_size g x + 1"],
        graph: "the cubic graph above",
        given: BRIDGED,
        holds: &[Is(&[Loopless, Even]), Number(Regular, 3)],
        fails: &[Number(EdgeConnected, 2), Number(WideOddCuts, 3)],
    },
    Row {
        premises: &["regular_law: `connected`: even order; (r − 1)-edge-connected; regular"],
        without: &["regular_law.connected: IsRegular"],
        graph: "the hexagon, r = 3",
        given: HEXAGON,
        holds: &[Is(&[Loopless, Even]), Number(EdgeConnected, 2)],
        fails: &[Number(Regular, 3), Number(WideOddCuts, 3)],
    },
];

#[test]
fn premises_on_deleted_edges(rt: HostRuntime) -> Result<(), Fail> {
    all_are_so(rt.alloc(), &DELETED)
}

#[test]
fn premises_on_edge_connected_regular_graphs(rt: HostRuntime) -> Result<(), Fail> {
    all_are_so(rt.alloc(), &CONNECTED)
}
