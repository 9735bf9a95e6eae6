//! Premises of the theorem on fractional edge colourings of r-graphs.

use super::claims::Claim::{Is, Number, Overused};
use super::claims::OfNumber::{Regular, WideOddCuts};
use super::claims::Property::Loopless;
use super::graphs::{BRIDGED, DOUBLED_STAR};
use super::rows::{Row, all_are_so};
use std::test::Fail;

static COLOURINGS: [Row; 2] = [
    Row {
        premises: &["fractional_law: `colouring`: wide odd cuts; regular"],
        without: &["fractional_law.colouring: HasWideOddCuts"],
        graph: "the cubic graph with the edges 12, 13, 23, 23, 45, 46, 56, 56, 14",
        given: BRIDGED,
        holds: &[Is(&[Loopless]), Number(Regular, 3), Overused(&[9], 1, 3)],
        fails: &[Number(WideOddCuts, 3), Overused(&[9], 2, 3)],
    },
    Row {
        premises: &["fractional_law: `colouring`: wide odd cuts; regular"],
        without: &["fractional_law.colouring: IsRegular"],
        graph: "the star K1,3 with doubled edges, r = 2",
        given: DOUBLED_STAR,
        holds: &[Is(&[Loopless]), Number(WideOddCuts, 2), Overused(&[], 1, 2)],
        fails: &[Number(Regular, 2)],
    },
];

#[test]
fn premises_on_fractional_colourings(rt: HostRuntime) -> Result<(), Fail> {
    all_are_so(rt.alloc(), &COLOURINGS)
}
