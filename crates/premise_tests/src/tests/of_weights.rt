//! Premises on weights that are the same on all perfect matchings.

use super::claims::Claim::{Is, Set, Weight};
use super::claims::OfSet::{Nontrivial, Perfect, Tight};
use super::claims::OfWeight::{Flat, Potential, PotentialOffCuts, WholePotential};
use super::claims::Property::{Covered, Loopless, Uncut};
use super::graphs::{CYCLE_AND_VERTEX, K2_WITH_TWO_LOOPS, K4, TWO_K4};
use super::rows::{Row, all_are_so};
use std::test::Fail;

static WEIGHTS: [Row; 4] = [
    // the edges of the cut of {1, 3, 4}
    Row {
        premises: &["potential_law: `potential`: no nontrivial tight cut"],
        without: &["potential_law.potential: HasOnlyTrivialTightCuts"],
        graph: "two copies of K4 sharing an edge",
        given: TWO_K4,
        holds: &[
            Is(&[Loopless, Covered]),
            Set(&[Tight, Nontrivial], &[1, 3, 4]),
            Weight(&[Flat], &[1, 4, 5, 7, 8]),
        ],
        fails: &[Is(&[Uncut]), Weight(&[Potential], &[1, 4, 5, 7, 8])],
    },
    // its order is odd, so there is no tight cut at all
    Row {
        premises: &["potential_law: `balanced`, `potential`: matching covered"],
        without: &[
            "potential_law.balanced: IsCovered",
            "potential_law.potential: IsCovered",
        ],
        graph: "the cycle 1 2 3 4 and an isolated vertex",
        given: CYCLE_AND_VERTEX,
        holds: &[Is(&[Loopless, Uncut]), Weight(&[Flat], &[1])],
        fails: &[
            Is(&[Covered]),
            Set(&[Perfect], &[]),
            Weight(&[Potential, PotentialOffCuts], &[1]),
        ],
    },
    // its loops are in no cut
    Row {
        premises: &["potential_law: `balanced`, `potential`: no loop"],
        without: &[
            "potential_law.balanced: IsMultigraph",
            "potential_law.potential: IsMultigraph",
        ],
        graph: "K2 with two loops at one vertex",
        given: K2_WITH_TWO_LOOPS,
        holds: &[Is(&[Covered, Uncut]), Weight(&[Flat], &[3])],
        fails: &[
            Is(&[Loopless]),
            Weight(&[Potential, PotentialOffCuts], &[3]),
        ],
    },
    // its tight cuts are stars, which numbers of the vertices take in
    Row {
        premises: &["potential_law: `balanced`, `potential`: twice the weight"],
        without: &[
            "potential_law.balanced: 2 * (w e + k)",
            "potential_law.potential: 2 * (w e + k)",
        ],
        graph: "K4",
        given: K4,
        holds: &[
            Is(&[Loopless, Covered, Uncut]),
            Weight(&[Flat, Potential], &[4, 5, 6]),
        ],
        fails: &[Weight(&[WholePotential], &[4, 5, 6])],
    },
];

#[test]
fn premises_on_flat_weights(rt: HostRuntime) -> Result<(), Fail> {
    all_are_so(rt.alloc(), &WEIGHTS)
}
