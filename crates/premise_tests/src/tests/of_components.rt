//! Premises of the theorem on elementary components.

use super::claims::Claim::{Is, Set};
use super::claims::OfSet::{CoveredInside, ElementaryComponent, Perfect};
use super::claims::Property::{Allowed, Covered, Loopless};
use super::graphs::{DIAMOND, K2, ONE_VERTEX, PATH_OF_3, TWO_EDGES};
use super::rows::{Row, all_are_so};
use std::test::Fail;

static ROWS: [Row; 5] = [
    Row {
        premises: &["elementary_components_law: `covered`: a perfect matching"],
        without: &["elementary_components_law.covered: HasPerfect"],
        graph: "the path 1 2 3",
        given: PATH_OF_3,
        holds: &[Is(&[Loopless]), Set(&[ElementaryComponent], &[1])],
        fails: &[Set(&[Perfect], &[]), Set(&[CoveredInside], &[1])],
    },
    Row {
        premises: &["elementary_components_law: `covered`: a component"],
        without: &["elementary_components_law.covered: IsIn vs (elementary_parts g)"],
        graph: "K2 with {1}",
        given: K2,
        holds: &[Is(&[Loopless]), Set(&[Perfect], &[])],
        fails: &[Set(&[ElementaryComponent, CoveredInside], &[1])],
    },
    Row {
        premises: &["elementary_components_law: `whole`: a perfect matching"],
        without: &["elementary_components_law.whole: HasPerfect"],
        graph: "K1",
        given: ONE_VERTEX,
        holds: &[Set(&[ElementaryComponent], &[1]), Is(&[Loopless, Allowed])],
        fails: &[Set(&[Perfect], &[]), Is(&[Covered])],
    },
    Row {
        premises: &["elementary_components_law: `whole`: one component"],
        without: &["elementary_components_law.whole: length (elementary_parts g) ≡ 1"],
        graph: "two disjoint edges",
        given: TWO_EDGES,
        holds: &[Set(&[Perfect], &[]), Is(&[Loopless, Allowed])],
        fails: &[Set(&[ElementaryComponent], &[1, 2, 3, 4]), Is(&[Covered])],
    },
    Row {
        premises: &["elementary_components_law: `whole`: each edge is allowed"],
        without: &["elementary_components_law.whole: Allowed"],
        graph: "the diamond",
        given: DIAMOND,
        holds: &[
            Is(&[Loopless]),
            Set(&[Perfect], &[]),
            Set(&[ElementaryComponent], &[1, 2, 3, 4]),
        ],
        fails: &[Is(&[Allowed, Covered])],
    },
];

#[test]
fn premises_on_elementary_components(rt: HostRuntime) -> Result<(), Fail> {
    all_are_so(rt.alloc(), &ROWS)
}
