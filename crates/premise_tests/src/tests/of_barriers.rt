//! Premises of the theorem of Kotzig and Lovász.

use super::claims::Claim::{Class, Equivalent, Is, Parts, Set};
use super::claims::OfSet::{Barrier, Critical, MaximalBarrier, Perfect, Proper};
use super::claims::Property::{Covered, Elementary};
use super::graphs::{HEXAGON, K2, PATH_OF_4};
use super::rows::{Row, all_are_so};
use std::test::Fail;

static ROWS: [Row; 5] = [
    Row {
        premises: &[
            "kotzig_lovasz_law: `equivalence`: elementary",
            "kotzig_lovasz_law: `classes`: elementary",
            "kotzig_lovasz_law: `one`: elementary",
            "kotzig_lovasz_law: `components`: elementary",
        ],
        without: &[
            "kotzig_lovasz_law.equivalence: IsElementary",
            "kotzig_lovasz_law.classes: IsElementary",
            "kotzig_lovasz_law.one: IsElementary",
            "kotzig_lovasz_law.components: IsElementary",
        ],
        graph: "the path 1 2 3 4",
        given: PATH_OF_4,
        holds: &[
            Equivalent(1, 3),
            Equivalent(3, 2),
            Class(2, &[2, 3, 4]),
            Set(&[Barrier, Proper], &[2, 3]),
            Class(3, &[1, 2, 3]),
            Set(&[Barrier, Proper], &[2]),
            Parts(&[2], 2),
        ],
        fails: &[
            Is(&[Elementary]),
            Equivalent(1, 2),
            Set(&[Barrier], &[2, 3, 4]),
            Parts(&[2], 1),
        ],
    },
    Row {
        premises: &["kotzig_lovasz_law: `one`: a nonempty barrier"],
        without: &["kotzig_lovasz_law.one: s a ≡ true"],
        graph: "the hexagon",
        given: HEXAGON,
        holds: &[
            Is(&[Elementary]),
            Set(&[Barrier], &[]),
            Class(1, &[1, 3, 5]),
            Class(2, &[2, 4, 6]),
        ],
        fails: &[Set(&[Proper], &[])],
    },
    Row {
        premises: &["kotzig_lovasz_law: `components`: a nonempty barrier"],
        without: &["kotzig_lovasz_law.components: s a ≡ true"],
        graph: "K2 with the empty barrier",
        given: K2,
        holds: &[Is(&[Elementary]), Set(&[Barrier], &[]), Parts(&[], 1)],
        fails: &[Set(&[Proper], &[]), Parts(&[], 0)],
    },
    Row {
        premises: &["kotzig_lovasz_law: `critical`, `maximal`: not only a barrier"],
        without: &[
            "kotzig_lovasz_law.critical: IsClass",
            "kotzig_lovasz_law.maximal: IsMaximalBarrier",
        ],
        graph: "the hexagon with {1}",
        given: HEXAGON,
        holds: &[
            Is(&[Elementary]),
            Set(&[Perfect], &[]),
            Set(&[Barrier], &[1]),
            Parts(&[1], 1),
        ],
        fails: &[
            Class(1, &[1]),
            Set(&[MaximalBarrier], &[1]),
            Set(&[Critical], &[2, 3, 4, 5, 6]),
        ],
    },
    Row {
        premises: &["kotzig_lovasz_law: `elementary`: matching covered"],
        without: &["kotzig_lovasz_law.elementary: IsCovered"],
        graph: "the path 1 2 3 4",
        given: PATH_OF_4,
        holds: &[Set(&[Perfect], &[])],
        fails: &[Is(&[Covered, Elementary])],
    },
];

#[test]
fn premises_on_barriers(rt: HostRuntime) -> Result<(), Fail> {
    all_are_so(rt.alloc(), &ROWS)
}
