//! Premises of the theorems of Berge, of Gallai, and of Gallai and Edmonds.

use super::claims::Claim::{Edges, Is, OneLess, Set, Stable};
use super::claims::OfEdges::{Attains, Matching, Maximum};
use super::claims::OfSet::{Critical, D, InA, Proper, Spread};
use super::claims::Property::{Connected, Missed};
use super::graphs::{K2, PATH_OF_3, STAR_OF_3, TWO_TRIANGLES};
use super::rows::{Row, all_are_so};
use std::test::Fail;

static ROWS: [Row; 6] = [
    // the premise of the one sentence is what the other says
    Row {
        premises: &[
            "berge_law: `equal`: the matching is maximum",
            "berge_law: `maximum`: equality",
        ],
        without: &["berge_law.equal: IsMaximum", "berge_law.maximum: Attains"],
        graph: "K2 with the empty matching",
        given: K2,
        holds: &[Edges(Matching, &[])],
        fails: &[Edges(Maximum, &[]), Edges(Attains, &[])],
    },
    Row {
        premises: &["gallai_lemma_law: connected"],
        without: &["gallai_lemma_law: IsConnected"],
        graph: "two disjoint triangles",
        given: TWO_TRIANGLES,
        holds: &[Is(&[Missed])],
        fails: &[Is(&[Connected]), Set(&[Critical], &[1, 2, 3, 4, 5, 6])],
    },
    Row {
        premises: &["gallai_lemma_law: each vertex is missed"],
        without: &["gallai_lemma_law: InD"],
        graph: "the path with three vertices",
        given: PATH_OF_3,
        holds: &[Is(&[Connected]), Set(&[D], &[1, 3])],
        fails: &[Is(&[Missed]), Set(&[Critical], &[1, 2, 3])],
    },
    // of the empty set of any graph: here of the star
    Row {
        premises: &["gallai_edmonds_law: `surplus`: S is not empty"],
        without: &["gallai_edmonds_law.surplus: 1 ≤ count g.order s"],
        graph: "any graph",
        given: STAR_OF_3,
        holds: &[Set(&[InA], &[]), Set(&[InA, Spread], &[1])],
        fails: &[Set(&[Proper, Spread], &[])],
    },
    Row {
        premises: &["gallai_edmonds_law: `surplus`: S is contained in A"],
        without: &["gallai_edmonds_law.surplus: a v ≡ true"],
        graph: "the star K1,3",
        given: STAR_OF_3,
        holds: &[
            Set(&[D], &[2, 3, 4]),
            Set(&[InA], &[1]),
            Set(&[Proper], &[2]),
        ],
        fails: &[Set(&[InA, Spread], &[2])],
    },
    Row {
        premises: &["gallai_edmonds_law: `stable`, `one_less`: v is in A"],
        without: &[
            "gallai_edmonds_law.stable: a v ≡ true",
            "gallai_edmonds_law.one_less: a v ≡ true",
        ],
        graph: "the path with three vertices, where v is its first vertex",
        given: PATH_OF_3,
        holds: &[Set(&[D], &[1, 3]), Stable(2), OneLess(2)],
        fails: &[Set(&[InA], &[1]), Stable(1), OneLess(1)],
    },
];

#[test]
fn premises_on_matchings(rt: HostRuntime) -> Result<(), Fail> {
    all_are_so(rt.alloc(), &ROWS)
}
