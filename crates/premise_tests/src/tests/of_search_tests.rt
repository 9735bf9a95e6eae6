//! Premises of the laws on the fast tests for braces and for bricks. A graph has a candidate if and
//! only if it has a nontrivial tight cut.

use super::claims::Claim::{Edges, Is, Reached, Set};
use super::claims::OfEdges::{Matching, PerfectMatching};
use super::claims::OfSet::Side;
use super::claims::Property::{Bicritical, Composite, Covered, Loopless, Nonbipartite};
use super::graphs::{K33, TWO_K4};
use super::rows::{Row, all_are_so};
use std::test::Fail;

static TESTS: [Row; 3] = [
    Row {
        premises: &["brace_test_law: `brace_test_law`: a side; perfect"],
        without: &["brace_test_law: IsSide"],
        graph: "two copies of K4 on 1 2 3 4 and on 1 2 5 6, x = {1, 3, 5} and m = {12, 34, 56}",
        given: TWO_K4,
        holds: &[
            Is(&[Covered, Composite]),
            Edges(PerfectMatching, &[1, 6, 11]),
            Reached(&[1, 3, 5], &[1, 6, 11]),
        ],
        fails: &[Set(&[Side], &[1, 3, 5])],
    },
    Row {
        premises: &["brace_test_law: `brace_test_law`: a side; perfect"],
        without: &["brace_test_law: IsPerfect"],
        graph: "K3,3 with one edge in m",
        given: K33,
        holds: &[
            Is(&[Covered]),
            Set(&[Side], &[1, 2, 3]),
            Edges(Matching, &[1]),
        ],
        fails: &[
            Edges(PerfectMatching, &[1]),
            Is(&[Composite]),
            Reached(&[1, 2, 3], &[1]),
        ],
    },
    Row {
        premises: &["brace_test_law: `brick_test_law`: not bipartite"],
        without: &["brick_test_law: ¬ (IsBipartite g)"],
        graph: "K3,3",
        given: K33,
        holds: &[Is(&[Loopless, Covered])],
        fails: &[Is(&[Nonbipartite, Composite, Bicritical])],
    },
];

#[test]
fn premises_of_the_fast_tests(rt: HostRuntime) -> Result<(), Fail> {
    all_are_so(rt.alloc(), &TESTS)
}
