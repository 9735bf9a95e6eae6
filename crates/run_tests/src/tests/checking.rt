//! Worked trees and ear lists, given and built, and their refusals.
use super::graphs::{
    CUBE, CUBE_EARS, HEXAGON, K4, OCTAGON, PATH, PETERSEN, PRISM, TRIANGLE_IN_K33, TWO_EDGES,
};
use super::trial::{CHECK, CHECK_EARS, Runs, all_runs_answer, answers, report};
use bench_top::Status;
use std::alloc::Global;
use std::test::Fail;

// Trees of a graph.
static TREES: [Runs; 2] = [
    // Trees that are not derivations of the graph.
    (
        Status::Negative,
        &[
            (&[TWO_EDGES, "t mcg 4\nleaf\n"], "covered no parts 1 3\n"),
            (
                &[PRISM, "t mcg 6\ncut 1 2 3\nleaf\nleaf\n"],
                "tree 1 refused node 1 why 4 matching 7 8 9\n",
            ),
            (
                &[PETERSEN, "t mcg 10\ncut 1 2 3 4 5\nleaf\nleaf\n"],
                "tree 1 refused node 1 why 4 matching 6 7 8 9 10\n",
            ),
            (
                &[HEXAGON, "t mcg 6\nleaf\n"],
                "tree 1 refused node 1 why 5 cut 2 3 4\n",
            ),
            (
                &[HEXAGON, "t mcg 6\ncut 1 2\nleaf\nleaf\n"],
                "tree 1 refused node 1 why 2\n",
            ),
            (
                &[HEXAGON, "t mcg 6\ncut 1\nleaf\nleaf\n"],
                "tree 1 refused node 1 why 3\n",
            ),
            (
                &[HEXAGON, "t mcg 6\ncut 1 2 3\ncut 1 4 5\nleaf\nleaf\nleaf\n"],
                "tree 1 refused node 2 why 1\n",
            ),
        ],
    ),
    // Derivations that were written by hand.
    (
        Status::Done,
        &[
            (
                &[TRIANGLE_IN_K33, "t mcg 8\ncut 1 2 3\nleaf\nleaf\n"],
                "accepted leaves 2 bricks 1 braces 1\n",
            ),
            (
                &[HEXAGON, "c a cut\nt mcg 6\n\ncut  2 3 04\r\nleaf\nleaf"],
                "accepted leaves 2 bricks 0 braces 2\n",
            ),
            (
                &[
                    OCTAGON,
                    "t mcg 8\ncut 1 2 3 4 5\ncut 1 2 3\nleaf\nleaf\nleaf\n",
                ],
                "accepted leaves 3 bricks 0 braces 3\n",
            ),
            (
                &[PETERSEN, "t mcg 10\nleaf\n"],
                "accepted leaves 1 bricks 1 braces 0\n",
            ),
        ],
    ),
];

#[test]
fn trees_that_are_given(rt: HostRuntime) -> Result<(), Fail> {
    all_runs_answer(rt.alloc(), CHECK, &TREES)
}

// Graphs, and what is said of their derivations.
static DECOMPOSED: [(&str, &str); 3] = [
    (TRIANGLE_IN_K33, "accepted leaves 2 bricks 1 braces 1\n"),
    (HEXAGON, "accepted leaves 2 bricks 0 braces 2\n"),
    (K4, "accepted leaves 1 bricks 1 braces 0\n"),
];

// Whether the derivation in the order `last` is accepted with this report.
fn is_accepted(alloc: Global, graph: &str, wanted: &str) -> Result<bool, Fail> {
    let tree = report(alloc, &["decompose", "g", "last"], &[graph])?;
    answers(alloc, CHECK, &[graph, &tree], Status::Done, wanted)
}

#[test]
fn decompositions_are_accepted(rt: HostRuntime) -> Result<(), Fail> {
    for (graph, wanted) in &DECOMPOSED {
        assert!(rt; is_accepted(rt.alloc(), graph, wanted)?);
    }
    Ok(())
}

// Lists of ears of a graph.
static EARS: [Runs; 2] = [
    // Ear lists of the graph.
    (
        Status::Done,
        &[
            (&[CUBE, CUBE_EARS], "accepted steps 5 single 5 double 0\n"),
            (
                &[K4, "r mcg 4 6\nstart 1\near 2 4 6 3\near 1 2\nwith 2 5\n"],
                "accepted steps 2 single 1 double 1\n",
            ),
        ],
    ),
    // Lists that are not ear lists of the graph.
    (
        Status::Negative,
        &[
            (
                &[TWO_EDGES, "r mcg 4 2\nstart 1\n"],
                "covered no parts 1 3\n",
            ),
            (
                &[
                    CUBE,
                    "r mcg 8 12\nstart 1\near 2 2 3 4\near 1 9 5 10\near 3 11\near 6 6\near 5 8\n",
                ],
                "refused step 3 why 3\n",
            ),
            (
                &[
                    CUBE,
                    "r mcg 8 12\nstart 1\near 2 2 3 4\near 1 9 5 10\near 3 11 7 12\near 6 6\n",
                ],
                "refused step 4 why 7 edge 8\n",
            ),
        ],
    ),
];

// What follows the start of a list of ears of the complete graph of four vertices, and the refusal.
static REFUSED_OF_K4: [(&str, &str); 10] = [
    (
        "ear 2 4 6 3\near 1 2\near 2 5\n",
        "refused step 2 why 6 edge 2\n",
    ),
    ("ear 2 4 3\n", "refused step 1 why 1\n"),
    ("ear 2 4 2\n", "refused step 1 why 2\n"),
    ("ear 3 6\n", "refused step 1 why 3\n"),
    ("ear 2 4 2 1\n", "refused step 1 why 3\n"),
    ("ear 2 4 6 3\near 1 2 4 5\n", "refused step 2 why 4\n"),
    ("ear 2 4 6 3\near 1 1\n", "refused step 2 why 5\n"),
    ("ear 2 4 6 3\near 1 2\nwith 1 2\n", "refused step 2 why 5\n"),
    ("ear 2 4 6 3\n", "refused step 1 why 7 edge 2\n"),
    ("", "refused step 0 why 7 edge 2\n"),
];

// Whether the list with this start and these ears is refused with this report.
fn is_refused_of_k4(alloc: Global, ears: &str, wanted: &str) -> Result<bool, Fail> {
    let list = format!(in alloc; "r mcg 4 6\nstart 1\n{ears}")?;
    answers(alloc, CHECK_EARS, &[K4, &list], Status::Negative, wanted)
}

#[test]
fn ear_lists_that_are_given(rt: HostRuntime) -> Result<(), Fail> {
    all_runs_answer(rt.alloc(), CHECK_EARS, &EARS)?;
    for (ears, wanted) in &REFUSED_OF_K4 {
        assert!(rt; is_refused_of_k4(rt.alloc(), ears, wanted)?);
    }
    Ok(())
}

// Graphs, the last line of their ear lists, and what is said of these.
static BUILT_EARS: [(&str, &str, &str); 3] = [
    (
        K4,
        "\nc steps 2 single 1 double 1\n",
        "accepted steps 2 single 1 double 1\n",
    ),
    (
        HEXAGON,
        "\nc steps 1 single 1 double 0\n",
        "accepted steps 1 single 1 double 0\n",
    ),
    (
        CUBE,
        "\nc steps 5 single 5 double 0\n",
        "accepted steps 5 single 5 double 0\n",
    ),
];

// Whether the ear list that is built has this last line, and is accepted with this report.
fn is_built(alloc: Global, graph: &str, end: &str, wanted: &str) -> Result<bool, Fail> {
    let ears = report(alloc, &["ears", "g"], &[graph])?;
    Ok(ears.ends_with(end) && answers(alloc, CHECK_EARS, &[graph, &ears], Status::Done, wanted)?)
}

#[test]
fn ear_lists_that_are_built(rt: HostRuntime) -> Result<(), Fail> {
    for (graph, end, wanted) in &BUILT_EARS {
        assert!(rt; is_built(rt.alloc(), graph, end, wanted)?);
    }
    let refused = "covered no edge 2\n";
    assert!(rt;
        answers(
            rt.alloc(),
            &["ears", "g"],
            &[PATH],
            Status::Negative,
            refused
        )?
    );
    Ok(())
}
