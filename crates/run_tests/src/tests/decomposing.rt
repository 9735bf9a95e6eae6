//! Worked decompositions, in named orders and in those of pick files, and their refusals.
use super::graphs::{HEXAGON, TRIANGLE_IN_K33, TWO_K4, cycle};
use super::trial::{RunRow, all_answer, report};
use bench_top::Status;
use std::alloc::Global;
use std::test::Fail;

static ORDERS: [&str; 3] = ["first", "last", "balanced"];

// Whole reports in the order `first`.
static WHOLE: [RunRow; 3] = [
    // parallel edges are remembered
    (
        &["p mcg 2 2\ne 1 2\ne 1 2\n"],
        "t mcg 2\nleaf\nc leaf 1 brace\nc block 1\nc block 2\nc edge 1 2 by 1 2\nc leaves 1 bricks 0 braces 1\n",
    ),
    (
        &[HEXAGON],
        "t mcg 6\ncut 2 3 4\nleaf\nleaf\nc leaf 1 brace\nc block 2\nc block 3\nc block 4\nc block 1 5 6\nc edge 2 3 by 2\nc edge 2 6 by 1\nc edge 3 4 by 3\nc edge 4 6 by 4\nc leaf 2 brace\nc block 1\nc block 2 3 4\nc block 5\nc block 6\nc edge 1 4 by 1\nc edge 1 6 by 6\nc edge 4 5 by 4\nc edge 5 6 by 5\nc leaves 2 bricks 0 braces 2\n",
    ),
    // the cycle of four with names
    (
        &["p mcg2 4 4\nv a\nv b\nv c\nv d\ne a b\ne b c\ne c d\ne d a\n"],
        "t mcg 4\nleaf\nc leaf 1 brace\nc block 1\nc block 2\nc block 3\nc block 4\nc edge 1 2 by 1\nc edge 1 4 by 4\nc edge 2 3 by 2\nc edge 3 4 by 3\nc leaves 1 bricks 0 braces 1\nc name 1 a\nc name 2 b\nc name 3 c\nc name 4 d\n",
    ),
];

#[test]
fn whole_reports(rt: HostRuntime) -> Result<(), Fail> {
    all_answer(
        rt.alloc(),
        &["decompose", "g", "first"],
        Status::Done,
        &WHOLE,
    )?;
    Ok(())
}

// A graph that has one nontrivial tight cut.
static ONE_CUT: [RunRow; 1] = [(
    &[TRIANGLE_IN_K33],
    "t mcg 8\ncut 1 2 3\nleaf\nleaf\nc leaf 1 brick\nc block 1\nc block 2\nc block 3\nc block 4 5 6 7 8\nc edge 1 2 by 1\nc edge 1 3 by 2\nc edge 1 8 by 4\nc edge 2 3 by 3\nc edge 2 8 by 5\nc edge 3 8 by 6\nc leaf 2 brace\nc block 1 2 3\nc block 4\nc block 5\nc block 6\nc block 7\nc block 8\nc edge 3 4 by 4\nc edge 3 5 by 5\nc edge 3 6 by 6\nc edge 4 7 by 7\nc edge 4 8 by 10\nc edge 5 7 by 8\nc edge 5 8 by 11\nc edge 6 7 by 9\nc edge 6 8 by 12\nc leaves 2 bricks 1 braces 1\n",
)];

// Graphs that are not matching covered.
static NOT_COVERED: [RunRow; 4] = [
    (&["p mcg 0 0\n"], "covered no order\n"),
    (&["p mcg 4 2\ne 1 2\ne 3 4\n"], "covered no parts 1 3\n"),
    (
        &["p mcg 4 3\ne 1 2\ne 1 3\ne 1 4\n"],
        "covered no berge 1\n",
    ),
    (&["p mcg 4 3\ne 1 2\ne 2 3\ne 3 4\n"], "covered no edge 2\n"),
];

#[test]
fn reports_in_all_orders(rt: HostRuntime) -> Result<(), Fail> {
    for order in &ORDERS {
        let words = ["decompose", "g", *order];
        all_answer(rt.alloc(), &words, Status::Done, &ONE_CUT)?;
        all_answer(rt.alloc(), &words, Status::Negative, &NOT_COVERED)?;
    }
    Ok(())
}

const BRACES: &str = "\nc leaves 2 bricks 0 braces 2\n";

const BRICKS: &str = "\nc leaves 2 bricks 2 braces 0\n";

// A graph and an order, and how the report begins and ends.
static FIRST_CUTS: [(&str, &str, &str, &str); 5] = [
    (HEXAGON, "first", "t mcg 6\ncut 2 3 4\n", BRACES),
    (HEXAGON, "last", "t mcg 6\ncut 1 2 3\n", BRACES),
    (HEXAGON, "balanced", "t mcg 6\ncut 2 3 4\n", BRACES),
    (TWO_K4, "first", "t mcg 6\ncut 1 3 4\n", BRICKS),
    (TWO_K4, "last", "t mcg 6\ncut 2 3 4\n", BRICKS),
];

// The hexagon and a list of picks, and how the report begins.
static PICKED_CUTS: [([&str; 2], &str); 3] = [
    ([HEXAGON, "s mcg 1\npick 2\n"], "t mcg 6\ncut 1 2 3\n"),
    ([HEXAGON, "s mcg 1\npick 4\n"], "t mcg 6\ncut 3 4 5\n"),
    ([HEXAGON, "s mcg 0\n"], "t mcg 6\ncut 2 3 4\n"),
];

#[test]
fn first_cuts(rt: HostRuntime) -> Result<(), Fail> {
    for (graph, order, start, end) in &FIRST_CUTS {
        let report = report(rt.alloc(), &["decompose", "g", *order], &[*graph])?;
        assert!(rt; report.starts_with(*start) && report.ends_with(*end));
    }
    for (files, start) in &PICKED_CUTS {
        let report = report(rt.alloc(), &["decompose", "g", "script", "s"], files)?;
        assert!(rt; report.starts_with(*start) && report.ends_with(BRACES));
    }
    Ok(())
}

// Whether the decomposition of the graph in the order ends so.
fn ends_with(alloc: Global, graph: &str, order: &str, end: &str) -> Result<bool, Fail> {
    let report = report(alloc, &["decompose", "g", order], &[graph])?;
    Ok(report.ends_with(end))
}

#[test]
fn cycles(rt: HostRuntime) -> Result<(), Fail> {
    let graph = cycle(rt.alloc(), 16)?;
    for order in &ORDERS {
        let end = "\nc leaves 7 bricks 0 braces 7\n";
        assert!(rt; ends_with(rt.alloc(), &graph, order, end)?);
    }
    let graph = cycle(rt.alloc(), 64)?;
    let end = "\nc leaves 31 bricks 0 braces 31\n";
    assert!(rt; ends_with(rt.alloc(), &graph, "first", end)?);
    Ok(())
}
