//! Worked comparisons of two trees, and their refusals; and over a table of graphs each
//! derivation with each other: the script between them is replayed.
use super::graphs::{
    HEXAGON, HEXAGON_TREE, K4, OCTAGON, OTHER_HEXAGON_TREE, TRIANGLE_IN_K33, TWO_EDGES, TWO_K4,
    cycle,
};
use super::trial::{COMPARE, REPLAY, RunRow, Runs, SCRIPT, all_answer, all_runs_answer, report};
use bench_top::Status;
use std::alloc::Global;
use std::test::Fail;

// Two trees of a graph.
static COMPARED: [Runs; 3] = [
    // Two derivations of the graph.
    (
        Status::Done,
        &[
            // the roots cross
            (
                &[HEXAGON, HEXAGON_TREE, OTHER_HEXAGON_TREE],
                "same leaves 2 moves 1\nmove switch . 1 4\nleaf 1 with 1\nmap 1 to 6\nmap 2 to 2\nmap 3 to 3\nmap 6 to 4\nleaf 2 with 2\nmap 3 to 1\nmap 4 to 4\nmap 5 to 5\nmap 6 to 6\n",
            ),
            // one tree twice
            (
                &[HEXAGON, HEXAGON_TREE, HEXAGON_TREE],
                "same leaves 2 moves 0\nleaf 1 with 1\nmap 1 to 1\nmap 2 to 2\nmap 3 to 3\nmap 6 to 6\nleaf 2 with 2\nmap 3 to 3\nmap 4 to 4\nmap 5 to 5\nmap 6 to 6\n",
            ),
            // the same cuts
            (
                &[
                    OCTAGON,
                    "t mcg 8\ncut 1 2 3 4 5\ncut 1 2 3\nleaf\nleaf\nleaf\n",
                    "t mcg 8\ncut 1 2 3\nleaf\ncut 1 2 3 4 5\nleaf\nleaf\n",
                ],
                "same leaves 3 moves 1\nmove rotate k\nleaf 1 with 1\nmap 1 to 1\nmap 2 to 2\nmap 3 to 3\nmap 8 to 8\nleaf 2 with 2\nmap 3 to 3\nmap 4 to 4\nmap 5 to 5\nmap 8 to 8\nleaf 3 with 3\nmap 5 to 5\nmap 6 to 6\nmap 7 to 7\nmap 8 to 8\n",
            ),
            // the roots meet in three vertices, so that a third cut comes first
            (
                &[
                    OCTAGON,
                    "t mcg 8\ncut 1 2 3 4 5\ncut 1 2 3\nleaf\nleaf\nleaf\n",
                    "t mcg 8\ncut 3 4 5 6 7\ncut 3 4 5\nleaf\nleaf\nleaf\n",
                ],
                "same leaves 3 moves 4\nmove switch k 3 6,7,8\nmove rotate k\nmove switch m 3,4,5 8\nmove rotate m\nleaf 1 with 3\nmap 1 to 1\nmap 2 to 2\nmap 3 to 7\nmap 8 to 8\nleaf 2 with 1\nmap 3 to 3\nmap 4 to 4\nmap 5 to 5\nmap 8 to 8\nleaf 3 with 2\nmap 5 to 5\nmap 6 to 6\nmap 7 to 7\nmap 8 to 8\n",
            ),
        ],
    ),
    // Two trees of the hexagon, of which one is not a derivation.
    (
        Status::Negative,
        &[
            (
                &[HEXAGON, HEXAGON_TREE, "t mcg 6\nleaf\n"],
                "tree 2 refused node 1 why 5 cut 2 3 4\n",
            ),
            (
                &[HEXAGON, "t mcg 6\nleaf\n", "t mcg 6\nleaf\n"],
                "tree 1 refused node 1 why 5 cut 2 3 4\n",
            ),
        ],
    ),
    // Two trees of the hexagon, of which one is outside the format.
    (
        Status::BadInput,
        &[
            (
                &[HEXAGON, "t mcg 6\ncut 3 2\nleaf\nleaf\n", HEXAGON_TREE],
                "file 2 line 2 kind 9\n",
            ),
            (
                &[HEXAGON, "t mcg 6\ncut 2 6\nleaf\nleaf\n", HEXAGON_TREE],
                "file 2 line 2 kind 10\n",
            ),
            (
                &[HEXAGON, HEXAGON_TREE, "t mcg 6\ncut 2 6\nleaf\nleaf\n"],
                "file 3 line 2 kind 10\n",
            ),
        ],
    ),
];

#[test]
fn trees_that_are_compared(rt: HostRuntime) -> Result<(), Fail> {
    all_runs_answer(rt.alloc(), COMPARE, &COMPARED)
}

// A graph that is not matching covered.
static NOT_COVERED: [RunRow; 1] = [(
    &[TWO_EDGES, "t mcg 4\nleaf\n", "t mcg 4\nleaf\n"],
    "covered no parts 1 3\n",
)];

#[test]
fn a_graph_that_is_not_covered(rt: HostRuntime) -> Result<(), Fail> {
    all_answer(rt.alloc(), COMPARE, Status::Negative, &NOT_COVERED)?;
    all_answer(rt.alloc(), SCRIPT, Status::Negative, &NOT_COVERED)?;
    Ok(())
}

// Whether two derivations are paired, and the script between them makes of the first a tree with
// whose text the second begins.
fn leads_over(alloc: Global, graph: &str, first: &str, second: &str) -> Result<bool, Fail> {
    let paired = report(alloc, COMPARE, &[graph, first, second])?;
    let script = report(alloc, SCRIPT, &[graph, first, second])?;
    let made = report(alloc, REPLAY, &[graph, first, &script])?;
    let made = made.as_str();
    let (tree, _) = made.split_once("c moves ").unwrap_or((made, ""));
    Ok(paired.starts_with("same leaves ") && second.starts_with(tree))
}

// Whether each of these derivations of the graph leads over to each.
fn all_lead_over(alloc: Global, graph: &str, trees: &[String]) -> Result<bool, Fail> {
    for first in trees {
        for second in trees {
            if !leads_over(alloc, graph, first, second)? {
                return Ok(false);
            }
        }
    }
    Ok(true)
}

// Whether this is so of the derivations of the graph by the three orders.
fn all_orders_agree(alloc: Global, graph: &str) -> Result<bool, Fail> {
    let mut trees = Vec::new(alloc);
    for order in ["first", "last", "balanced"] {
        trees.push(report(alloc, &["decompose", "g", order], &[graph])?)?;
    }
    all_lead_over(alloc, graph, &trees)
}

static SMALL_GRAPHS: [&str; 5] = [K4, HEXAGON, OCTAGON, TRIANGLE_IN_K33, TWO_K4];

#[test]
fn small_graphs_in_all_orders(rt: HostRuntime) -> Result<(), Fail> {
    for graph in &SMALL_GRAPHS {
        assert!(rt; all_orders_agree(rt.alloc(), graph)?);
    }
    Ok(())
}

// Whether this is so of the graph that grows from a number in six pieces.
fn grown_agrees(alloc: Global, seed: &str) -> Result<bool, Fail> {
    let graph = report(alloc, &["grow", seed, "6"], &[])?;
    all_orders_agree(alloc, &graph)
}

#[test]
fn large_graphs_in_all_orders(rt: HostRuntime) -> Result<(), Fail> {
    let graph = cycle(rt.alloc(), 16)?;
    assert!(rt; all_orders_agree(rt.alloc(), &graph)?);
    for seed in ["1", "2", "3"] {
        assert!(rt; grown_agrees(rt.alloc(), seed)?);
    }
    Ok(())
}

static PICKS: [&str; 3] = [
    "s mcg 1\npick 1\n",
    "s mcg 1\npick 2\n",
    "s mcg 1\npick 4\n",
];

// The derivations of the hexagon by these picks.
fn picked(alloc: Global) -> Result<Vec<String>, Fail> {
    let mut trees = Vec::new(alloc);
    for picks in &PICKS {
        let words = ["decompose", "g", "script", "s"];
        trees.push(report(alloc, &words, &[HEXAGON, picks])?)?;
    }
    Ok(trees)
}

#[test]
fn picks_of_the_hexagon(rt: HostRuntime) -> Result<(), Fail> {
    let trees = picked(rt.alloc())?;
    assert!(rt; all_lead_over(rt.alloc(), HEXAGON, &trees)?);
    Ok(())
}
