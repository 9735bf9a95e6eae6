//! Ear lists of worked graphs, built and checked.

use super::made::made;
use ear_core::{EarJudgement, build_ears, check_ears};
use graph_core::MultiGraph;
use plain_graph::{CUBE, HEXAGON, K4, PATH, PETERSEN, TRIANGLE_IN_K33, is_covered};
use std::alloc::Global;
use std::test::Fail;

const TWINS: [(u32, u32); 2] = [(1, 2), (2, 1)];

// A graph, by its order and its edges, and the number of steps of one ear and of two of the list
// that is built; none if it is not matching covered.
static BUILT: [(u32, &[(u32, u32)], Option<(u32, u32)>); 7] = [
    (2, &TWINS, Some((1, 0))),
    (4, &K4, Some((1, 1))),
    (4, &PATH, None),
    (6, &HEXAGON, Some((1, 0))),
    (8, &CUBE, Some((5, 0))),
    (8, &TRIANGLE_IN_K33, Some((3, 1))),
    (10, &PETERSEN, Some((2, 2))),
];

// The steps of the list that is built, if it is accepted.
fn built(alloc: Global, graph: &MultiGraph) -> Result<Option<(u32, u32)>, Fail> {
    if !is_covered(alloc, graph)? {
        return Ok(None);
    }
    let list = build_ears(alloc, graph)?;
    let mut single = 0u32;
    let mut double = 0u32;
    for step in list.steps.as_slice() {
        match &step.second {
            None => single = single.saturating_add(1),
            Some(_) => double = double.saturating_add(1),
        }
    }
    if matches!(check_ears(alloc, graph, &list)?, EarJudgement::Accepted) {
        return Ok(Some((single, double)));
    }
    Err("a list that is built is refused".into())
}

#[test]
fn builds_ear_lists_that_are_accepted(rt: HostRuntime) -> Result<(), Fail> {
    for (order, edges, steps) in &BUILT {
        let graph = made(rt.alloc(), *order, edges)?;
        assert!(rt; built(rt.alloc(), &graph)? == *steps);
    }
    Ok(())
}
