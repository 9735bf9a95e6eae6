//! The kinds of graphs of the literature.

use super::made::{made, set_of};
use graph_core::{Kind, MultiGraph};
use leaf_kinds::kind;
use plain_graph::{FOUR_CYCLE, HEXAGON, K4, PATH, PRISM, TWO_K4, is_covered};
use std::alloc::Global;
use std::test::Fail;

// The kind of a graph, if it is covered.
fn kind_if_covered(alloc: Global, graph: &MultiGraph) -> Result<Option<Kind>, Fail> {
    if is_covered(alloc, graph)? {
        return Ok(Some(kind(alloc, graph)?));
    }
    Ok(None)
}

// Whether this is the kind of the graph; none if it is not covered.
fn is_kind(
    alloc: Global,
    order: u32,
    edges: &[(u32, u32)],
    wanted: Option<Kind>,
) -> Result<bool, Fail> {
    let graph = made(alloc, order, edges)?;
    Ok(kind_if_covered(alloc, &graph)? == wanted)
}

#[test]
fn kinds(rt: HostRuntime) -> Result<(), Fail> {
    let alloc = rt.alloc();
    assert!(rt; is_kind(alloc, 4, &K4, Some(Kind::Brick))?);
    assert!(rt; is_kind(alloc, 4, &FOUR_CYCLE, Some(Kind::Brace))?);
    let cut = set_of(&[2, 3, 4]);
    assert!(rt; is_kind(alloc, 6, &HEXAGON, Some(Kind::Composite { cut }))?);
    assert!(rt; is_kind(alloc, 6, &PRISM, Some(Kind::Brick))?);
    let cut = set_of(&[1, 3, 4]);
    assert!(rt; is_kind(alloc, 6, &TWO_K4, Some(Kind::Composite { cut }))?);
    assert!(rt; is_kind(alloc, 4, &PATH, None)?);
    Ok(())
}
