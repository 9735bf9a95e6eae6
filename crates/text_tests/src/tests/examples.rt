//! The examples in the docs of `graph_text`. Each is the body of a test here, from its second line
//! to the last but one: `tools/agree_docs examples` compares the two.

use graph_core::MultiGraph;
use graph_text::{read_any, write_graph};
use std::test::Fail;

#[test]
fn shows_read_any(rt: HostRuntime) -> Result<(), Fail> {
    let alloc = rt.alloc();
    let text = "p mcg 2 1\ne 1 2\n".as_bytes();
    assert!(rt; text.len() <= 1_000_000);
    let Ok(named) = read_any(alloc, text) else {
        return Err("outside the format, or out of memory".into());
    };
    assert!(rt; named.graph.order() == 2 && named.graph.size() == 1);
    assert!(rt; named.names.is_none());
    Ok(())
}

#[test]
fn shows_write_graph(rt: HostRuntime) -> Result<(), Fail> {
    let alloc = rt.alloc();
    let mut graph = MultiGraph::new(alloc, 2)?;
    graph.add_edge(1, 2)?;
    assert!(rt; graph.order() <= 64 && graph.size() <= 512);
    let text = write_graph(alloc, &graph)?;
    assert!(rt; text.as_slice() == "p mcg 2 1\ne 1 2\n".as_bytes());
    Ok(())
}
