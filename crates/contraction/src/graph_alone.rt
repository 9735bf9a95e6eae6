//! The quotient graph of a graph at a partition, without remembered edges.
ghost use Rattle.std.specs.Prelude.{◌≡◌, IfOk};
ghost use Rattle.graph_core.specs.Common.{quotient};

use crate::Partition;
use crate::place_pairs::{graph_with, joined_places};
use graph_core::MultiGraph;
use std::alloc::{AllocError as Memory, Global};

/// The graph of the quotient that `quotient` returns. No remembered edges are listed. Takes O(n^2 +
/// m) time; the only error is `Memory`.
pub fn quotient_graph(alloc: Global, g: &MultiGraph, p: &Partition) -> Result<MultiGraph, Memory>
    requires { p.now.order ≡ g.now.order }
    ensures { IfOk result (λ q. q ≡ quotient g.now p.now.blocks) }
{
    g.keeps_limits();
    p.keeps_partition();
    let (_, pairs) = joined_places(alloc, g, p)?;
    graph_with(alloc, p.len() as u32, &pairs)
}
