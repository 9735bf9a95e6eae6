//! The state of reading a tree.
ghost use Rattle.std.specs.Prelude.{◌≤◌};
ghost use Rattle.tree_text.specs.TreeFormat.{most_nodes};

use crate::place::Progress;
use std::alloc::Global;

/// The nodes read so far: their number, and the part of the tree that they give.
#[derive(Drop)]
pub struct NodesRead {
    pub nodes: u32,
    pub progress: Progress,
    ghost few: { nodes ≤ most_nodes },
}

/// The format, for graphs of this order.
#[derive(Drop)]
pub struct TreeFormat {
    pub alloc: Global,
    pub order: u32,
    ghost few: { order ≤ 128 },
}
