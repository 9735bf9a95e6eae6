//! Where the fault of an input is.

use vset_core::VSet;

/// Where a node of a tree of cuts is.
#[derive(Clone, Copy, Debug, PartialEq)]
pub struct NodePlace {
    /// The number of steps on the path from the root to the node.
    pub depth: u32,
    /// Which of these steps, counted from 1, lead to the tree where the shore is one block. The
    /// others lead to the tree where the complement of the shore is one block.
    pub merged: VSet,
    /// The shore of the cut at the node. `None` if the node is a leaf.
    pub shore: Option<VSet>,
}

/// One of the two ears of a step.
#[derive(Clone, Copy, Debug, PartialEq, Eq)]
pub enum EarOfTwo {
    /// The one that is named first.
    First,
    /// The other one.
    Second,
}

/// Where the fault of a step of an ear list is.
#[derive(Clone, Copy, Debug, PartialEq, Eq)]
pub struct EarPlace {
    /// The ear at fault. `None` if the step has one ear, or if no ear is at fault by itself.
    pub ear: Option<EarOfTwo>,
    /// The first edge of the ear at which the fault shows. `None` if it does not show at an edge.
    pub edge: Option<u32>,
}
