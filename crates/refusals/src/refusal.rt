//! Refusals.

use crate::faults::{CoverFault, EarFault, NodeFault, StuckFault};
use crate::places::{EarPlace, NodePlace};

/// Why an input is refused. Trees, nodes, steps and moves are counted from 1, and nodes in
/// preorder. The place of a node is left out if more than 128 steps lead to it.
#[derive(Clone, Copy, Debug, PartialEq)]
pub enum Refusal {
    /// The graph is not matching covered.
    Graph {
        fault: CoverFault,
    },
    /// A tree is not a tight cut decomposition: this is its first node with a fault.
    Tree {
        tree: u32,
        node: u32,
        place: Option<NodePlace>,
        fault: NodeFault,
    },
    /// A list is not an ear decomposition: this is its first step with a fault.
    Ears {
        step: u32,
        place: EarPlace,
        fault: EarFault,
    },
    /// This move has no result.
    Stuck {
        step: u32,
        fault: StuckFault,
    },
    /// The tree that this move makes is not a tight cut decomposition: this is its first node with
    /// a fault.
    Move {
        step: u32,
        node: u32,
        place: Option<NodePlace>,
        fault: NodeFault,
    },
}
