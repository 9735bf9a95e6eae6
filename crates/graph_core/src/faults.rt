//! Errors of an edge that is added.

use thiserror::Error;

/// Why an edge was not added. The graph is then unchanged.
#[derive(Clone, Copy, Debug, PartialEq, Eq, Error)]
pub enum AddFault {
    /// An end is 0 or greater than the order.
    #[error("an end is out of range")]
    Range,
    /// Both ends are in range and equal.
    #[error("the two ends are equal")]
    Loop,
    /// The graph has `MOST_EDGES` edges already.
    #[error("the graph is full")]
    TooMany,
    /// Out of memory.
    #[error("out of memory")]
    Memory,
}
