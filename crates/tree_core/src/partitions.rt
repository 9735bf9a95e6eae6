//! Lists of partitions.

use contraction::Partition;
use graph_core::listed::Listed;

/// A list of partitions, seen by contracts as a list of numbers of vertices with blocks.
pub type Partitions = Listed<Partition>;
