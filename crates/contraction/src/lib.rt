//! Partitions of the vertices of a graph into blocks, and the quotient: the underlying simple graph
//! of the contraction at a partition.
//!
//! `Partition` keeps its blocks in increasing order of their names; the name of a block is its
//! highest-numbered vertex. Its calls `singles`, `merge`, `is_union` and `blocks_in` are the
//! definitions of graph_core's specs `Partitions` and `Shores`. `quotient` returns a `Contracted`:
//! the quotient graph, and for each of its edges the `remembered` edges of the graph between the
//! two blocks; `lift_set` maps a set of places to vertices. `PlacedEdges` has the edges between any
//! two blocks. `lift` takes a matching of the quotient to edges of the graph.
//!
//! `lift_law` and `projection_law` carry perfect matchings up and down; `covered_quotient_law` and
//! `tight_quotient_law` relate the quotient to the contraction, and `merged_quotients_law` says how
//! quotients behave when a tight shore is merged. Depends on `graph_core`, `match_core`, `indexmap`
//! and `itertools`. Source: Lovász 1987.
#![tactic(auto)]

mod contracted;
mod edge_rows;
mod graph_alone;
mod laws;
mod lifting;
mod partition;
mod place_pairs;
mod placed_edges;

pub use contracted::{Contracted, quotient};
pub use graph_alone::quotient_graph;
pub use laws::{
    covered_quotient_law, lift_law, merged_quotients_law, projection_law, tight_quotient_law,
};
pub use lifting::lift;
pub use partition::{Partition, name_of};
pub use placed_edges::PlacedEdges;
