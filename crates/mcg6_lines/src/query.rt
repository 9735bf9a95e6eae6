//! What is asked of each line.

use decomposer::NamedOrder;

/// A property of a graph.
#[derive(Clone, Copy, Debug, PartialEq, Eq)]
pub enum Property {
    /// The graph is matching covered.
    Covered,
    /// It is not.
    Uncovered,
    /// It has a perfect matching.
    Perfect,
    /// It is a brick: covered, not bipartite, and without a nontrivial tight cut.
    Brick,
    /// It is a brace: covered, bipartite, and without a nontrivial tight cut.
    Brace,
    /// It is bicritical: it has at least two vertices and a perfect matching, and there is one
    /// without any two of its vertices.
    Bicritical,
    /// It is covered and has a nontrivial tight cut.
    Composite,
    /// It is covered, and so many leaves of its tight cut decompositions are bricks.
    Bricks { count: u32 },
    /// It is covered, and so many leaves of its tight cut decompositions are braces.
    Braces { count: u32 },
}

/// What is asked of a graph.
#[derive(Clone, Copy, Debug, PartialEq, Eq)]
pub enum Query {
    /// Its kind, and the numbers of its bricks and braces.
    Kinds,
    /// The leaves of its decomposition in this order, as graphs.
    Leaves { order: NamedOrder },
    /// Its elementary components, as graphs.
    Elementary,
    /// A maximum matching, and its Gallai-Edmonds sets.
    Matching,
    /// The candidates for a tight cut.
    Cuts,
    /// An ear decomposition.
    Ears,
    /// The canonical text of its graph file.
    Graph,
    /// The line itself, if the graph has this property.
    Select { property: Property },
}
