//! What a file is read as.

/// What a file of a command is read as.
#[derive(Clone, Copy, Debug, PartialEq, Eq)]
pub enum FileKind {
    /// A graph, in either version of the graph format.
    Graph,
    /// A simple graph, in graph6.
    Graph6,
    /// A tree.
    Tree,
    /// A list of picks.
    Picks,
    /// A list of ears.
    Ears,
    /// A list of moves.
    Moves,
}
