//! The verbs of the commands, by the files that they read.
//!
//! Commands that read the same files differ in their verbs alone. So a new command on files that
//! another command reads is one more verb here.

use decomposer::NamedOrder;

/// What is done with a graph.
#[derive(Clone, Copy)]
pub enum GraphVerb {
    /// Its structure is reported.
    Analyse,
    /// Its canonical text is written, with names.
    Convert,
    /// It is decomposed, in a named order.
    Decompose { order: NamedOrder },
    /// An ear list of it is written.
    Ears,
}

/// What is done with a simple graph.
#[derive(Clone, Copy)]
pub enum SimpleGraphVerb {
    /// Its structure and its graph6 text are reported.
    Analyse6,
}

/// What is done with a graph and a tree.
#[derive(Clone, Copy)]
pub enum TreeVerb {
    /// The tree is judged: is it a derivation of the graph?
    Check,
}

/// What is done with a graph and a list of picks.
#[derive(Clone, Copy)]
pub enum PicksVerb {
    /// The graph is decomposed, in the order of the picks.
    DecomposeBy,
}

/// What is done with a graph and a list of ears.
#[derive(Clone, Copy)]
pub enum EarsVerb {
    /// The list is judged: is it an ear list of the graph?
    CheckEars,
}

/// What is done with a graph, a tree and moves.
#[derive(Clone, Copy)]
pub enum MovesVerb {
    /// The moves are made on the tree, a derivation of the graph.
    Replay,
}

/// What is done with a graph and two trees.
#[derive(Clone, Copy)]
pub enum TreesVerb {
    /// The leaves of the trees, derivations of the graph, are paired.
    Compare,
    /// Moves that turn the first tree into the second are written.
    Script,
}

/// What is done with numbers.
#[derive(Clone, Copy)]
pub enum NumbersVerb {
    /// A graph grows from a seed.
    Grow,
}
