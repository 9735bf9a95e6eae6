//! What a command works on.
ghost use Rattle.std.specs.Prelude.{◌≤◌, length};
ghost use Rattle.graph_core.specs.Common.{size, IsSimple};
ghost use Rattle.tree_core.specs.Common.{Fits, shape_of};
ghost use Rattle.move_text.specs.Common.{most_moves};
ghost use Rattle.ear_text.specs.from_ear_core.Common.{FitsEars, ears_of};

use crate::command::GrowNumbers;
use crate::verbs::{
    EarsVerb, GraphVerb, MovesVerb, NumbersVerb, PicksVerb, SimpleGraphVerb, TreeVerb, TreesVerb,
};
use ear_text::ear_core::EarList;
use graph_core::{MultiGraph, Numbers};
use graph_text::Named;
use tree_core::{Moves, Tree};

/// A simple graph.
#[derive(Drop)]
pub struct SimpleGraph {
    pub graph: MultiGraph,
    ghost simple: { IsSimple graph },
}

/// A graph, and a tree whose shores lie below its order.
#[derive(Drop)]
pub struct GivenTree {
    pub named: Named,
    pub tree: Tree,
    ghost fits: { ∥ Fits named.graph.order (shape_of tree) ∥₁ },
}

/// A graph, and a list of picks.
#[derive(Drop)]
pub struct GivenPicks {
    pub named: Named,
    pub picks: Numbers,
}

/// A graph, and two trees whose shores lie below its order.
#[derive(Drop)]
pub struct GivenTrees {
    pub named: Named,
    pub first: Tree,
    pub second: Tree,
    ghost first_fits: { ∥ Fits named.graph.order (shape_of first) ∥₁ },
    ghost second_fits: { ∥ Fits named.graph.order (shape_of second) ∥₁ },
}

/// A graph, a tree whose shores lie below its order, and moves, which are not too many.
#[derive(Drop)]
pub struct GivenMoves {
    pub named: Named,
    pub tree: Tree,
    pub moves: Moves,
    ghost fits: { ∥ Fits named.graph.order (shape_of tree) ∥₁ },
    ghost few: { length moves ≤ most_moves },
}

/// A graph, and a list of ears with the numbers of vertices and edges of it.
#[derive(Drop)]
pub struct GivenEars {
    pub named: Named,
    pub list: EarList,
    ghost fits: { ∥ FitsEars named.graph.order (size named.graph) (ears_of list) ∥₁ },
}

/// The verb of a command with what its files hold, by the files that it reads.
#[derive(Drop)]
pub enum Task {
    /// On a graph.
    OnGraph {
        verb: GraphVerb,
        named: Named,
    },
    /// On a simple graph.
    OnSimpleGraph {
        verb: SimpleGraphVerb,
        simple: SimpleGraph,
    },
    /// On a graph and a tree.
    OnTree {
        verb: TreeVerb,
        given: GivenTree,
    },
    /// On a graph and a list of picks.
    OnPicks {
        verb: PicksVerb,
        given: GivenPicks,
    },
    /// On a graph and a list of ears.
    OnEars {
        verb: EarsVerb,
        given: GivenEars,
    },
    /// On a graph, a tree and moves.
    OnMoves {
        verb: MovesVerb,
        given: GivenMoves,
    },
    /// On a graph and two trees.
    OnTrees {
        verb: TreesVerb,
        given: GivenTrees,
    },
    /// On numbers.
    OnNumbers {
        verb: NumbersVerb,
        growth: GrowNumbers,
    },
}
