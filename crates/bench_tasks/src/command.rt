//! The commands, with the names of their files and their numbers.
ghost use Rattle.std.specs.Prelude.{◌≤◌};
ghost use Rattle.bench_tasks.specs.Commands.{most_pieces};

use crate::verbs::{
    EarsVerb, GraphVerb, MovesVerb, NumbersVerb, PicksVerb, SimpleGraphVerb, TreeVerb, TreesVerb,
};

/// What a graph grows from.
#[derive(Clone, Copy)]
pub struct GrowNumbers {
    /// The number from which the random words come.
    pub seed: u32,
    /// How many pieces the graph has.
    pub pieces: u32,
    ghost some: { 1 ≤ pieces },
    ghost few: { pieces ≤ most_pieces },
}

/// A command: its verb with the names of its files, by the files that it reads.
#[derive(Clone, Copy, Drop)]
pub enum Command<'a> {
    /// On a graph.
    OnGraph {
        verb: GraphVerb,
        graph_file: &'a str,
    },
    /// On a simple graph.
    OnSimpleGraph {
        verb: SimpleGraphVerb,
        graph_file: &'a str,
    },
    /// On a graph and a tree.
    OnTree {
        verb: TreeVerb,
        graph_file: &'a str,
        tree_file: &'a str,
    },
    /// On a graph and a list of picks.
    OnPicks {
        verb: PicksVerb,
        graph_file: &'a str,
        picks_file: &'a str,
    },
    /// On a graph and a list of ears.
    OnEars {
        verb: EarsVerb,
        graph_file: &'a str,
        ears_file: &'a str,
    },
    /// On a graph, a tree and moves.
    OnMoves {
        verb: MovesVerb,
        graph_file: &'a str,
        tree_file: &'a str,
        moves_file: &'a str,
    },
    /// On a graph and two trees.
    OnTrees {
        verb: TreesVerb,
        graph_file: &'a str,
        first_file: &'a str,
        second_file: &'a str,
    },
    /// On numbers; it reads no file.
    OnNumbers {
        verb: NumbersVerb,
        growth: GrowNumbers,
    },
}
