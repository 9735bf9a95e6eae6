//! The formats of the files that commands name.
ghost use Rattle.std.specs.Prelude.{◌≡◌, ◌<◌, ◌≤◌, ◌-◌, ◌^◌, ℕ, List, length, Result, IfOk};
ghost use Rattle.std.specs.declared.option.Option.TheVariants.{None, Some};
ghost use Rattle.graph_core.specs.from_line_text.Common.{reading_of, ReadsText};
ghost use Rattle.graph_core.specs.Common.{Graph, size};
ghost use Rattle.graph_core.specs.from_line_text.declared.faults.FaultKind.{FaultKind};
ghost use Rattle.graph_text.specs.Common.{NamedGraph, either_version, named_graph};
ghost use Rattle.graph6_text.specs.Common.{outcome_of};
ghost use Rattle.tree_core.specs.Common.{Fits, Shape, shape_of, PlainMove, moves_of};
ghost use Rattle.move_text.specs.from_tree_text.Common.{pick_format, tree_format};
ghost use Rattle.move_text.specs.Common.{most_moves, move_format};
ghost use Rattle.ear_text.specs.from_ear_core.Common.{FitsEars, PlainEars, ears_of};
ghost use Rattle.ear_text.specs.EarFormat.{ear_format};
ghost use Rattle.refusals.specs.declared.file_kind.FileKind.TheVariants as kinds;
ghost use Rattle.bench_tasks.specs.Loads.{simple_graph_in};

use crate::tasks::SimpleGraph;
use ear_text::ear_core::EarList;
use ear_text::read_ears;
use graph_core::line_text::TextFault;
use graph_core::{MultiGraph, Numbers};
use graph_text::{Named, read_any};
use graph6_text::read_graph6;
use move_text::read_moves;
use move_text::tree_text::{read_picks, read_tree};
use refusals::FileKind;
use std::alloc::Global;
use tree_core::{Moves, Tree};

/// A format of files. The ghost member `reading` says what a text stands for, or its first fault.
pub trait FileFormat {
    ghost use Rattle.std.specs.Prelude.{◌≡◌, List, ℕ, Result, ◌<◌, ◌-◌, ◌^◌, length, IfOk};
    ghost use Rattle.graph_core.specs.from_line_text.TextReads.{ReadsText};
    ghost use Rattle.graph_core.specs.from_line_text.declared.faults.FaultKind.{FaultKind};
    ghost use Rattle.std.specs.declared.option.Option.{Option};
    ghost use Rattle.refusals.specs.declared.file_kind.FileKind.{FileKind};

    /// What a text stands for.
    type Value: Drop;

    // The same as a plain value.
    ghost Meaning: { Type 0 };

    ghost meaning: { Self.Value → Meaning };

    // What comes of a text.
    ghost reading: { Self → List ℕ → Result Meaning (ℕ × FaultKind) };

    // What each value that is read keeps.
    ghost keeps: { Self → Self.Value → Type 0 };

    // What a file is read as, and the numbers of the vertices and of the edges of the graph that it
    // is for, if it is for one.
    ghost kind: { Self → FileKind };

    ghost sizes: { Self → Option (ℕ × ℕ) };

    /// What a file of this format is read as. Takes no memory.
    fn kind(&self) -> FileKind
        ensures { result ≡ kind self.now };

    /// The numbers of the vertices and of the edges of the graph that the file is for, if it is for
    /// one. Takes no memory.
    fn sizes(&self) -> Option<(u32, u32)>
        ensures { result ≡ sizes self.now };

    /// Reads a text. Lack of memory may come at any time.
    fn read(&self, alloc: Global, bytes: &[u8]) -> Result<Self::Value, TextFault>
        requires { length bytes.now < 2 ^ 32 - 1 }
        ensures reads { ReadsText meaning result (reading self.now bytes.now) }
        ensures keeps { IfOk result (keeps self.now) };
}

/// A graph in either version of the graph format.
#[derive(Clone, Copy, Drop)]
pub struct GraphFile;

impl FileFormat for GraphFile {
    type Value = Named;

    ghost Meaning = { NamedGraph };

    ghost meaning = { named_graph };

    ghost reading = { λ _. reading_of either_version };

    ghost keeps = { λ _ _. Unit {0} };

    ghost kind = { λ _. kinds.Graph };

    ghost sizes = { λ _. None };

    fn kind(&self) -> FileKind {
        FileKind::Graph
    }

    fn sizes(&self) -> Option<(u32, u32)> {
        None
    }

    fn read(&self, alloc: Global, bytes: &[u8]) -> Result<Named, TextFault> {
        read_any(alloc, bytes)
    }
}

/// A simple graph in graph6.
#[derive(Clone, Copy, Drop)]
pub struct Graph6File;

impl FileFormat for Graph6File {
    type Value = SimpleGraph;

    ghost Meaning = { Graph };

    ghost meaning = { simple_graph_in };

    ghost reading = { λ _. outcome_of };

    ghost keeps = { λ _ _. Unit {0} };

    ghost kind = { λ _. kinds.Graph6 };

    ghost sizes = { λ _. None };

    fn kind(&self) -> FileKind {
        FileKind::Graph6
    }

    fn sizes(&self) -> Option<(u32, u32)> {
        None
    }

    fn read(&self, alloc: Global, bytes: &[u8]) -> Result<SimpleGraph, TextFault> {
        match read_graph6(alloc, bytes) {
            Ok(graph) => Ok(SimpleGraph { graph }),
            Err(fault) => Err(fault),
        }
    }
}

/// A tree for this graph.
#[derive(Clone, Copy, Drop)]
pub struct TreeFile<'a> {
    pub graph: &'a MultiGraph,
}

impl<'a> FileFormat for TreeFile<'a> {
    type Value = Tree;

    ghost Meaning = { Shape };

    ghost meaning = { shape_of };

    ghost reading = { λ format. reading_of (tree_format format.graph.now.order) };

    ghost keeps = { λ format tree. Fits format.graph.now.order (shape_of tree) };

    ghost kind = { λ _. kinds.Tree };

    ghost sizes = { λ format. Some (format.graph.now.order, size format.graph.now) };

    fn kind(&self) -> FileKind {
        FileKind::Tree
    }

    fn sizes(&self) -> Option<(u32, u32)> {
        Some((self.graph.order(), self.graph.size()))
    }

    fn read(&self, alloc: Global, bytes: &[u8]) -> Result<Tree, TextFault> {
        let n = self.graph.order();
        read_tree(alloc, bytes, n)
    }
}

/// A list of ears for this graph.
#[derive(Clone, Copy, Drop)]
pub struct EarFile<'a> {
    pub graph: &'a MultiGraph,
}

impl<'a> FileFormat for EarFile<'a> {
    type Value = EarList;

    ghost Meaning = { PlainEars };

    ghost meaning = { ears_of };

    ghost reading = { λ format. reading_of (ear_format format.graph.now.order (size format.graph.now)) };

    ghost keeps = { λ format list. FitsEars format.graph.now.order (size format.graph.now) (ears_of list) };

    ghost kind = { λ _. kinds.Ears };

    ghost sizes = { λ format. Some (format.graph.now.order, size format.graph.now) };

    fn kind(&self) -> FileKind {
        FileKind::Ears
    }

    fn sizes(&self) -> Option<(u32, u32)> {
        Some((self.graph.order(), self.graph.size()))
    }

    fn read(&self, alloc: Global, bytes: &[u8]) -> Result<EarList, TextFault> {
        let n = self.graph.order();
        let m = self.graph.size();
        read_ears(alloc, bytes, n, m)
    }
}

/// Moves on trees for this graph.
#[derive(Clone, Copy, Drop)]
pub struct MoveFile<'a> {
    pub graph: &'a MultiGraph,
}

impl<'a> FileFormat for MoveFile<'a> {
    type Value = Moves;

    ghost Meaning = { List PlainMove };

    ghost meaning = { moves_of };

    ghost reading = { λ format. reading_of (move_format format.graph.now.order) };

    ghost keeps = { λ _ moves. length moves ≤ most_moves };

    ghost kind = { λ _. kinds.Moves };

    ghost sizes = { λ format. Some (format.graph.now.order, size format.graph.now) };

    fn kind(&self) -> FileKind {
        FileKind::Moves
    }

    fn sizes(&self) -> Option<(u32, u32)> {
        Some((self.graph.order(), self.graph.size()))
    }

    fn read(&self, alloc: Global, bytes: &[u8]) -> Result<Moves, TextFault> {
        let n = self.graph.order();
        read_moves(alloc, bytes, n)
    }
}

/// A list of picks.
#[derive(Clone, Copy, Drop)]
pub struct PickFile;

impl FileFormat for PickFile {
    type Value = Numbers;

    ghost Meaning = { List ℕ };

    ghost meaning = { λ picks. picks };

    ghost reading = { λ _. reading_of pick_format };

    ghost keeps = { λ _ _. Unit {0} };

    ghost kind = { λ _. kinds.Picks };

    ghost sizes = { λ _. None };

    fn kind(&self) -> FileKind {
        FileKind::Picks
    }

    fn sizes(&self) -> Option<(u32, u32)> {
        None
    }

    fn read(&self, alloc: Global, bytes: &[u8]) -> Result<Numbers, TextFault> {
        read_picks(alloc, bytes)
    }
}
