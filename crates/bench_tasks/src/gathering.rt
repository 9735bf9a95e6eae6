//! The task that the files of a command make of it.
ghost use Rattle.std.specs.Prelude.{IfErr, IfOk};
ghost use Rattle.bench_tasks.specs.Common.{CarriesFile, CarriesFirstSizes, GathersAnswered, asked, file_names, files_of, loaded, Loads, task_of, ReadsAs, IsTaskOf};

use crate::command::Command;
use crate::file_sets::{load_ears, load_moves, load_picks, load_tree, load_trees};
use crate::formats::{Graph6File, GraphFile};
use crate::loading::load_first;
use crate::stop::LoadStop;
use crate::tasks::Task;
use outside::{Reasons, Shelf};
use std::alloc::Global;

/// Reads and parses the files of the command, in the order of the words, up to the first that
/// stops it. The stop has what the loader knows of this file: its bytes are those that its read
/// returned, so they take no memory of their own.
pub fn gather<'a, R: Reasons<S>, S: Shelf>(
    alloc: Global,
    command: Command<'a>,
    reasons: &R,
    shelf: &mut S,
) -> Result<Task, LoadStop<'a>>
    ensures loads { Loads S.files S.steady S.faults task_of
        (λ files. loaded files (asked command.entry))
        result shelf.old shelf.new }
    ensures reads { ReadsAs S.reads (file_names (asked command.entry)) result shelf.old shelf.new }
    ensures answered { GathersAnswered S.reads (asked command.entry) result shelf.old shelf.new }
    // A stop carries the file of the command that stopped it, and why it could not be read.
    ensures carries { IfErr result
        (CarriesFile (files_of (asked command.entry)) (R.reason shelf.new)) }
    // The sizes that it carries are those of the graph that the first file stands for.
    ensures sized { IfErr result
        (CarriesFirstSizes S.reads (file_names (asked command.entry)) shelf.old) }
    ensures asked { IfOk result (λ task. IsTaskOf (asked command.entry) (task_of task)) }
{
    match command {
        Command::OnGraph { verb, graph_file } => load_first(
            alloc, &GraphFile, graph_file, reasons, shelf,
        ).map(|named| Task::OnGraph { verb, named }),
        Command::OnSimpleGraph { verb, graph_file } => {
            load_first(alloc, &Graph6File, graph_file, reasons, shelf).map(
                |simple| Task::OnSimpleGraph { verb, simple },
            )
        }
        Command::OnTree {
            verb,
            graph_file,
            tree_file,
        } => load_tree(alloc, graph_file, tree_file, reasons, shelf).map(|given| Task::OnTree {
            verb,
            given,
        }),
        Command::OnPicks {
            verb,
            graph_file,
            picks_file,
        } => load_picks(alloc, graph_file, picks_file, reasons, shelf).map(|given| Task::OnPicks {
            verb,
            given,
        }),
        Command::OnEars {
            verb,
            graph_file,
            ears_file,
        } => load_ears(alloc, graph_file, ears_file, reasons, shelf).map(|given| Task::OnEars {
            verb,
            given,
        }),
        Command::OnMoves {
            verb,
            graph_file,
            tree_file,
            moves_file,
        } => load_moves(alloc, graph_file, tree_file, moves_file, reasons, shelf).map(
            |given| Task::OnMoves { verb, given },
        ),
        Command::OnTrees {
            verb,
            graph_file,
            first_file,
            second_file,
        } => load_trees(alloc, graph_file, first_file, second_file, reasons, shelf).map(
            |given| Task::OnTrees { verb, given },
        ),
        Command::OnNumbers { verb, growth } => Ok(Task::OnNumbers { verb, growth }),
    }
}
