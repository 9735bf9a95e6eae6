//! What the words ask for: one command for each row of the table of words.
ghost use Rattle.std.specs.Prelude.{◌≡◌, map, string_bytes};
ghost use Rattle.std.specs.Option.{option_map};
ghost use Rattle.bench_tasks.specs.Common.{OnGraph, OnTrees, command_of, graph_command, grow_command, pair_command, triple_command, asked};

use crate::command::{Command, GrowNumbers};
use crate::verbs::{
    EarsVerb, GraphVerb, MovesVerb, NumbersVerb, PicksVerb, SimpleGraphVerb, TreeVerb, TreesVerb,
};
use decomposer::NamedOrder;
use graph_core::line_text::number;
use grow_gen::MOST_PIECES;

// The command to grow a graph from the numbers that the two words write, if they write such
// numbers.
fn grow_command<'a>(seed: &str, pieces: &str) -> Option<Command<'a>>
    ensures { option_map asked result ≡ grow_command seed.now pieces.now }
{
    let seed = number(seed.as_bytes())?;
    let pieces = number(pieces.as_bytes())?;
    if (1..=MOST_PIECES).contains(&pieces) {
        Some(Command::OnNumbers {
            verb: NumbersVerb::Grow,
            growth: GrowNumbers { seed, pieces },
        })
    } else {
        None
    }
}

// The command of that verb on the graph of that file.
fn on_graph(verb: GraphVerb, graph_file: &str) -> Command<'_>
    ensures { asked result ≡ OnGraph verb graph_file.now }
{
    Command::OnGraph { verb, graph_file }
}

// The command of that verb on the graph of a file and the trees of two.
fn on_trees<'a>(
    verb: TreesVerb,
    graph_file: &'a str,
    first_file: &'a str,
    second_file: &'a str,
) -> Command<'a>
    ensures { asked result ≡ OnTrees verb graph_file.now first_file.now second_file.now }
{
    Command::OnTrees {
        verb,
        graph_file,
        first_file,
        second_file,
    }
}

// The command that a word and the name of a file ask for.
fn graph_command<'a>(word: &str, graph_file: &'a str) -> Option<Command<'a>>
    ensures { option_map asked result ≡ graph_command word.now graph_file.now }
{
    match word {
        "analyse" => Some(on_graph(GraphVerb::Analyse, graph_file)),
        "convert" => Some(on_graph(GraphVerb::Convert, graph_file)),
        "analyse6" => Some(Command::OnSimpleGraph {
            verb: SimpleGraphVerb::Analyse6,
            graph_file,
        }),
        "ears" => Some(on_graph(GraphVerb::Ears, graph_file)),
        _ => None,
    }
}

// The command that a word, the name of a file, and a second name or the word of an order ask for;
// or a word and two numbers.
fn pair_command<'a>(word: &str, first: &'a str, second: &'a str) -> Option<Command<'a>>
    ensures { option_map asked result ≡ pair_command word.now first.now second.now }
{
    match word {
        "check" => Some(Command::OnTree {
            verb: TreeVerb::Check,
            graph_file: first,
            tree_file: second,
        }),
        "checkears" => Some(Command::OnEars {
            verb: EarsVerb::CheckEars,
            graph_file: first,
            ears_file: second,
        }),
        "grow" => grow_command(first, second),
        "decompose" => NamedOrder::of_word(second).map(|order| on_graph(
            GraphVerb::Decompose { order },
            first,
        )),
        _ => None,
    }
}

// The command that a word and the names of three files, or of one, the word `script` and a
// further one ask for.
fn triple_command<'a>(
    word: &str,
    graph_file: &'a str,
    second: &'a str,
    third: &'a str,
) -> Option<Command<'a>>
    ensures { option_map asked result ≡
        triple_command word.now graph_file.now second.now third.now }
{
    match word {
        "replay" => Some(Command::OnMoves {
            verb: MovesVerb::Replay,
            graph_file,
            tree_file: second,
            moves_file: third,
        }),
        "compare" => Some(on_trees(TreesVerb::Compare, graph_file, second, third)),
        "script" => Some(on_trees(TreesVerb::Script, graph_file, second, third)),
        "decompose" if second == "script" => Some(Command::OnPicks {
            verb: PicksVerb::DecomposeBy,
            graph_file,
            picks_file: third,
        }),
        _ => None,
    }
}

/// The command that the words ask for. Takes no memory.
pub fn command_of(words: &[String]) -> Option<Command<'_>>
    ensures { option_map asked result ≡ command_of (map string_bytes words.now) }
{
    match words {
        [word, first] => graph_command(word.as_str(), first.as_str()),
        [word, first, second] => pair_command(word.as_str(), first.as_str(), second.as_str()),
        [word, first, second, third] => triple_command(
            word.as_str(),
            first.as_str(),
            second.as_str(),
            third.as_str(),
        ),
        _ => None,
    }
}
