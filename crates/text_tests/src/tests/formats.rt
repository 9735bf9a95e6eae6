//! The runner of all formats: a text is read and written again, and that is what the row of a
//! table says.
ghost use Rattle.std.specs.Prelude.{◌<◌, ◌≤◌, ◌-◌, ◌^◌, length};

use ear_text::{read_ears, write_ears};
use graph_core::MultiGraph;
use graph_core::line_text::{FaultKind, TextFault};
use graph_core::vset_core::MOST_VERTICES;
use graph_text::{Names, read_any, read_graph, write_graph, write_named};
use graph6_text::{read_graph6, write_graph6};
use move_text::tree_text::{read_picks, read_tree, write_tree};
use move_text::{read_moves, write_moves};
use std::alloc::{AllocError as Memory, Global};
use std::test::Fail;

/// A text format, with the numbers of vertices and edges for which its texts are read.
#[derive(Clone, Copy)]
pub enum Format {
    VersionOne,
    EitherVersion,
    Graph6,
    Tree { n: u32 },
    Picks,
    Moves { n: u32 },
    Ears { n: u32, m: u32 },
}

/// What is written of the value that a text stands for.
#[derive(Clone, Copy)]
pub enum Answer {
    /// The text itself.
    Same,
    /// This text.
    Written(&'static str),
    /// None, for the first fault of the text, by its line and its kind.
    Fault(u32, FaultKind),
}

/// A text, and its answer.
pub type TextRow = (&'static str, Answer);

/// How texts begin, and for each of some answers what follows in the texts that have it.
pub type Beginning = (&'static str, &'static [(Answer, &'static [&'static str])]);

// A graph in version 1, which has at most 64 vertices and 512 edges.
fn plain(alloc: Global, graph: &MultiGraph) -> Result<Vec<u8>, TextFault> {
    if graph.order() > 64 || graph.size() > 512 {
        return Err(TextFault::Memory);
    }
    Ok(write_graph(alloc, graph)?)
}

// A graph in version 2, whose names are as many as its vertices.
fn named(alloc: Global, graph: &MultiGraph, names: &Names) -> Result<Vec<u8>, TextFault> {
    if names.len() != graph.order() as usize {
        return Err(TextFault::Memory);
    }
    Ok(write_named(alloc, graph, names)?)
}

// A graph in the version that it was read in.
fn again(alloc: Global, text: &[u8]) -> Result<Vec<u8>, TextFault>
    requires { length text.now < 2 ^ 32 - 1 }
{
    let read = read_any(alloc, text)?;
    match &read.names {
        Some(names) => named(alloc, &read.graph, names),
        None => plain(alloc, &read.graph),
    }
}

// A list of picks, which the program itself never writes.
fn picks_again(alloc: Global, picks: &[u32]) -> Result<Vec<u8>, Memory> {
    let count = picks.len();
    let mut text = format!(in alloc; "s mcg {count}\n")?;
    for pick in picks {
        write!(text, "pick {pick}\n")?;
    }
    Ok(text.into_bytes())
}

// A derivation over 1 to `n`.
fn tree_again(alloc: Global, text: &[u8], n: u32) -> Result<Vec<u8>, TextFault>
    requires text { length text.now < 2 ^ 32 - 1 }
    requires order { n ≤ MOST_VERTICES }
{
    let tree = read_tree(alloc, text, n)?;
    Ok(write_tree(alloc, &tree, n)?)
}

// Moves on trees over 1 to `n`.
fn moves_again(alloc: Global, text: &[u8], n: u32) -> Result<Vec<u8>, TextFault>
    requires text { length text.now < 2 ^ 32 - 1 }
    requires order { n ≤ MOST_VERTICES }
{
    let moves = read_moves(alloc, text, n)?;
    Ok(write_moves(alloc, &moves, n)?)
}

// An ear list for `n` vertices and `m` edges.
fn ears_again(alloc: Global, text: &[u8], n: u32, m: u32) -> Result<Vec<u8>, TextFault>
    requires text { length text.now < 2 ^ 32 - 1 }
    requires order { n ≤ MOST_VERTICES }
    requires size { m ≤ 2048 }
{
    let ears = read_ears(alloc, text, n, m)?;
    Ok(write_ears(alloc, &ears, n, m)?)
}

/// What is written of the value that a text stands for, or the first fault of the text.
pub fn rewritten(alloc: Global, format: Format, text: &[u8]) -> Result<Vec<u8>, TextFault>
    requires { length text.now < 2 ^ 32 - 1 }
{
    match format {
        Format::VersionOne => plain(alloc, &read_graph(alloc, text)?),
        Format::EitherVersion => again(alloc, text),
        Format::Graph6 => Ok(write_graph6(alloc, &read_graph6(alloc, text)?)?),
        Format::Tree { n } => tree_again(alloc, text, n.min(MOST_VERTICES)),
        Format::Picks => Ok(picks_again(alloc, read_picks(alloc, text)?.as_slice())?),
        Format::Moves { n } => moves_again(alloc, text, n.min(MOST_VERTICES)),
        Format::Ears { n, m } => ears_again(alloc, text, n.min(MOST_VERTICES), m.min(2048)),
    }
}

/// Whether the text has this answer.
pub fn has_answer(alloc: Global, format: Format, text: &[u8], answer: Answer) -> bool {
    if text.len() > 1_000_000 {
        return false;
    }
    match (rewritten(alloc, format, text), answer) {
        (Ok(written), Answer::Same) => written.as_slice() == text,
        (Ok(written), Answer::Written(wanted)) => written.as_slice() == wanted.as_bytes(),
        (Err(TextFault::At { line, kind }), Answer::Fault(at, wanted)) => {
            line == at && kind == wanted
        }
        _ => false,
    }
}

/// Fails with the first text whose answer is not that of its row.
pub fn all_are_so(alloc: Global, format: Format, rows: &[TextRow]) -> Result<(), Fail> {
    for (text, answer) in rows {
        if !has_answer(alloc, format, text.as_bytes(), *answer) {
            return Err(Fail::new(*text));
        }
    }
    Ok(())
}

/// Fails with the first end of a text whose answer is another one.
pub fn all_begin_so(alloc: Global, format: Format, rows: &[Beginning]) -> Result<(), Fail> {
    for (start, answers) in rows {
        for (answer, ends) in *answers {
            for end in *ends {
                let text = format!(in alloc; "{start}{end}")?;
                if !has_answer(alloc, format, text.as_bytes(), *answer) {
                    return Err(Fail::new(*end));
                }
            }
        }
    }
    Ok(())
}

/// A beginning, a piece with the number of its copies, and an end.
pub type LongText = (&'static str, &'static str, usize, &'static str);

/// The whole of a long text.
pub fn long_text(alloc: Global, (front, piece, many, end): &LongText) -> Result<String, Memory> {
    let mut text = String::from_str(alloc, front)?;
    for _ in 0..*many {
        text.push_str(piece)?;
    }
    text.push_str(end)?;
    Ok(text)
}

/// Whether the long text has this answer.
pub fn long_has_answer(
    alloc: Global,
    format: Format,
    parts: &LongText,
    answer: Answer,
) -> Result<bool, Memory> {
    let text = long_text(alloc, parts)?;
    Ok(has_answer(alloc, format, text.as_bytes(), answer))
}
