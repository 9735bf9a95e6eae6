//! What is said of each ending.
ghost use Rattle.std.specs.Prelude.{◌≡◌, ◌++◌, []};
ghost use Rattle.std.specs.Option.{option_map};
ghost use Rattle.front_words.specs.Saying.{Says};
ghost use Rattle.mcg6_top.specs.Common.{status_in, text_of};
ghost use Rattle.mcg6_front_top.specs.Words.{bad_graph_words, beginning_of, file_words, list_words, lost_words, skipped_words, unwritten_words, run_words};

use crate::clues::Clues;
use crate::skipping::say_skipped;
use front_words::refusals::FileKind;
use front_words::{
    BadFile, Program, Said, say_bad_file, say_bad_line, say_first_lines, say_lost_output,
    say_nothing_written, say_unmatched, say_unread, say_unread_list,
};
use mcg6_encoder::mcg6_reader::{BadLine, InputEnding};
use mcg6_encoder::outside::{Sink, SinkFailed};
use mcg6_top::{CommandLine, ListEnding, ListRunEnding, ListStatus, status_of};

/// The name of the program.
pub const PROGRAM: &str = "mcg6";

/// The status of a run with that end; with none the words matched no row.
pub fn status_in(end: &Option<ListRunEnding<'_>>) -> ListStatus
    ensures { result ≡ status_in end.now }
{
    match end {
        Some(end) => status_of(end),
        None => ListStatus::Usage,
    }
}

// Says nothing.
fn say_nothing<E: Sink>(_errors: &mut E) -> Said
    ensures { Says E.written E.writes E.faults [] result _errors.old _errors.new }
{
    Ok(())
}

/// Says what the end of a run means, or with none that the words matched no row; nothing
/// where each line was told, or the graph6 text written. Takes no memory.
pub fn say_ending<E: Sink>(
    errors: &mut E,
    line: &CommandLine<'_>,
    end: &Option<ListRunEnding<'_>>,
    clues: Clues,
) -> Said
    ensures { Says E.written E.writes E.faults (run_words line.now end.now clues) result errors.old
        errors.new }
{
    match end {
        Some(ListRunEnding::Answered { list, end }) => say_skipping_ending(
            errors, list.file, end, clues,
        ),
        Some(ListRunEnding::Encoded { file, ending }) => say_file_ending(
            errors, file, ending, clues,
        ),
        None => say_unmatched(errors, Program::Mcg6, line.words()),
    }
}

// Says of a list which bad lines were skipped, and how it ended, with the name of its file, if it
// has one.
fn say_skipping_ending<E: Sink>(
    errors: &mut E,
    name: Option<&str>,
    end: &ListEnding,
    clues: Clues,
) -> Said
    ensures { Says E.written E.writes E.faults
        (skipped_words end.now.skipped.items ++ list_words (text_of name.entry) end.now.ending clues)
        result errors.old errors.new }
{
    match say_skipped(errors, &end.skipped) {
        Ok(()) => say_list_ending(errors, name, &end.ending, clues),
        Err(SinkFailed) => Err(SinkFailed),
    }
}

// Says how the encoding of the graph file of that name ended; nothing where its text was written.
fn say_file_ending<E: Sink>(errors: &mut E, name: &str, ending: &InputEnding, clues: Clues) -> Said
    ensures { Says E.written E.writes E.faults (file_words name.now ending.now clues) result
        errors.old errors.new }
{
    match ending {
        InputEnding::Done => say_nothing(errors),
        InputEnding::Bad { found } => say_bad_graph(errors, name, found),
        InputEnding::ReadFault => say_unread(errors, PROGRAM, name, clues.reason),
        InputEnding::WriteFault => say_unwritten(errors, clues.is_abandoned),
        InputEnding::Memory => say_nothing_written(errors, PROGRAM),
    }
}

// The beginning of a file whose line has that number, if it is the first.
fn beginning_of(number: u64, text: &[u8]) -> Option<&[u8]>
    ensures { option_map (λ text. text.now) result ≡ beginning_of number text.now }
{
    if number == 1 { Some(text) } else { None }
}

// Says of a bad graph file its name, where it is outside the format and how, and the line.
fn say_bad_graph<E: Sink>(errors: &mut E, name: &str, found: &BadLine) -> Said
    ensures { Says E.written E.writes E.faults (bad_graph_words name.now found.now) result
        errors.old errors.new }
{
    let text = found.text.as_slice();
    let bad = BadFile {
        name,
        file_kind: FileKind::Graph,
        line: found.number,
        kind: found.kind,
        beginning: beginning_of(found.number, text),
        sizes: None,
        text: Some(text),
    };
    say_bad_file(errors, PROGRAM, &bad)
}

// Says how a list ended, with the name of its file, if it has one; nothing where each line was
// told.
fn say_list_ending<E: Sink>(
    errors: &mut E,
    name: Option<&str>,
    ending: &InputEnding,
    clues: Clues,
) -> Said
    ensures { Says E.written E.writes E.faults (list_words (text_of name.entry) ending.now clues) result
        errors.old errors.new }
{
    match ending {
        InputEnding::Done => say_nothing(errors),
        InputEnding::Bad { found } => {
            say_bad_line(errors, PROGRAM, found.number, found.kind, &found.text)
        }
        InputEnding::ReadFault => say_unread_list(errors, PROGRAM, name, clues.reason),
        InputEnding::WriteFault => say_unwritten(errors, clues.is_abandoned),
        InputEnding::Memory => say_first_lines(errors, PROGRAM),
    }
}

/// Says that the output could not be written whole. Takes no memory.
pub fn say_lost<E: Sink>(errors: &mut E) -> Said
    ensures { Says E.written E.writes E.faults lost_words result errors.old errors.new }
{
    say_lost_output(errors, PROGRAM)
}

// Says that the output could not be written, unless nobody reads it any more.
fn say_unwritten<E: Sink>(errors: &mut E, is_abandoned: bool) -> Said
    ensures { Says E.written E.writes E.faults (unwritten_words is_abandoned) result errors.old errors.new }
{
    if is_abandoned {
        say_nothing(errors)
    } else {
        say_lost(errors)
    }
}
