//! What is said of each ending.
ghost use Rattle.std.specs.Prelude.{◌≡◌, [], map, string_bytes};
ghost use Rattle.std.specs.Option.{option_map};
ghost use Rattle.bench_top.specs.from_bench_tasks.Common.{bytes_carried};
ghost use Rattle.front_words.specs.Saying.{Says};
ghost use Rattle.front_top.specs.Words.{bad_words, carried_line, lost_words, refusal_words, run_words, stop_words, unread_words};

use bench_top::bench_tasks::{FaultyFile, LoadStop, UnreadFile};
use bench_top::outside::Sink;
use bench_top::{RunEnding, Status};
use front_words::refusals::Refusal;
use front_words::{
    BadFile, Program, Said, line_at, say_bad_file, say_lost_output, say_nothing_written,
    say_refusal, say_unmatched, say_unread,
};
use line_text::FaultKind;

// The name of the program.
const PROGRAM: &str = "mcg";

// Says nothing.
fn say_nothing<E: Sink>(_errors: &mut E) -> Said
    ensures { Says E.written E.writes E.faults [] result _errors.old _errors.new }
{
    Ok(())
}

// The bytes of a bad file, if it is not too long.
fn bytes_of<'a>(found: &'a FaultyFile<'_>) -> Option<&'a [u8]>
    ensures { option_map (λ bytes. bytes.now) result ≡ bytes_carried found.now }
{
    match &found.bytes {
        Some(bytes) => Some(bytes.as_slice()),
        None => None,
    }
}

// The line with that number of these bytes, if there are any.
fn line_of(bytes: Option<&[u8]>, line: u32) -> Option<&[u8]>
    ensures { option_map (λ text. text.now) result ≡
        carried_line (option_map (λ text. text.now) bytes.entry) line }
{
    line_at(bytes?, line)
}

// Says of a bad file which it is, where it is outside its format and how, and the line.
fn say_bad<E: Sink>(errors: &mut E, line: u32, kind: FaultKind, found: &FaultyFile<'_>) -> Said
    ensures { Says E.written E.writes E.faults (bad_words line kind found.now) result errors.old
        errors.new }
{
    let bytes = bytes_of(found);
    let bad = BadFile {
        name: found.file.name,
        file_kind: found.file.kind,
        line: line as u64,
        kind,
        beginning: bytes,
        sizes: found.sizes,
        text: line_of(bytes, line),
    };
    say_bad_file(errors, PROGRAM, &bad)
}

// Says of a file that could not be read which it is, and why.
fn say_unread_file<E: Sink>(errors: &mut E, unread: &UnreadFile<'_>) -> Said
    ensures { Says E.written E.writes E.faults (unread_words unread.now) result errors.old errors.new }
{
    say_unread(errors, PROGRAM, unread.file.name, unread.reason)
}

// Says of a stop which file it is, and what is wrong with it.
fn say_stop<E: Sink>(errors: &mut E, stop: &Option<LoadStop<'_>>) -> Said
    ensures { Says E.written E.writes E.faults (stop_words stop.now) result errors.old errors.new }
{
    match stop {
        Some(
            LoadStop::Bad {
                line,
                kind,
                found,
                ..
            },
        ) => say_bad(errors, *line, *kind, found),
        Some(LoadStop::ReadFault { unread, .. }) => say_unread_file(errors, unread),
        Some(LoadStop::Memory) | None => say_nothing(errors),
    }
}

// Says of a refusal what it means.
fn say_refused<E: Sink>(errors: &mut E, refusal: Option<Refusal>) -> Said
    ensures { Says E.written E.writes E.faults (refusal_words refusal) result errors.old errors.new }
{
    match refusal {
        Some(refusal) => say_refusal(errors, PROGRAM, refusal),
        None => say_nothing(errors),
    }
}

/// Says that the output could not be written whole. Takes no memory.
pub fn say_lost<E: Sink>(errors: &mut E) -> Said
    ensures { Says E.written E.writes E.faults lost_words result errors.old errors.new }
{
    say_lost_output(errors, PROGRAM)
}

/// Says what the ending of a run of these words means; nothing if it is done. Takes no memory.
pub fn say_ending<E: Sink>(
    errors: &mut E,
    words: &[String],
    ending: &RunEnding<'_>,
    is_abandoned: bool,
) -> Said
    ensures { Says E.written E.writes E.faults
        (run_words (map string_bytes words.now) ending.now.status ending.now.stop
        ending.now.refusal is_abandoned) result errors.old errors.new }
{
    match ending.status {
        Status::Done => say_nothing(errors),
        Status::Negative => say_refused(errors, ending.refusal),
        Status::Usage => say_unmatched(errors, Program::Mcg, words),
        Status::ReadFault | Status::BadInput => say_stop(errors, &ending.stop),
        Status::WriteFault if is_abandoned => say_nothing(errors),
        Status::WriteFault => say_lost(errors),
        Status::Memory => say_nothing_written(errors, PROGRAM),
    }
}
