//! What is said of words that match no row of a table.
ghost use Rattle.std.specs.Prelude.{◌≡◌, map, string_bytes};
ghost use Rattle.std.specs.Option.{option_map};
ghost use Rattle.command_table.specs.Pages.{command_line, command_lines};
ghost use Rattle.command_table.specs.Reasons.{reason_seen};
ghost use Rattle.command_table.specs.RowsSeen.{row_seen, word_seen};
ghost use Rattle.front_words.specs.Saying.{Says};
ghost use Rattle.front_words.specs.Unmatched.{asked_text, behind_text, exchange_text, is_choice, is_exchanged, known_text, meant, meant_text, misuse_text, mismatch_text, some_reason_text, unmatched_text};

use crate::answers::is_help;
use crate::asked::{asks_twice, help_beyond, say_help, say_twice, say_version, version_beyond};
use crate::pieces::MessagePiece::{Shown, Text};
use crate::pieces::{Said, say};
use crate::programs::Program;
use crate::showing::say_bytes;
use crate::texts;
use command_table::{Mismatch, Row, RowWord, why_unmatched};
use outside::Sink;

/// The most bytes of a command that are shown.
pub const MOST_OF_COMMAND: u32 = 60;

// The line of a row, if that is the command.
fn command_line(command: &str, row: &Row) -> &'static str
    ensures { result.now ≡ command_line command.now (row_seen row.now) }
{
    if command == row.command { row.line } else { "" }
}

// Says the lines of the rows of that command.
fn say_lines<K: Sink>(sink: &mut K, command: &str, rows: &[Row]) -> Said
    ensures { Says K.written K.writes K.faults
        (command_lines command.now (map row_seen rows.now)) result sink.old sink.new }
{
    match rows.split_first() {
        None => say_bytes(sink, b""),
        Some((row, rows)) => match say_bytes(sink, command_line(command, row).as_bytes()) {
            Ok(()) => say_lines(sink, command, rows),
            Err(failed) => Err(failed),
        },
    }
}

// Says that the words match no row for this reason.
fn say_some_reason<'a, K: Sink>(
    sink: &mut K,
    program: &'a str,
    command: &'a [u8],
    reason: Mismatch,
) -> Said
    ensures { Says K.written K.writes K.faults
        (some_reason_text program.now command.now (reason_seen reason)) result sink.old sink.new }
{
    let by = Text(program);
    let command = Shown(command, MOST_OF_COMMAND);
    let end = Text("\n");
    match reason {
        Mismatch::Unknown => say(
            sink,
            &[
                by,
                Text(texts::NO_COMMAND),
                command,
                Text("; "),
                by,
                Text(texts::HELP_LISTS),
                end,
            ],
        ),
        Mismatch::TooMany => say(sink, &[by, Text(texts::TOO_MANY), command, end]),
        Mismatch::TooFew(missing) => say(
            sink,
            &[
                by,
                Text(": "),
                command,
                Text(texts::NEEDS),
                Text(missing.need()),
                end,
            ],
        ),
        Mismatch::Wrong(wanted) => say(sink, &[by, Text(": "), Text(wanted.note()), end]),
    }
}

// Says why the words match no row; nothing if they match one.
fn say_reason<K: Sink>(
    sink: &mut K,
    program: &str,
    command: &[u8],
    reason: Option<Mismatch>,
) -> Said
    ensures { Says K.written K.writes K.faults
        (mismatch_text program.now command.now (option_map reason_seen reason)) result
        sink.old sink.new }
{
    match reason {
        Some(reason) => say_some_reason(sink, program, command, reason),
        None => say_bytes(sink, b""),
    }
}

// Whether the word of a row is one of several.
fn is_choice(wanted: RowWord) -> bool
    ensures { result ≡ is_choice (word_seen wanted) }
{
    match wanted {
        RowWord::OneOf(_, _, _, _, _) => true,
        RowWord::Literal(_) | RowWord::File(_, _) | RowWord::Number(_, _, _, _, _) => false,
    }
}

// Whether there are two words behind the command, and one of them fits this choice, so that it
// stands in the place of the other.
fn is_exchanged(wanted: RowWord, words: &[String]) -> bool
    ensures { result ≡ is_exchanged (word_seen wanted) (map string_bytes words.now) }
{
    match words {
        [_, word, next] => {
            is_choice(wanted) && (wanted.fits(word.as_str()) || wanted.fits(next.as_str()))
        }
        _ => false,
    }
}

// Says that two words are exchanged, if they are.
fn say_exchange<K: Sink>(
    sink: &mut K,
    program: &str,
    reason: Option<Mismatch>,
    words: &[String],
) -> Said
    ensures { Says K.written K.writes K.faults
        (exchange_text program.now (option_map reason_seen reason) (map string_bytes words.now))
        result sink.old sink.new }
{
    match reason {
        Some(Mismatch::Wrong(wanted)) if is_exchanged(wanted, words) => say(
            sink,
            &[Text(program), Text(texts::EXCHANGED), Text("\n")],
        ),
        _ => say_bytes(sink, b""),
    }
}

// Says that two words are exchanged, if they are, and the lines of the command.
fn say_behind<K: Sink>(
    sink: &mut K,
    program: Program,
    command: &str,
    reason: Option<Mismatch>,
    words: &[String],
) -> Said
    ensures { Says K.written K.writes K.faults
        (behind_text program command.now (option_map reason_seen reason)
        (map string_bytes words.now)) result sink.old sink.new }
{
    let rows = program.rows();
    match say_exchange(sink, program.name(), reason, words) {
        Ok(()) => say_lines(sink, command, rows),
        Err(failed) => Err(failed),
    }
}

// Says why the words match no row, and what is behind that.
fn say_misuse<K: Sink>(sink: &mut K, program: Program, command: &str, words: &[String]) -> Said
    ensures { Says K.written K.writes K.faults
        (misuse_text program command.now (map string_bytes words.now)) result sink.old sink.new }
{
    let rows = program.rows();
    let reason = why_unmatched(rows, words);
    match say_reason(sink, program.name(), command.as_bytes(), reason) {
        Ok(()) => say_behind(sink, program, command, reason, words),
        Err(failed) => Err(failed),
    }
}

// The command that is meant: the first word, or the one behind a word that asks for help.
fn meant(words: &[String]) -> Option<&str>
    ensures { option_map (λ word. word.now) result ≡ meant (map string_bytes words.now) }
{
    match words {
        [] => None,
        [word, next] => {
            if is_help(word.as_str()) {
                Some(next.as_str())
            } else {
                Some(word.as_str())
            }
        }
        [word, ..] => Some(word.as_str()),
    }
}

// Says what is wrong with the words of this command, and the usage if there is none.
fn say_meant<K: Sink>(sink: &mut K, program: Program, words: &[String]) -> Said
    ensures { Says K.written K.writes K.faults
        (meant_text program (map string_bytes words.now) (meant (map string_bytes words.now)))
        result sink.old sink.new }
{
    match meant(words) {
        Some(command) => say_misuse(sink, program, command, words),
        None => say_bytes(sink, program.usage().as_bytes()),
    }
}

// Says that help is asked for twice, or what is wrong with the words.
fn say_known<K: Sink>(sink: &mut K, program: Program, words: &[String]) -> Said
    ensures { Says K.written K.writes K.faults (known_text program (map string_bytes words.now))
        result sink.old sink.new }
{
    if asks_twice(words) {
        say_twice(sink, program.name())
    } else {
        say_meant(sink, program, words)
    }
}

// Says that there are words behind `--version`, or what else is wrong with the words.
fn say_asked<K: Sink>(sink: &mut K, program: Program, words: &[String]) -> Said
    ensures { Says K.written K.writes K.faults (asked_text program (map string_bytes words.now))
        result sink.old sink.new }
{
    match version_beyond(words) {
        Some(word) => say_version(sink, program.name(), word),
        None => say_known(sink, program, words),
    }
}

/// Says why words match no row of the table of a program, and the lines of the command that is
/// meant; and the usage where there are no words. Takes no memory.
pub fn say_unmatched<K: Sink>(sink: &mut K, program: Program, words: &[String]) -> Said
    ensures { Says K.written K.writes K.faults (unmatched_text program (map string_bytes words.now))
        result sink.old sink.new }
{
    match help_beyond(words) {
        Some(word) => say_help(sink, program.name(), word),
        None => say_asked(sink, program, words),
    }
}
