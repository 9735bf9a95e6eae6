//! Encoding a graph file.
ghost use Rattle.std.specs.Prelude.{◌≡◌, ◌≢◌, ◌<◌, ◌-◌, ◌^◌, ℕ, List, Some, length};
ghost use Rattle.outside.specs.Common.{Rose};
ghost use Rattle.mcg6_reader.specs.Common.{Appended};
ghost use Rattle.mcg6_encoder.specs.Files.{Encodes};
ghost use Rattle.mcg6_encoder.specs.Reads.{EncodesFile, ReadsThenWrites, WritesUpTo};

use crate::lines::{outside_at, too_long};
use crate::reading::{Unread, read_file};
use crate::text::graph6_line;
use graph_core::line_text::TextFault;
use mcg6_reader::InputEnding;
use outside::{Sink, Source, emit};
use std::alloc::Global;

// Writes the graph6 text of a file with these bytes.
fn write_encoded<K: Sink>(alloc: Global, file: &[u8], sink: &mut K) -> InputEnding
    requires { length file.now < 2 ^ 32 - 1 }
    ensures wrote { WritesUpTo K.written K.writes file.now result sink.old sink.new }
    ensures others { result ≢ InputEnding.ReadFault }
    ensures write_fault { result ≡ InputEnding.WriteFault →
        Rose (K.faults sink.old) (K.faults sink.new) }
{
    match graph6_line(alloc, file) {
        Ok(line) => match emit(sink, &line) {
            Ok(()) => InputEnding::Done,
            Err(_) => InputEnding::WriteFault,
        },
        Err(TextFault::At { line, kind }) => match outside_at(alloc, file, line, kind) {
            Ok(found) => InputEnding::Bad { found },
            Err(_) => InputEnding::Memory,
        },
        Err(TextFault::Memory) => InputEnding::Memory,
    }
}

/// Reads the graph file that is left of the source to its end, and writes its graph6 text to the
/// sink: the text of the underlying simple graph, and a line feed. Nothing is written for a file
/// that is outside both versions of the format, or has more than `MOST_BYTES` bytes: the ending
/// describes the error, with the first bad line; a file that is too long has line 0.
///
/// Takes memory for a piece, the file, its graph and its text. If memory runs out, it ends with
/// `Memory`, and nothing is written.
#[tactic(auto, using(crate::proofs::Encodings::no_file, crate::proofs::Encodings::told_file))]
pub fn encode<S: Source, K: Sink>(alloc: Global, source: &mut S, sink: &mut K) -> InputEnding
    // The file is read to its end before the first write; nothing is written for a bad file.
    ensures reads_first { ReadsThenWrites S.reads K.written K.writes result source.old sink.old
        source.new sink.new }
    // The output is what the file gives up to this ending, in whatever pieces it was read.
    ensures encodes { (file : List ℕ) → S.left source.old ≡ Some file
        → Appended (Encodes file result) (K.written sink.old) (K.written sink.new) }
    // If the source does not make known what is left, the output is what some file gives.
    ensures tells { EncodesFile result (S.left source.old) (K.written sink.old)
        (K.written sink.new) }
    // An error of the source or the sink comes only if its count rose in this call.
    ensures read_fault { result ≡ InputEnding.ReadFault →
        Rose (S.faults source.old) (S.faults source.new) }
    ensures write_fault { result ≡ InputEnding.WriteFault →
        Rose (K.faults sink.old) (K.faults sink.new) }
{
    match read_file(alloc, source) {
        Ok(file) => write_encoded(alloc, &file, sink),
        Err(Unread::TooLong) => InputEnding::Bad {
            found: too_long(alloc),
        },
        Err(Unread::Failed) => InputEnding::ReadFault,
        Err(Unread::Memory) => InputEnding::Memory,
    }
}
