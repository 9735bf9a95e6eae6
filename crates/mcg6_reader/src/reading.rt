//! Reading a list and processing its lines.
ghost use Rattle.std.specs.Prelude.{◌≡◌, ◌≢◌, ◌≤◌, ◌<◌, ◌++◌, ℕ, List, OnOk, IfErr, Some, length};
ghost use Rattle.outside.specs.Common.{Rose, most_line};
ghost use Rattle.mcg6_reader.specs.Common.{HasNoFeed, lines_of, first_place, Added, Appended, GivesOutput, Reported, Reports, ReportsWith, ToldThrough, StopsWith, TellsList, TellsRead, ReadsTold, Wrote, WroteUpTo, IsStream};

use crate::ending::{BadLine, InputEnding, ListStop};
use crate::listing::{Listing, add_end, add_piece};
use crate::place::first_place;
use crate::teller::LineTeller;
use outside::{Sink, Source, emit};
use std::alloc::Global;

/// The most bytes of a piece.
const PIECE: usize = 65536;

// Processes the lines that a further piece completes, and writes the outputs.
fn take_piece<T: LineTeller, K: Sink>(
    alloc: Global,
    teller: &T,
    listing: &mut Listing,
    piece: &[u8],
    sink: &mut K,
    skipped: &mut Vec<BadLine>,
) -> Result<(), InputEnding>
    ensures told { OnOk result (Wrote K.written K.writes
        (ToldThrough (T.tells teller.now) listing.old.place (listing.old.held.items ++ piece.now)
        listing.new.held.items listing.new.place) sink.old sink.new) }
    ensures reported { OnOk result (Added (ToldThrough (Reports (T.skips teller.now))
        listing.old.place (listing.old.held.items ++ piece.now) listing.new.held.items
        listing.new.place) skipped.old.items skipped.new.items) }
    ensures left { OnOk result (HasNoFeed listing.new.held.items) }
    ensures short { OnOk result (length listing.new.held.items ≤ most_line) }
    ensures stops { IfErr result (λ ending. WroteUpTo K.written K.writes
        (StopsWith (T.tells teller.now) (T.bad teller.now) (T.lacks teller.now) listing.old.place
        (listing.old.held.items ++ piece.now)) ending sink.old sink.new) }
    ensures stopped { IfErr result (λ ending. Added
        (ReportsWith (Reports (T.skips teller.now)) (T.bad teller.now) (T.lacks teller.now)
        listing.old.place (listing.old.held.items ++ piece.now) ending)
        skipped.old.items skipped.new.items) }
    ensures others { IfErr result (λ ending. ending ≢ InputEnding.ReadFault) }
    ensures write_fault { IfErr result (λ ending. ending ≡ InputEnding.WriteFault →
        Rose (K.faults sink.old) (K.faults sink.new)) }
    ensures later { K.faults sink.old ≤ K.faults sink.new }
{
    let mut output = Vec::new(alloc);
    match add_piece(alloc, teller, listing, piece, &mut output, skipped) {
        Ok(()) => match emit(sink, &output) {
            Ok(()) => Ok(()),
            Err(_) => Err(InputEnding::WriteFault),
        },
        Err(ListStop::Bad { found }) => match emit(sink, &output) {
            Ok(()) => Err(InputEnding::Bad { found }),
            Err(_) => Err(InputEnding::WriteFault),
        },
        Err(ListStop::Memory) => Err(InputEnding::Memory),
    }
}

// Processes what is held at the end of the list, and writes the output.
fn take_end<T: LineTeller, K: Sink>(
    alloc: Global,
    teller: &T,
    listing: &Listing,
    sink: &mut K,
    skipped: &mut Vec<BadLine>,
) -> InputEnding
    requires { HasNoFeed listing.now.held.items }
    ensures gives { WroteUpTo K.written K.writes
        (GivesOutput (T.tells teller.now) (T.bad teller.now) (T.lacks teller.now) listing.now.place
        (lines_of listing.now.held.items)) result sink.old sink.new }
    ensures reported { Added
        (Reported (Reports (T.skips teller.now)) (T.bad teller.now) (T.lacks teller.now)
        listing.now.place (lines_of listing.now.held.items) result)
        skipped.old.items skipped.new.items }
    ensures others { result ≢ InputEnding.ReadFault }
    ensures write_fault { result ≡ InputEnding.WriteFault →
        Rose (K.faults sink.old) (K.faults sink.new) }
{
    let mut output = Vec::new(alloc);
    match add_end(
        alloc,
        teller,
        listing.place,
        &listing.held,
        &mut output,
        skipped,
    ) {
        Ok(()) => match emit(sink, &output) {
            Ok(()) => InputEnding::Done,
            Err(_) => InputEnding::WriteFault,
        },
        Err(ListStop::Bad { found }) => match emit(sink, &output) {
            Ok(()) => InputEnding::Bad { found },
            Err(_) => InputEnding::WriteFault,
        },
        Err(ListStop::Memory) => InputEnding::Memory,
    }
}

// Reads the list through a piece, and processes it.
fn tell_through<T: LineTeller, S: Source, K: Sink>(
    alloc: Global,
    teller: &T,
    source: &mut S,
    sink: &mut K,
    skipped: &mut Vec<BadLine>,
    piece: &mut [u8],
) -> InputEnding
    requires { 0 < length piece.old }
    ensures streams { IsStream (T.tells teller.now) (T.bad teller.now) (T.lacks teller.now) S.reads
        K.written K.writes result source.old sink.old source.new sink.new }
    ensures tells { TellsList (T.tells teller.now) (T.bad teller.now) (T.lacks teller.now)
        (Reports (T.skips teller.now)) result (S.left source.old) (K.written sink.old)
        (K.written sink.new) skipped.old.items skipped.new.items }
    ensures reads { TellsRead (T.tells teller.now) (T.bad teller.now) (T.lacks teller.now)
        (Reports (T.skips teller.now)) S.reads result source.old source.new (K.written sink.old)
        (K.written sink.new) skipped.old.items skipped.new.items }
    ensures torn { result ≡ InputEnding.ReadFault
        → Appended (ReadsTold (T.tells teller.now) (S.left source.old) (S.left source.new))
        (K.written sink.old) (K.written sink.new) }
    ensures read_fault { result ≡ InputEnding.ReadFault →
        Rose (S.faults source.old) (S.faults source.new) }
    ensures write_fault { result ≡ InputEnding.WriteFault →
        Rose (K.faults sink.old) (K.faults sink.new) }
{
    let mut listing = Listing {
        place: first_place(),
        held: Vec::new(alloc),
    };
    'reading: for _ in 0..u64::MAX {
        match source.read(piece) {
            Err(_) => return InputEnding::ReadFault,
            Ok(0) => return take_end(alloc, teller, &listing, sink, skipped),
            Ok(count) => {
                match take_piece(alloc, teller, &mut listing, &piece[..count], sink, skipped) {
                    Ok(()) => {}
                    Err(ending) => return ending,
                }
            }
        }
    }
    InputEnding::Memory
}

/// Reads the list that is left of the source to its end, processes each of its lines, and writes
/// the outputs to the sink: those of the lines that a read completed before the next read. The
/// first bad line ends it, unless the teller skips it; nothing is written for that line, and the
/// ending describes it. For each line that is skipped a report is added. A line that is too long
/// ends it as soon as more of it was read than a line may have.
///
/// Takes memory for a piece, a line, the outputs of the lines of a piece, and the reports on
/// skipped lines. If memory runs out, or there are more lines or reads than a u64 counts, it ends
/// with `Memory`.
#[tactic(auto, using(crate::proofs::Readings::untouched, crate::proofs::ReadBytes::read_nothing, crate::proofs::LeftBytes::told_list, crate::proofs::LeftBytes::reported_list, crate::proofs::Stages::unread))]
pub fn tell_all<T: LineTeller, S: Source, K: Sink>(
    alloc: Global,
    teller: &T,
    source: &mut S,
    sink: &mut K,
    skipped: &mut Vec<BadLine>,
) -> InputEnding
    // After each read, all lines that are complete in what was read are processed and written
    // before the next read; no write follows one that failed, and no read or write follows a read
    // that failed.
    ensures streams { IsStream (T.tells teller.now) (T.bad teller.now) (T.lacks teller.now) S.reads
        K.written K.writes result source.old sink.old source.new sink.new }
    // The output is what the lines of the list give up to this ending, in whatever pieces it was
    // read.
    ensures gives { (bytes : List ℕ) → S.left source.old ≡ Some bytes
        → Appended (GivesOutput (T.tells teller.now) (T.bad teller.now) (T.lacks teller.now) first_place
        (lines_of bytes) result) (K.written sink.old) (K.written sink.new) }
    // The reports that are added are those on the skipped lines up to this ending, in their order.
    ensures reported { (bytes : List ℕ) → S.left source.old ≡ Some bytes
        → Added (Reported (Reports (T.skips teller.now)) (T.bad teller.now) (T.lacks teller.now)
        first_place (lines_of bytes) result) skipped.old.items skipped.new.items }
    // If the source does not make known what is left, the output and the reports are those of the
    // lines of some list.
    ensures tells { TellsList (T.tells teller.now) (T.bad teller.now) (T.lacks teller.now)
        (Reports (T.skips teller.now)) result (S.left source.old) (K.written sink.old)
        (K.written sink.new) skipped.old.items skipped.new.items }
    // Whatever the source makes known, they are those of the lines of what its reads returned.
    ensures reads { TellsRead (T.tells teller.now) (T.bad teller.now) (T.lacks teller.now)
        (Reports (T.skips teller.now)) S.reads result source.old source.new (K.written sink.old)
        (K.written sink.new) skipped.old.items skipped.new.items }
    // If the source fails, each complete line of what was read is processed and written.
    ensures torn { result ≡ InputEnding.ReadFault
        → Appended (ReadsTold (T.tells teller.now) (S.left source.old) (S.left source.new))
        (K.written sink.old) (K.written sink.new) }
    // An error of the source or the sink comes only if its count rose in this call.
    ensures read_fault { result ≡ InputEnding.ReadFault →
        Rose (S.faults source.old) (S.faults source.new) }
    ensures write_fault { result ≡ InputEnding.WriteFault →
        Rose (K.faults sink.old) (K.faults sink.new) }
{
    match vec![in alloc; 0u8; PIECE] {
        Ok(mut piece) => tell_through(alloc, teller, source, sink, skipped, &mut piece),
        Err(_) => InputEnding::Memory,
    }
}
