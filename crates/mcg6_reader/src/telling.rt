//! Processing the lines of a text.
ghost use Rattle.std.specs.Prelude.{◌≡◌, ◌≤◌, IfOk, IfErr, OnOk, length};
ghost use Rattle.outside.specs.Common.{most_line};
ghost use Rattle.mcg6_reader.specs.declared.ending.InputEnding.TheVariants as ending;
ghost use Rattle.mcg6_reader.specs.Common.{IfBad, LineTold, NamesBad, HasNoFeed, Added, Reports, ReportsWith, ToldThrough, StopsWith, ending_of};

use crate::cutting::first_line;
use crate::ending::{BadLine, ListStop, report_skipped, stop_at};
use crate::place::{LinePlace, is_header, place_after};
use crate::teller::{LineAnswer, LineTeller};
use line_text::FaultKind;
use outside::MOST_LINE;
use std::alloc::Global;

// Appends the output of the line at that place, or a report on it if it is skipped, unless the line
// is bad.
#[tactic(auto, using(crate::proofs::Pieces::told_line, crate::proofs::Pieces::told_header, crate::proofs::Pieces::names_long, crate::proofs::Pieces::names_bad, crate::proofs::Skips::told_skipped, crate::proofs::Skips::reported_none, crate::proofs::Skips::reported_one))]
pub fn tell_line<T: LineTeller>(
    alloc: Global,
    teller: &T,
    place: LinePlace,
    line: &[u8],
    output: &mut Vec<u8>,
    skipped: &mut Vec<BadLine>,
) -> Result<(), ListStop>
    ensures told { OnOk result
        (Added (LineTold (T.tells teller.now) place line.now) output.old.items output.new.items) }
    ensures reported { OnOk result (Added (LineTold (Reports (T.skips teller.now)) place line.now)
        skipped.old.items skipped.new.items) }
    ensures bad { IfErr result (IfBad (NamesBad (T.bad teller.now) place line.now)) }
    ensures same { IfErr result (IfBad (λ found. output.new.items ≡ output.old.items)) }
    ensures unreported { IfErr result (λ _. skipped.new.items ≡ skipped.old.items) }
{
    if is_header(place.number, line) {
        return Ok(());
    }
    if line.len() > MOST_LINE {
        return Err(stop_at(alloc, place.number, FaultKind::Limit, line));
    }
    match teller
        .tell(alloc, place, line)
        .map_err(|_| ListStop::Memory)?
    {
        LineAnswer::Bad { kind } => Err(stop_at(alloc, place.number, kind, line)),
        LineAnswer::Skipped { kind } => report_skipped(alloc, place.number, kind, line, skipped),
        LineAnswer::Output { bytes } => output
            .extend_from_slice(&bytes)
            .map_err(|_| ListStop::Memory),
    }
}

// Processes the complete lines of a text, the first of which is at that place, and rejects what is
// left of the text after its last line feed if that is too long for a line; returns the place of
// the next line, and what is left.
#[tactic(auto, using(crate::proofs::Skips::with_more_memory))]
pub fn tell_lines<'a, T: LineTeller>(
    alloc: Global,
    teller: &T,
    first: LinePlace,
    text: &'a [u8],
    output: &mut Vec<u8>,
    skipped: &mut Vec<BadLine>,
) -> Result<(LinePlace, &'a [u8]), ListStop>
    ensures told { IfOk result
        (λ found. Added (ToldThrough (T.tells teller.now) first text.now found.1.now found.0)
        output.old.items output.new.items) }
    ensures reported { IfOk result
        (λ found. Added (ToldThrough (Reports (T.skips teller.now)) first text.now found.1.now
        found.0) skipped.old.items skipped.new.items) }
    ensures left { IfOk result (λ found. HasNoFeed found.1.now) }
    ensures short { IfOk result (λ found. length found.1.now ≤ most_line) }
    ensures bad { IfErr result (IfBad (λ found. Added
        (StopsWith (T.tells teller.now) (T.bad teller.now) (T.lacks teller.now)
        first text.now (ending.Bad found)) output.old.items output.new.items)) }
    ensures stopped { IfErr result (λ stop. Added
        (ReportsWith (Reports (T.skips teller.now)) (T.bad teller.now) (T.lacks teller.now)
        first text.now (ending_of stop)) skipped.old.items skipped.new.items) }
{
    let mut place = first;
    let mut rest = text;
    'telling: while let Some((line, behind)) = first_line(rest) {
        match tell_line(alloc, teller, place, line, output, skipped) {
            Ok(()) => {}
            Err(stop) => return Err(stop),
        }
        match place_after(place, line) {
            Ok(next) => place = next,
            Err(_) => return Err(ListStop::Memory),
        }
        rest = behind;
    }
    if rest.len() > MOST_LINE {
        return Err(stop_at(alloc, place.number, FaultKind::Limit, rest));
    }
    Ok((place, rest))
}
