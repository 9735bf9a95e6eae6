//! A list that comes in pieces.
ghost use Rattle.std.specs.Prelude.{◌≡◌, ◌≤◌, ◌++◌, IfErr, IfOk, OnOk, length};
ghost use Rattle.outside.specs.Common.{most_line};
ghost use Rattle.mcg6_reader.specs.declared.ending.InputEnding.TheVariants as ending;
ghost use Rattle.mcg6_reader.specs.Common.{HasNoFeed, lines_of, AllTold, ToldToBad, place_behind, IfBad, Added, GivesOutput, Reported, Reports, ReportsWith, ToldThrough, StopsWith, ending_of};

use crate::ending::{BadLine, ListStop, stop_at};
use crate::place::{LinePlace, place_after};
use crate::teller::LineTeller;
use crate::telling::{tell_line, tell_lines};
use line_text::FaultKind;
use std::alloc::Global;

/// The state of a list that arrives in pieces.
#[derive(Drop)]
pub struct Listing {
    /// The place of the next line.
    pub place: LinePlace,
    /// The bytes of it that were read; its line feed has not come yet.
    pub held: Vec<u8>,
}

// Processes the lines that a further piece completes, and holds what is left after them.
#[tactic(auto, using(crate::proofs::Skips::with_none, crate::proofs::Skips::with_through_memory))]
pub fn add_piece<T: LineTeller>(
    alloc: Global,
    teller: &T,
    listing: &mut Listing,
    piece: &[u8],
    output: &mut Vec<u8>,
    skipped: &mut Vec<BadLine>,
) -> Result<(), ListStop>
    ensures told { OnOk result (Added
        (ToldThrough (T.tells teller.now) listing.old.place (listing.old.held.items ++ piece.now)
        listing.new.held.items listing.new.place) output.old.items output.new.items) }
    ensures reported { OnOk result (Added (ToldThrough (Reports (T.skips teller.now))
        listing.old.place (listing.old.held.items ++ piece.now) listing.new.held.items
        listing.new.place) skipped.old.items skipped.new.items) }
    ensures left { OnOk result (HasNoFeed listing.new.held.items) }
    ensures short { OnOk result (length listing.new.held.items ≤ most_line) }
    ensures bad { IfErr result (IfBad (λ found. Added
        (StopsWith (T.tells teller.now) (T.bad teller.now) (T.lacks teller.now) listing.old.place
        (listing.old.held.items ++ piece.now) (ending.Bad found))
        output.old.items output.new.items)) }
    ensures stopped { IfErr result (λ stop. Added
        (ReportsWith (Reports (T.skips teller.now)) (T.bad teller.now) (T.lacks teller.now)
        listing.old.place (listing.old.held.items ++ piece.now) (ending_of stop))
        skipped.old.items skipped.new.items) }
{
    listing
        .held
        .extend_from_slice(piece)
        .map_err(|_| ListStop::Memory)?;
    let first = listing.place;
    let (place, rest) = tell_lines(alloc, teller, first, &listing.held, output, skipped)?;
    match rest.to_vec(alloc) {
        Ok(held) => {
            *listing = Listing { place, held };
            Ok(())
        }
        Err(_) => Err(ListStop::Memory),
    }
}

// Processes what is held at the end of a list as its last line, unless it is empty; returns the
// place after it.
fn add_last<T: LineTeller>(
    alloc: Global,
    teller: &T,
    place: LinePlace,
    held: &[u8],
    output: &mut Vec<u8>,
    skipped: &mut Vec<BadLine>,
) -> Result<LinePlace, ListStop>
    requires { HasNoFeed held.now }
    ensures told { IfOk result (λ _. Added (AllTold (T.tells teller.now) place (lines_of held.now))
        output.old.items output.new.items) }
    ensures reported { IfOk result (λ _. Added
        (AllTold (Reports (T.skips teller.now)) place (lines_of held.now))
        skipped.old.items skipped.new.items) }
    ensures next { IfOk result (λ next. next ≡ place_behind place (lines_of held.now)) }
    ensures bad { IfErr result (IfBad (λ found. Added
        (ToldToBad (T.tells teller.now) (T.bad teller.now) (T.lacks teller.now)
        place (lines_of held.now) found) output.old.items output.new.items)) }
    ensures stopped { IfErr result (λ stop. Added
        (Reported (Reports (T.skips teller.now)) (T.bad teller.now) (T.lacks teller.now)
        place (lines_of held.now) (ending_of stop)) skipped.old.items skipped.new.items) }
{
    if held.is_empty() {
        return Ok(place);
    }
    match tell_line(alloc, teller, place, held, output, skipped) {
        Ok(()) => place_after(place, held),
        Err(stop) => Err(stop),
    }
}

// Processes what is held at the end of a list as its last line, unless it is empty, and rejects a
// list that may not end after it.
pub fn add_end<T: LineTeller>(
    alloc: Global,
    teller: &T,
    place: LinePlace,
    held: &[u8],
    output: &mut Vec<u8>,
    skipped: &mut Vec<BadLine>,
) -> Result<(), ListStop>
    requires { HasNoFeed held.now }
    ensures told { OnOk result (Added
        (GivesOutput (T.tells teller.now) (T.bad teller.now) (T.lacks teller.now)
        place (lines_of held.now) ending.Done) output.old.items output.new.items) }
    ensures reported { OnOk result (Added
        (Reported (Reports (T.skips teller.now)) (T.bad teller.now) (T.lacks teller.now)
        place (lines_of held.now) ending.Done) skipped.old.items skipped.new.items) }
    ensures bad { IfErr result (IfBad (λ found. Added
        (GivesOutput (T.tells teller.now) (T.bad teller.now) (T.lacks teller.now)
        place (lines_of held.now) (ending.Bad found)) output.old.items output.new.items)) }
    ensures stopped { IfErr result (λ stop. Added
        (Reported (Reports (T.skips teller.now)) (T.bad teller.now) (T.lacks teller.now)
        place (lines_of held.now) (ending_of stop)) skipped.old.items skipped.new.items) }
{
    match add_last(alloc, teller, place, held, output, skipped) {
        Ok(next) => match teller.fault_at_end(next.graphs) {
            None => Ok(()),
            Some(kind) => Err(stop_at(alloc, next.number, kind, &[])),
        },
        Err(stop) => Err(stop),
    }
}
