//! The answers to the lines of a list.
ghost use Rattle.std.specs.Prelude.{◌≡◌, ℕ, List};
ghost use Rattle.mcg6_lines.specs.declared.query.Query.{Query};
ghost use Rattle.mcg6_reader.specs.declared.place.LinePlace.{LinePlace};
ghost use Rattle.mcg6_reader.specs.Common.{IsToldAs};
ghost use Rattle.mcg6_top.specs.Listings.{TellsOrSkips, ListStopsAt, SkipsLine, IsBadLine, is_past_graph, lacks_of};

use crate::command::AtBadLine;
use line_text::FaultKind;
use mcg6_lines::{Query, tell};
use mcg6_reader::{LineAnswer, LinePlace, LineTeller};
use std::alloc::{AllocError as Memory, Global};

/// A query, as it is asked of each line of a list, and what is done at a bad line.
#[derive(Clone, Copy)]
pub struct Lister {
    pub query: Query,
    pub at_bad: AtBadLine,
}

// Whether the query is `graph`, which is for one graph, and an earlier line was a graph.
fn is_further(query: &Query, place: LinePlace) -> bool
    ensures { result ≡ is_past_graph query.now place }
{
    match query {
        Query::Graph => place.graphs > 0,
        Query::Kinds
        | Query::Leaves { .. }
        | Query::Elementary
        | Query::Matching
        | Query::Cuts
        | Query::Ears
        | Query::Select { .. } => false,
    }
}

// The result for a bad line, with a first error of this kind.
fn bad_line(at_bad: AtBadLine, kind: FaultKind) -> LineAnswer
    ensures { (query : Query) (place : LinePlace) (line : List ℕ) → IsBadLine query place line kind →
        IsToldAs (TellsOrSkips query at_bad place line) (ListStopsAt query at_bad place line)
        (SkipsLine query at_bad place line) result }
{
    match at_bad {
        AtBadLine::Stop => LineAnswer::Bad { kind },
        AtBadLine::Skip => LineAnswer::Skipped { kind },
    }
}

impl LineTeller for Lister {
    ghost tells = { λ lister place line output.
        TellsOrSkips lister.query lister.at_bad place line output };

    ghost bad = { λ lister place line kind. ListStopsAt lister.query lister.at_bad place line kind };

    ghost lacks = { λ lister graphs. lacks_of lister.query graphs };

    ghost skips = { λ lister place line kind. SkipsLine lister.query lister.at_bad place line kind };

    #[tactic(auto, using(crate::proofs::Skipping::answered_line, crate::proofs::Skipping::further_bad, crate::proofs::Skipping::faulty_bad))]
    fn tell(&self, alloc: Global, place: LinePlace, line: &[u8]) -> Result<LineAnswer, Memory> {
        if is_further(&self.query, place) {
            return Ok(bad_line(self.at_bad, FaultKind::Extra));
        }
        match tell(alloc, &self.query, place.number, line)? {
            Ok(bytes) => Ok(LineAnswer::Output { bytes }),
            Err(kind) => Ok(bad_line(self.at_bad, kind)),
        }
    }

    fn fault_at_end(&self, graphs: u64) -> Option<FaultKind> {
        match self.query {
            Query::Graph if graphs == 0 => Some(FaultKind::Missing),
            Query::Graph
            | Query::Kinds
            | Query::Leaves { .. }
            | Query::Elementary
            | Query::Matching
            | Query::Cuts
            | Query::Ears
            | Query::Select { .. } => None,
        }
    }
}
