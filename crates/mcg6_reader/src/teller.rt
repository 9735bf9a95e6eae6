//! A teller maps the lines of a list to their outputs.
ghost use Rattle.std.specs.Prelude.{◌≡◌, ℕ, List, IfOk};
ghost use Rattle.std.specs.declared.option.Option.{Option};
ghost use Rattle.line_text.specs.declared.faults.FaultKind.{FaultKind};
ghost use Rattle.mcg6_reader.specs.declared.place.LinePlace.{LinePlace};
ghost use Rattle.mcg6_reader.specs.Told.{IsToldAs};

use crate::place::LinePlace;
use line_text::FaultKind;
use std::alloc::{AllocError as Memory, Global};

/// The result for a line.
#[derive(Drop)]
pub enum LineAnswer {
    /// Its output is these bytes.
    Output { bytes: Vec<u8> },
    /// It is bad, with a first error of this kind, and the list ends there.
    Bad { kind: FaultKind },
    /// It is bad, with a first error of this kind, and the list goes on after it.
    Skipped { kind: FaultKind },
}

/// A teller maps each line of a list, with its place, to an output or an error.
pub trait LineTeller {
    /// The line at this place has this output. A line holds its line feed, if it has one.
    ghost tells: { Self → LinePlace → List ℕ → List ℕ → Type 0 };

    /// The line at this place is bad, with a first error of this kind, and the list ends there.
    ghost bad: { Self → LinePlace → List ℕ → FaultKind → Type 0 };

    /// The kind of the error of a list that ends after so many lines, the header not counted, if it
    /// is one.
    ghost lacks: { Self → ℕ → Option FaultKind };

    /// The line at this place is skipped, with a first error of this kind; or, with none, it is
    /// not.
    ghost skips: { Self → LinePlace → List ℕ → Option FaultKind → Type 0 };

    /// The output of a line, or the kind of its first error. A line that is skipped has an empty
    /// output.
    fn tell(&self, alloc: Global, place: LinePlace, line: &[u8]) -> Result<LineAnswer, Memory>
        ensures { IfOk result
            (IsToldAs (tells self.now place line.now) (bad self.now place line.now)
            (skips self.now place line.now)) };

    /// The kind of the error of a list that ends after so many lines, the header not counted, if it
    /// is one.
    fn fault_at_end(&self, graphs: u64) -> Option<FaultKind>
        ensures { result ≡ lacks self.now graphs };
}
