//! What can be wrong with a text.
ghost use Rattle.std.specs.Prelude.{◌≡◌};
ghost use Rattle.line_text.specs.FaultKinds.{kind_number};

use std::alloc::AllocError;
use thiserror::Error;

/// The kind of an error in a text.
#[derive(Clone, Copy, Debug, PartialEq, Eq)]
pub enum FaultKind {
    /// The first significant line is not the header, or there is none.
    Header,
    /// A line has a wrong first word or the wrong number of words.
    Word,
    /// A word that must be a number is not one.
    Number,
    /// A vertex or edge number is 0 or too large.
    Range,
    /// The two ends of an edge are equal.
    Loop,
    /// A stated limit is exceeded.
    Limit,
    /// The text ends before the format does.
    Missing,
    /// A significant line follows the end.
    Extra,
    /// The vertices of a shore are not strictly increasing.
    NotRising,
    /// A shore contains the highest-numbered vertex.
    HasGreatest,
    /// A name is not the name of a vertex.
    Unnamed,
    /// A name is given to two vertices.
    SameName,
    /// A name is not of the form of a name.
    BadName,
    /// A bit after the last pair of vertices is set.
    Padding,
    /// The long form of a size is used for a small one.
    LongForm,
}

impl FaultKind {
    /// The number by which reports name the kind, from 1.
    pub fn number(self) -> u32
        ensures { result ≡ kind_number self }
    {
        self as u32 + 1
    }
}

/// Why a text was not read: the first line outside its format with the kind of its error, or lack
/// of memory. Lines are counted from 1. If lines are missing at the end, the line is one past the
/// last.
#[derive(Clone, Copy, Debug, PartialEq, Eq, Error)]
pub enum TextFault {
    #[error("line {line} is not in the format")]
    At { line: u32, kind: FaultKind },
    #[error("out of memory")]
    Memory,
}

/// Out of memory, for `?` in a reader.
impl From<AllocError> for TextFault {
    ghost use Rattle.line_text.specs.declared.faults.TextFault.TheVariants.{Memory};

    ghost from_gives = { λ _ fault. fault ≡ Memory };

    fn from(_want: AllocError) -> TextFault {
        TextFault::Memory
    }
}
