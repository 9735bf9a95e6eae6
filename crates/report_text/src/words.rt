//! Words that lines of several reports share.
ghost use Rattle.std.specs.Prelude.{◌≡◌, ◌++◌, OnOk, string_bytes};
ghost use Rattle.report_text.specs.Common.{kind_word, leaf_kind_word, reason_word, tally_end, yes_or_no};

use graph_core::{Kind, Reason};
use move_text::tree_core::{LeafKind, Tally};
use std::alloc::AllocError as Memory;

/// `yes` or `no`.
pub fn yes_or_no(holds: bool) -> &'static str
    ensures { result.now ≡ yes_or_no holds }
{
    if holds { "yes" } else { "no" }
}

/// The word of a reason why a graph is not matching covered.
pub fn reason_word(reason: &Reason) -> &'static str
    ensures { result.now ≡ reason_word reason.now }
{
    match reason {
        Reason::Small => "order",
        Reason::Parted { .. } => "parts",
        Reason::Unmatched { .. } => "berge",
        Reason::Unallowed { .. } => "edge",
    }
}

/// The word of the kind of a matching covered graph.
pub fn kind_word(kind: &Kind) -> &'static str
    ensures { result.now ≡ kind_word kind.now }
{
    match kind {
        Kind::Brace => "brace",
        Kind::Brick => "brick",
        Kind::Composite { .. } => "composite",
    }
}

/// The word of the kind of a leaf.
pub fn leaf_kind_word(kind: LeafKind) -> &'static str
    ensures { result.now ≡ leaf_kind_word kind }
{
    match kind {
        LeafKind::Brick => "brick",
        LeafKind::Brace => "brace",
    }
}

/// Appends the end of a line that says how many leaves there are, and how many of each kind.
pub fn push_tally(text: &mut String, tally: Tally) -> Result<(), Memory>
    ensures { OnOk result (string_bytes text.new ≡ string_bytes text.old ++ tally_end tally) }
{
    let Tally {
        leaves,
        bricks,
        braces,
    } = tally;
    write!(text, " leaves {leaves} bricks {bricks} braces {braces}\n")
}
