//! The lines on the structure of a matching covered graph.
ghost use Rattle.std.specs.Prelude.{◌≡◌, ◌++◌, OnOk, string_bytes};
ghost use Rattle.report_text.specs.Common.{numbers_text, class_lines, classes_lines, pair_line, bicritical_line, cut_pair_line, leaf_kind_line, shore_of, structure_text};

use crate::numbers::{push_set, push_set_line};
use crate::words::kind_word;
use graph_core::vset_core::VSet;
use graph_core::{Ends, Kind, SetList};
use std::alloc::AllocError as Memory;

/// What `analyse` reports about a matching covered graph.
#[derive(Drop)]
pub struct Structure {
    /// The classes of the canonical partition (Lovász and Plummer, "Matching Theory", chapter 5),
    /// by least vertex.
    pub classes: SetList,
    /// The first pair u < v in lexicographic order such that G - u - v has no perfect matching;
    /// none if the graph is bicritical.
    pub unlike: Option<Ends>,
    /// The first pair u < v in lexicographic order such that G - u - v has at least two components,
    /// or none.
    pub cutpair: Option<Ends>,
    /// Brace, brick, or composite with a shore of a nontrivial tight cut.
    pub kind: Kind,
}

fn push_class_lines(text: &mut String, classes: &[VSet]) -> Result<(), Memory>
    ensures { OnOk result
        (string_bytes text.new ≡ string_bytes text.old ++ class_lines classes.now) }
{
    let mut rest = classes;
    'writing: while let Some((class, others)) = rest.split_first() {
        push_set_line(text, "class", *class)?;
        rest = others;
    }
    Ok(())
}

fn push_classes(text: &mut String, classes: &SetList) -> Result<(), Memory>
    ensures { OnOk result
        (string_bytes text.new ≡ string_bytes text.old ++ classes_lines classes.now) }
{
    let count = classes.len();
    write!(text, "classes {count}\n")?;
    push_class_lines(text, classes.as_slice())
}

fn push_pair_line(text: &mut String, words: &str, pair: Ends) -> Result<(), Memory>
    ensures { OnOk result
        (string_bytes text.new ≡ string_bytes text.old ++ pair_line words.now pair) }
{
    let Ends { a, b } = pair;
    write!(text, "{words} {a} {b}\n")
}

fn push_bicritical(text: &mut String, unlike: Option<Ends>) -> Result<(), Memory>
    ensures { OnOk result
        (string_bytes text.new ≡ string_bytes text.old ++ bicritical_line unlike) }
{
    match unlike {
        None => write!(text, "bicritical yes\n"),
        Some(pair) => push_pair_line(text, "bicritical no", pair),
    }
}

fn push_cut_pair(text: &mut String, pair: Option<Ends>) -> Result<(), Memory>
    ensures { OnOk result (string_bytes text.new ≡ string_bytes text.old ++ cut_pair_line pair) }
{
    match pair {
        None => write!(text, "cutpair none\n"),
        Some(pair) => push_pair_line(text, "cutpair", pair),
    }
}

// Appends the shore that shows a composite graph.
fn push_shore(text: &mut String, kind: &Kind) -> Result<(), Memory>
    ensures { OnOk result
        (string_bytes text.new ≡ string_bytes text.old ++ numbers_text (shore_of kind.now)) }
{
    match kind {
        Kind::Composite { cut } => push_set(text, *cut),
        Kind::Brick | Kind::Brace => Ok(()),
    }
}

fn push_kind(text: &mut String, kind: &Kind) -> Result<(), Memory>
    ensures { OnOk result (string_bytes text.new ≡ string_bytes text.old ++ leaf_kind_line kind.now) }
{
    let word = kind_word(kind);
    write!(text, "kind {word}")?;
    push_shore(text, kind)?;
    write!(text, "\n")
}

/// Appends the lines on the structure.
#[tactic(auto, unfolding(crate::specs::Structures::structure_text))]
pub fn push_structure(text: &mut String, structure: &Structure) -> Result<(), Memory>
    ensures { OnOk result
        (string_bytes text.new ≡ string_bytes text.old ++ structure_text structure.now) }
{
    push_classes(text, &structure.classes)?;
    push_bicritical(text, structure.unlike)?;
    push_cut_pair(text, structure.cutpair)?;
    push_kind(text, &structure.kind)
}
