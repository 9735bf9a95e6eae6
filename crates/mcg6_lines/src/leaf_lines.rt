//! The lines of `leaves`.
ghost use Rattle.std.specs.Prelude.{◌≡◌, ◌++◌, ℕ, List, Ok, IfOk, OnOk, map};
ghost use Rattle.graph_core.specs.Common.{Graph};
ghost use Rattle.tree_core.specs.Common.{place_of};
ghost use Rattle.graph6_text.specs.Common.{outcome_of};
ghost use Rattle.mcg6_lines.specs.LeafLines.{AreLeafLines, AreLinesOf, TellsLeaves, leaf_end, leaf_line, line_front};

use crate::decimals::push_decimal;
use decomposer::{NamedOrder, decompose_places};
use graph_core::MultiGraph;
use graph6_text::{bare_text, push_graph6};
use leaf_kinds::graph_facts::Covered;
use report_text::leaf_kind_word;
use std::alloc::{AllocError as Memory, Global};
use tree_core::{KnownPlace, LeafKind, kinds_at};

/// The lines of the leaves of the derivation that the order picks, for the graph that stands in
/// the text of the line with this number; nothing if the graph is not matching covered.
pub fn leaf_lines(
    alloc: Global,
    g: &MultiGraph,
    order: NamedOrder,
    number: u64,
    text: &[u8],
) -> Result<Vec<u8>, Memory>
    requires { outcome_of text.now ≡ Ok g.now }
    ensures { IfOk result (λ lines. AreLeafLines order number g.now lines.items) }
{
    match Covered::of(alloc, g)? {
        Ok(c) => {
            let front = line_front(alloc, number, text)?;
            covered_leaf_lines(alloc, &c, order, &front)
        }
        Err(_) => Ok(Vec::new(alloc)),
    }
}

/// The front of each line of `leaves`, and of other lines that name the graph: the number of its line,
/// and its graph6 text. The only error is `Memory`.
pub fn line_front(alloc: Global, number: u64, text: &[u8]) -> Result<Vec<u8>, Memory>
    ensures { (g : _) → outcome_of text.now ≡ Ok g
        → IfOk result (λ front. front.items ≡ line_front number g) }
{
    let mut front = Vec::new(alloc);
    push_decimal(&mut front, number)?;
    front.extend_from_slice(b" ")?;
    front.extend_from_slice(bare_text(text))?;
    front.extend_from_slice(b" ")?;
    Ok(front)
}

// The lines of the leaves of the derivation that the order picks of a covered graph.
fn covered_leaf_lines(
    alloc: Global,
    c: &Covered,
    order: NamedOrder,
    front: &[u8],
) -> Result<Vec<u8>, Memory>
    ensures { IfOk result (λ lines. TellsLeaves order front.now c.now lines.items) }
{
    let found = decompose_places(alloc, c, &order)?;
    lines_of_leaves(alloc, &found.leaves, front)
}

// The lines of the leaves at these places of a graph, each after the same front.
fn lines_of_leaves(alloc: Global, leaves: &[KnownPlace], front: &[u8]) -> Result<Vec<u8>, Memory>
    requires { (g : Graph) × (ps : List (List (List ℕ))) × (leaves.now ≡ map (place_of g) ps) }
    ensures { (g : Graph) (ps : List (List (List ℕ))) → leaves.now ≡ map (place_of g) ps →
        IfOk result (λ lines. AreLinesOf front.now g ps lines.items) }
{
    let kinds = kinds_at(alloc, leaves)?;
    let mut lines = Vec::new(alloc);
    for (i, leaf) in leaves.iter().enumerate() {
        push_leaf(alloc, &mut lines, leaf, kinds[i], front)?;
    }
    Ok(lines)
}

// Appends the line of the leaf of this kind at a place.
#[tactic(auto, using(crate::proofs::SimpleQuotients::simple_quotient))]
fn push_leaf(
    alloc: Global,
    lines: &mut Vec<u8>,
    leaf: &KnownPlace,
    kind: LeafKind,
    front: &[u8],
) -> Result<(), Memory>
    ensures { OnOk result
        (lines.new.items ≡ lines.old.items
        ++ leaf_line front.now leaf.now.graph leaf.now.blocks kind) }
{
    let q = leaf.quotient(alloc)?;
    lines.extend_from_slice(front)?;
    push_graph6(alloc, lines, q.graph())?;
    push_leaf_end(lines, kind)
}

// Appends the end of the line of a leaf of this kind.
fn push_leaf_end(lines: &mut Vec<u8>, kind: LeafKind) -> Result<(), Memory>
    ensures { OnOk result (lines.new.items ≡ lines.old.items ++ leaf_end kind) }
{
    lines.extend_from_slice(b" ")?;
    lines.extend_from_slice(leaf_kind_word(kind).as_bytes())?;
    lines.extend_from_slice(b"\n")
}
