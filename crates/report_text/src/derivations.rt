//! The report of a decomposition: the text of its tree, and its leaves as comments.
ghost use Rattle.std.specs.Prelude.{◌≡◌, ◌<◌, ◌≤◌, ◌++◌, ◌^◌, ℕ, List, length, map, codes, OnOk, IfOk, All, string_bytes};
ghost use Rattle.move_text.specs.from_counting.Common.{Within};
ghost use Rattle.graph_core.specs.Common.{Graph, size, quotient};
ghost use Rattle.move_text.specs.from_tree_core.Common.{AreLeafKinds, IsLeafKind, place_of, tally_of};
ghost use Rattle.report_text.specs.Common.{adjacent_line, adjacent_lines, block_lines, derivation_text, numbered_leaf_line, numbered_leaf_lines, leaf_text, name_at, tally_line};
ghost use Rattle.move_text.specs.from_tree_core.declared.tallies.LeafKind.{LeafKind};

use crate::commenting::commented;
use crate::numbers::{push_numbers, push_set_line};
use crate::words::{leaf_kind_word, push_tally};
use contraction::{Partition, PlacedEdges, name_of, quotient_graph};
use graph_core::MultiGraph;
use move_text::tree_core::{
    KnownPlace, LeafKind, Partitions, Tally, kinds_at, leaf_kind_of, tallied,
};
use std::alloc::{AllocError as Memory, Global};

fn push_leaf_line(text: &mut String, number: usize, kind: LeafKind) -> Result<(), Memory>
    ensures { OnOk result (string_bytes text.new ≡ string_bytes text.old ++ numbered_leaf_line number kind) }
{
    let word = leaf_kind_word(kind);
    write!(text, "c leaf {number} {word}\n")
}

fn push_blocks(text: &mut String, p: &Partition) -> Result<(), Memory>
    ensures { OnOk result
        (string_bytes text.new ≡ string_bytes text.old ++
        block_lines p.now.blocks (length p.now.blocks)) }
{
    for i in 0..p.len() {
        push_set_line(text, "c block", p.block(i))?;
    }
    Ok(())
}

// The name of the block at a place, counted from 1.
fn name_at(p: &Partition, place: u32) -> u32
    requires { Within (length p.now.blocks) place }
    ensures { result ≡ name_at p.now.blocks place }
{
    name_of(p.block(place as usize - 1))
}

fn push_adjacent(text: &mut String, a: u32, b: u32, edges: &[u32]) -> Result<(), Memory>
    ensures { OnOk result
        (string_bytes text.new ≡ string_bytes text.old ++ adjacent_line a b edges.now) }
{
    write!(text, "c edge {a} {b} by")?;
    push_numbers(text, edges)?;
    write!(text, "\n")
}

// The lines of the pairs of adjacent blocks, which are the edges of the quotient at the partition.
fn push_pairs(
    alloc: Global,
    text: &mut String,
    g: &MultiGraph,
    p: &Partition,
    q: &MultiGraph,
) -> Result<(), Memory>
    requires order { p.now.order ≡ g.now.order }
    requires quotient { q.now ≡ quotient g.now p.now.blocks }
    ensures { OnOk result
        (string_bytes text.new ≡ string_bytes text.old ++
        adjacent_lines g.now p.now.blocks (size (quotient g.now p.now.blocks))) }
{
    let placed = PlacedEdges::of(alloc, g, p)?;
    for i in 0..q.size() {
        let ends = q.ends(i + 1);
        let edges = placed.between(alloc, ends.a, ends.b)?;
        push_adjacent(text, name_at(p, ends.a), name_at(p, ends.b), &edges)?;
    }
    Ok(())
}

// The lines of the leaf of this kind at a partition with this quotient.
fn push_leaf(
    alloc: Global,
    text: &mut String,
    number: usize,
    kind: LeafKind,
    g: &MultiGraph,
    p: &Partition,
    q: &MultiGraph,
) -> Result<(), Memory>
    requires order { p.now.order ≡ g.now.order }
    requires quotient { q.now ≡ quotient g.now p.now.blocks }
    ensures { OnOk result
        (string_bytes text.new ≡ string_bytes text.old ++
        leaf_text g.now number p.now.blocks kind) }
{
    push_leaf_line(text, number, kind)?;
    push_blocks(text, p)?;
    push_pairs(alloc, text, g, p, q)
}

// The lines of the leaf at a partition, and its kind. Its quotient is computed once for both.
fn push_quotient(
    alloc: Global,
    text: &mut String,
    number: usize,
    g: &MultiGraph,
    p: &Partition,
) -> Result<LeafKind, Memory>
    requires { p.now.order ≡ g.now.order }
    ensures kind { IfOk result (IsLeafKind g.now p.now.blocks) }
    ensures lines { IfOk result
        (λ kind. string_bytes text.new ≡ string_bytes text.old ++
        leaf_text g.now number p.now.blocks kind) }
{
    let q = quotient_graph(alloc, g, p)?;
    let kind = leaf_kind_of(alloc, &q)?;
    push_leaf(alloc, text, number, kind, g, p, &q)?;
    Ok(kind)
}

// The lines of the leaf of this kind at a place. Its quotient is at hand.
fn push_place(
    alloc: Global,
    text: &mut String,
    number: usize,
    kind: LeafKind,
    leaf: &KnownPlace,
) -> Result<(), Memory>
    ensures { OnOk result
        (string_bytes text.new ≡ string_bytes text.old ++
        leaf_text leaf.now.graph number leaf.now.blocks kind) }
{
    let q = leaf.quotient(alloc)?;
    let place = leaf.place();
    push_leaf(
        alloc,
        text,
        number,
        kind,
        place.graph(),
        place.partition(),
        q.graph(),
    )
}

// The lines of the leaves at these partitions, and their kinds.
fn push_partitions(
    alloc: Global,
    text: &mut String,
    g: &MultiGraph,
    leaves: &Partitions,
) -> Result<Vec<LeafKind>, Memory>
    requires { All (λ p. p.order ≡ g.now.order) leaves.now }
    ensures kinds { IfOk result
        (λ kinds. AreLeafKinds g.now (map (λ p. p.blocks) leaves.now) kinds.items) }
    ensures lines { IfOk result
        (λ kinds. string_bytes text.new ≡ string_bytes text.old ++
        numbered_leaf_lines g.now (map (λ p. p.blocks) leaves.now) kinds.items (length leaves.now)) }
{
    let mut kinds = Vec::new(alloc);
    for i in 0..leaves.len() {
        let kind = push_quotient(alloc, text, i + 1, g, leaves.get(i))?;
        kinds.push(kind)?;
    }
    Ok(kinds)
}

// The lines of the leaves of these kinds at these places of a graph.
fn push_places(
    alloc: Global,
    text: &mut String,
    leaves: &[KnownPlace],
    kinds: &[LeafKind],
) -> Result<(), Memory>
    requires { length kinds.now ≡ length leaves.now }
    ensures { (g : Graph) (ps : List (List (List ℕ))) → leaves.now ≡ map (place_of g) ps →
        OnOk result (string_bytes text.new ≡ string_bytes text.old ++
        numbered_leaf_lines g ps kinds.now (length ps)) }
{
    for (i, leaf) in leaves.iter().enumerate() {
        push_place(alloc, text, i + 1, kinds[i], leaf)?;
    }
    Ok(())
}

// The line of the counts.
fn push_counts(text: &mut String, tally: Tally) -> Result<(), Memory>
    ensures { OnOk result (string_bytes text.new ≡ string_bytes text.old ++ tally_line tally) }
{
    write!(text, "c")?;
    push_tally(text, tally)
}

// The lines of the leaves at these partitions and of their counts.
fn comments_at_partitions(
    alloc: Global,
    g: &MultiGraph,
    leaves: &Partitions,
) -> Result<String, Memory>
    requires order { All (λ p. p.order ≡ g.now.order) leaves.now }
    requires few { length leaves.now < 2 ^ 32 }
    ensures { IfOk result
        (λ comments. (kinds : List LeafKind) ×
        AreLeafKinds g.now (map (λ p. p.blocks) leaves.now) kinds ×
        (string_bytes comments ≡
        numbered_leaf_lines g.now (map (λ p. p.blocks) leaves.now) kinds (length leaves.now) ++
        tally_line (tally_of kinds))) }
{
    let mut comments = String::new(alloc);
    let kinds = push_partitions(alloc, &mut comments, g, leaves)?;
    push_counts(&mut comments, tallied(&kinds))?;
    Ok(comments)
}

// The lines of the leaves at these places of a graph and of their counts.
fn comments_at_places(alloc: Global, leaves: &[KnownPlace]) -> Result<String, Memory>
    requires places { (g : Graph) × (ps : List (List (List ℕ))) ×
        (leaves.now ≡ map (place_of g) ps) }
    requires few { length leaves.now < 2 ^ 32 }
    ensures { (g : Graph) (ps : List (List (List ℕ))) → leaves.now ≡ map (place_of g) ps →
        IfOk result (λ comments. (kinds : List LeafKind) × AreLeafKinds g ps kinds ×
        (string_bytes comments ≡
        numbered_leaf_lines g ps kinds (length ps) ++ tally_line (tally_of kinds))) }
{
    let kinds = kinds_at(alloc, leaves)?;
    let mut comments = String::new(alloc);
    push_places(alloc, &mut comments, leaves, &kinds)?;
    push_counts(&mut comments, tallied(&kinds))?;
    Ok(comments)
}

/// Writes the text and then comments on the leaves, which are at these partitions of the vertices
/// of `g`: for each leaf its number and kind, its blocks, and for each pair of adjacent blocks
/// their names and the edges of `g` between them; last the number of leaves. A leaf is called a
/// brace if and only if its quotient is bipartite, and a brick otherwise. Takes O(n (n + m)) time
/// for each leaf, and O(b) for b bytes written; the only error is `Memory`.
#[tactic(auto, unfolding(crate::specs::Derivations::derivation_text))]
pub fn derivation(
    alloc: Global,
    text: &[u8],
    g: &MultiGraph,
    leaves: &Partitions,
) -> Result<Vec<u8>, Memory>
    requires order { All (λ p. p.order ≡ g.now.order) leaves.now }
    requires few { length leaves.now < 2 ^ 32 }
    ensures { IfOk result
        (λ report. (kinds : List LeafKind) ×
        AreLeafKinds g.now (map (λ p. p.blocks) leaves.now) kinds ×
        (report.items ≡ derivation_text text.now g.now (map (λ p. p.blocks) leaves.now)
        kinds)) }
{
    let comments = comments_at_partitions(alloc, g, leaves)?;
    commented(alloc, text, comments.as_str())
}

/// The report that `derivation` writes, of leaves that are places of one graph: their kinds and
/// their quotients are at hand. Takes O(n (n + m)) time for each leaf, and O(b) for b bytes
/// written; the only error is `Memory`.
#[tactic(auto, unfolding(crate::specs::Derivations::derivation_text))]
pub fn derivation_at(alloc: Global, text: &[u8], leaves: &[KnownPlace]) -> Result<Vec<u8>, Memory>
    requires places { (g : Graph) × (ps : List (List (List ℕ))) ×
        (leaves.now ≡ map (place_of g) ps) }
    requires few { length leaves.now < 2 ^ 32 }
    ensures { (g : Graph) (ps : List (List (List ℕ))) → leaves.now ≡ map (place_of g) ps →
        IfOk result (λ report. (kinds : List LeafKind) × AreLeafKinds g ps kinds ×
        (report.items ≡ derivation_text text.now g ps kinds)) }
{
    let comments = comments_at_places(alloc, leaves)?;
    commented(alloc, text, comments.as_str())
}
