//! The report of a comparison of two derivations.
ghost use Rattle.std.specs.Prelude.{◌≡◌, ◌++◌, OnOk, IfOk, string_bytes};
ghost use Rattle.graph_core.specs.Common.{names_of};
ghost use Rattle.move_text.specs.from_tree_core.Common.{move_of, moves_of};
ghost use Rattle.report_text.specs.Common.{image_line, image_lines, map_text, map_texts, reported_move_line, move_lines, pairing_text, partner_line, same_line};

use contraction::{Partition, name_of};
use graph_core::Numbers;
use graph_core::listed::Listed;
use move_text::push_move;
use move_text::tree_core::{Move, Moves};
use std::alloc::{AllocError as Memory, Global};

/// What is reported about one leaf of the first tree.
#[derive(Drop)]
pub struct MapLine {
    /// The number of the leaf, counted from 1 in preorder.
    pub leaf: u32,
    /// The number of its partner among the leaves of the second tree.
    pub partner: u32,
    /// The names of its blocks, in order.
    pub names: Numbers,
    /// The names of the images of these blocks, in the same order.
    pub images: Numbers,
}

/// What is reported about the leaves of the first tree.
pub type MapLines = Listed<MapLine>;

/// The names of the blocks of a partition, in order: the highest-numbered vertex of each. Takes
/// O(k) time for k blocks; the only error is `Memory`.
pub fn block_names(alloc: Global, p: &Partition) -> Result<Numbers, Memory>
    ensures { IfOk result (λ names. names ≡ names_of p.now.blocks) }
{
    let mut names = Numbers::new(alloc);
    for i in 0..p.len() {
        names.push(name_of(p.block(i)))?;
    }
    Ok(names)
}

fn push_same(text: &mut String, leaves: usize, moves: usize) -> Result<(), Memory>
    ensures { OnOk result
        (string_bytes text.new ≡ string_bytes text.old ++ same_line leaves moves) }
{
    write!(text, "same leaves {leaves} moves {moves}\n")
}

fn push_move_line(text: &mut String, item: &Move) -> Result<(), Memory>
    ensures { OnOk result
        (string_bytes text.new ≡ string_bytes text.old ++ reported_move_line (move_of item.now)) }
{
    write!(text, "move ")?;
    push_move(text, item)
}

fn push_moves(text: &mut String, moves: &[Move]) -> Result<(), Memory>
    ensures { OnOk result
        (string_bytes text.new ≡ string_bytes text.old ++ move_lines (moves_of moves.now)) }
{
    let mut rest = moves;
    'writing: while let Some((item, others)) = rest.split_first() {
        push_move_line(text, item)?;
        rest = others;
    }
    Ok(())
}

fn push_partner(text: &mut String, leaf: u32, partner: u32) -> Result<(), Memory>
    ensures { OnOk result
        (string_bytes text.new ≡ string_bytes text.old ++ partner_line leaf partner) }
{
    write!(text, "leaf {leaf} with {partner}\n")?;
    Ok(())
}

fn push_image(text: &mut String, name: u32, image: u32) -> Result<(), Memory>
    ensures { OnOk result (string_bytes text.new ≡ string_bytes text.old ++ image_line name image) }
{
    write!(text, "map {name} to {image}\n")
}

fn push_images(text: &mut String, names: &[u32], images: &[u32]) -> Result<(), Memory>
    ensures { OnOk result
        (string_bytes text.new ≡ string_bytes text.old ++ image_lines names.now images.now) }
{
    let mut blocks = names;
    let mut targets = images;
    'writing: while let (Some((name, other_blocks)), Some((image, other_targets))) = (
        blocks.split_first(),
        targets.split_first(),
    ) {
        push_image(text, *name, *image)?;
        blocks = other_blocks;
        targets = other_targets;
    }
    Ok(())
}

fn push_map(text: &mut String, line: &MapLine) -> Result<(), Memory>
    ensures { OnOk result (string_bytes text.new ≡ string_bytes text.old ++ map_text line.now) }
{
    push_partner(text, line.leaf, line.partner)?;
    push_images(text, line.names.as_slice(), line.images.as_slice())
}

fn push_maps(text: &mut String, maps: &[MapLine]) -> Result<(), Memory>
    ensures { OnOk result (string_bytes text.new ≡ string_bytes text.old ++ map_texts maps.now) }
{
    let mut rest = maps;
    'writing: while let Some((line, others)) = rest.split_first() {
        push_map(text, line)?;
        rest = others;
    }
    Ok(())
}

/// Writes how many leaves there are and how many moves, the moves in order, and for each leaf its
/// partner and, for each of its blocks, the block's name and that of its image. If a leaf has more
/// names than images, or more images than names, the surplus is left out. Takes O(b) time for b
/// bytes written; the only error is `Memory`.
#[tactic(auto, unfolding(crate::specs::Comparisons::pairing_text))]
pub fn pairing(alloc: Global, moves: &Moves, maps: &MapLines) -> Result<Vec<u8>, Memory>
    ensures { IfOk result (λ text. text.items ≡ pairing_text (moves_of moves.now) maps.now) }
{
    let mut text = String::new(alloc);
    push_same(&mut text, maps.len(), moves.len())?;
    push_moves(&mut text, moves.as_slice())?;
    push_maps(&mut text, maps.as_slice())?;
    Ok(text.into_bytes())
}
