//! Comparing: a derivation is turned into another, and the leaves of the two are paired.
ghost use Rattle.std.specs.Prelude.{◌≡◌, ◌++◌, ◌*◌, ◌≤◌, IfOk, length, map};
ghost use Rattle.graph_core.specs.Common.{singles};
ghost use Rattle.tree_core.specs.Common.{IsCutAt, IsDerivation, IsDerivationAt, kept_at, merged_at, script_maps, leaves, moves_of, TurnsThrough, below, cut_count, shape_of};
ghost use Rattle.move_laws.specs.Common.{IsPairing, IsProperScript};
ghost use Rattle.uncross.specs.Common.{IsBrought, IsPlaceBelow, maps_of};

use crate::exposing::{Exposure, expose_at};
use crate::leaf_maps::LeafMaps;
use crate::move_maps::script_maps;
use crate::places_below::{PlacesBelow, places_below};
use crate::turning::append_below;
use graph_core::MultiGraph;
use graph_core::vset_core::VSet;
use move_laws::graph_facts::Covered;
use std::alloc::{AllocError as Memory, Global};
use tree_core::{Moves, Place, Side, Tree, copy};

/// The two trees below a shore that moves have brought to the root, their places, and the moves.
#[derive(Drop)]
pub struct Brought<'g> {
    /// The places of the two trees.
    pub at: PlacesBelow<'g>,
    /// The tree in `kept`.
    pub kept: Tree,
    /// The tree in `merged`.
    pub merged: Tree,
    /// The moves.
    pub moves: Moves,
}

// Brings a shore to the root of a derivation at p, through derivations at p.
fn bring<'g>(alloc: Global, p: &Place<'g>, tree: Tree, shore: VSet) -> Result<Brought<'g>, Memory>
    requires derives { IsDerivationAt p.now.graph p.now.blocks (shape_of tree) }
    requires shore { IsCutAt p.now.graph p.now.blocks shore }
    ensures kept { IfOk result (λ r.
        IsPlaceBelow p.now.graph (kept_at p.now.graph.order p.now.blocks shore) r.at.kept) }
    ensures merged { IfOk result (λ r.
        IsPlaceBelow p.now.graph (merged_at p.now.graph.order p.now.blocks shore) r.at.merged) }
    ensures brought { IfOk result
        (λ r. IsBrought p.now.graph p.now.blocks (shape_of tree) shore (shape_of r.kept)
        (shape_of r.merged) (moves_of r.moves)) }
{
    let at = places_below(alloc, p, shore)?;
    let Exposure { tree, moves } = expose_at(alloc, p, tree, Some(shore))?;
    let moves = moves.unwrap_or(Moves::new(alloc));
    match tree {
        Tree::Leaf => unreachable!(),
        Tree::Cut { kept, merged, .. } => {
            let kept = Box::into_inner(kept);
            let merged = Box::into_inner(merged);
            Ok(Brought {
                at,
                kept,
                merged,
                moves,
            })
        }
    }
}

// Moves, followed by those made in the two trees below the root, each one step further down.
fn with_both(alloc: Global, moves: Moves, kept: Moves, merged: Moves) -> Result<Moves, Memory>
    ensures { IfOk result
        (λ ms. moves_of ms ≡ (moves_of moves ++ map (below Side.Kept) (moves_of kept)) ++
        map (below Side.Merged) (moves_of merged)) }
{
    let mut all = moves;
    append_below(alloc, Side::Kept, kept.as_slice(), &mut all)?;
    append_below(alloc, Side::Merged, merged.as_slice(), &mut all)?;
    Ok(all)
}

/// The moves that turn the first derivation at p into the second, through derivations at p: the
/// root shore of the second is exposed in the first, then the same is done in the two trees `kept`,
/// and then in the two trees `merged`.
pub fn compare_at(alloc: Global, p: &Place, first: Tree, second: &Tree) -> Result<Moves, Memory>
    requires first { IsDerivationAt p.now.graph p.now.blocks (shape_of first) }
    requires second { IsDerivationAt p.now.graph p.now.blocks (shape_of second.now) }
    ensures script { IfOk result
        (λ ms. IsProperScript p.now.graph p.now.blocks (shape_of first) (moves_of ms)
        (shape_of second.now)) }
    ensures few { IfOk result
        (λ ms. length (moves_of ms) ≤
        5 * (cut_count (shape_of first) * cut_count (shape_of first))) }
{
    p.keeps_place();
    match second {
        Tree::Leaf => Ok(Moves::new(alloc)),
        Tree::Cut {
            shore,
            kept,
            merged,
        } => {
            let y = *shore;
            let brought = bring(alloc, p, first, y)?;
            let at = brought.at;
            let in_kept = compare_at(alloc, &at.kept, brought.kept, kept)?;
            let in_merged = compare_at(alloc, &at.merged, brought.merged, merged)?;
            let moves = with_both(alloc, brought.moves, in_kept, in_merged)?;
            Ok(moves)
        }
    }
}

/// The moves that turn the first derivation of a covered graph into the second, in order and with
/// paths from the root of the whole tree. Each Switch among them is proper, and each tree in
/// between is a derivation of the graph. There are at most 5 c * c moves for a tree of c cuts.
/// Takes O(n^4) steps on words at most; the only error is `Memory`.
pub fn moves_between_covered(
    alloc: Global,
    c: &Covered,
    first: &Tree,
    second: &Tree,
) -> Result<Moves, Memory>
    requires first { IsDerivation c.now (shape_of first.now) }
    requires second { IsDerivation c.now (shape_of second.now) }
    ensures through { IfOk result
        (λ ms. TurnsThrough c.now (shape_of first.now) (moves_of ms) (shape_of second.now)) }
    ensures script { IfOk result
        (λ ms. IsProperScript c.now (singles c.now.order) (shape_of first.now) (moves_of ms)
        (shape_of second.now)) }
    ensures few { IfOk result
        (λ ms. length (moves_of ms) ≤
        5 * (cut_count (shape_of first.now) * cut_count (shape_of first.now))) }
{
    let root = Place::root(alloc, c)?;
    let tree = copy(alloc, first)?;
    let moves = compare_at(alloc, &root, tree, second)?;
    Ok(moves)
}

/// How the leaves of two derivations of a graph are paired, and the moves between them.
#[derive(Drop)]
pub struct Pairing {
    /// One map for each leaf of the first tree in preorder: the place of its partner among the
    /// leaves of the second, and for each of its blocks the name of a block of the partner.
    pub maps: LeafMaps,
    /// The moves that turn the first tree into the second, in order and with paths from the root
    /// of the whole tree.
    pub moves: Moves,
}

/// Compares two derivations of a graph: pairs each leaf of the first with one of the second, each
/// partner being the same leaf by names of blocks (Lovász 1987), and returns moves that turn the
/// first tree into the second. The maps are those of the moves, each tree in between is a
/// derivation of the graph, and there are at most 5 c * c moves for a first tree of c cuts. Takes
/// O(n^4 + m) steps on words at most; the only error is `Memory`.
///
/// Here `hexagon` makes the cycle of the vertices 1 to 6:
///
/// ```
/// let graph = hexagon(alloc)?;
/// let Ok(first) = decompose(alloc, &graph, &NamedOrder::First) else {
///     return Err("not matching covered, or out of memory".into());
/// };
/// let Ok(last) = decompose(alloc, &graph, &NamedOrder::Last) else {
///     return Err("not matching covered, or out of memory".into());
/// };
/// let pairing = compare(alloc, &graph, &first, &last)?;
/// assert!(rt; pairing.maps.len() == 2 && pairing.moves.len() == 1);
/// ```
pub fn compare(
    alloc: Global,
    g: &MultiGraph,
    first: &Tree,
    second: &Tree,
) -> Result<Pairing, Memory>
    requires first { IsDerivation g.now (shape_of first.now) }
    requires second { IsDerivation g.now (shape_of second.now) }
    ensures through { IfOk result
        (λ r. TurnsThrough g.now (shape_of first.now) (moves_of r.moves) (shape_of second.now)) }
    ensures few { IfOk result
        (λ r. length (moves_of r.moves) ≤
        5 * (cut_count (shape_of first.now) * cut_count (shape_of first.now))) }
    ensures maps { IfOk result
        (λ r. maps_of r.maps ≡ script_maps g.now.order (shape_of first.now) (moves_of r.moves)) }
    ensures paired { IfOk result
        (λ r. IsPairing g.now (leaves g.now.order (shape_of first.now))
        (leaves g.now.order (shape_of second.now)) (maps_of r.maps)) }
{
    let covered = Covered::known(alloc, g)?;
    compare_covered(alloc, &covered, first, second)
}

/// What `compare` returns, of a covered graph. Takes O(n^4) steps on words at most; the only error
/// is `Memory`.
pub fn compare_covered(
    alloc: Global,
    c: &Covered,
    first: &Tree,
    second: &Tree,
) -> Result<Pairing, Memory>
    requires first { IsDerivation c.now (shape_of first.now) }
    requires second { IsDerivation c.now (shape_of second.now) }
    ensures through { IfOk result
        (λ r. TurnsThrough c.now (shape_of first.now) (moves_of r.moves) (shape_of second.now)) }
    ensures few { IfOk result
        (λ r. length (moves_of r.moves) ≤
        5 * (cut_count (shape_of first.now) * cut_count (shape_of first.now))) }
    ensures maps { IfOk result
        (λ r. maps_of r.maps ≡ script_maps c.now.order (shape_of first.now) (moves_of r.moves)) }
    ensures paired { IfOk result
        (λ r. IsPairing c.now (leaves c.now.order (shape_of first.now))
        (leaves c.now.order (shape_of second.now)) (maps_of r.maps)) }
{
    c.keeps_covered();
    let moves = moves_between_covered(alloc, c, first, second)?;
    let maps = script_maps(alloc, c.graph(), first, &moves)?;
    Ok(Pairing { maps, moves })
}
