//! The decomposition of a covered graph by tight cuts: the tree, and its leaves as places.
ghost use Rattle.std.specs.Prelude.{◌≡◌, ◌≤◌, ◌+◌, length, map, IfOk, Some};
ghost use Rattle.tight_cuts.specs.Common.{AreClustersAt, candidates, first_shore, candidates_at};
ghost use Rattle.tree_core.specs.Common.{IsCutAt, IsDerivation, cut, cut_count, leaves, place_of, shape_of};
ghost use Rattle.decomposer.specs.Common.{NamedPicks, Finds, IsPicked, MayBeAsked, PicksShore};

use crate::orders::{NamedOrder, Order};
use crate::pickers::Picker;
use crate::shores::picked_at;
use graph_core::vset_core::VSet;
use std::alloc::{AllocError, Global};
use tight_cuts::Clusters;
use tight_cuts::graph_facts::Covered;
use tree_core::{KnownPlace, Tree};

/// The tree of tight cuts that an order picks, with its leaves as places: what the search found
/// of their quotients is known.
#[derive(Drop)]
pub struct Decomposition<'g> {
    /// The tree.
    pub tree: Tree,
    /// Its leaves, in preorder.
    pub leaves: Vec<KnownPlace<'g>>,
}

/// The tree of tight cuts that `order` picks from a covered graph, as `decompose` returns it, with
/// its leaves. What is known of the graph is not sought again. Costs what `decompose` costs, less
/// the first `Covered::of`; the only error is `AllocError`, out of memory.
pub fn decompose_places<'g, O: Order>(
    alloc: Global,
    c: &'g Covered<'g>,
    order: &O,
) -> Result<Decomposition<'g>, AllocError>
    ensures derivation { IfOk result (λ found. IsDerivation c.now (shape_of found.tree)) }
    ensures picked { IfOk result
        (λ found. IsPicked (O.picks order.now) c.now (shape_of found.tree)) }
    ensures leaves { IfOk result (λ found. found.leaves.items
        ≡ map (place_of c.now) (leaves c.now.order (shape_of found.tree))) }
{
    let found = places_picked_by(alloc, c, &order)?;
    Ok(found)
}

/// The tree that `decompose_places` returns, for every rule that may be asked at each choice.
pub(crate) fn places_picked_by<'g, P: Picker>(
    alloc: Global,
    c: &'g Covered<'g>,
    order: &P,
) -> Result<Decomposition<'g>, AllocError>
    requires { MayBeAsked (P.can_pick order.now) c.now.order }
    ensures derivation { IfOk result (λ found. IsDerivation c.now (shape_of found.tree)) }
    ensures picked { IfOk result
        (λ found. IsPicked (P.picks order.now) c.now (shape_of found.tree)) }
    ensures leaves { IfOk result (λ found. found.leaves.items
        ≡ map (place_of c.now) (leaves c.now.order (shape_of found.tree))) }
{
    c.keeps_covered();
    let root = KnownPlace::root(alloc, c)?;
    root.keeps_place();
    let mut leaves = Vec::new(alloc);
    let clusters = Clusters::new(alloc, c.graph())?;
    let (tree, _) = decompose_at(alloc, order, root, 0, clusters, &mut leaves)?;
    Ok(Decomposition { tree, leaves })
}

/// The decomposition in the order `First` of a covered graph of which the shore of the first
/// candidate is at hand. What is known of the graph is not sought again. Costs what `decompose`
/// costs, less the first `Covered::of`; the only error is `AllocError`, out of memory.
pub fn decompose_places_from_first<'g>(
    alloc: Global,
    c: &'g Covered<'g>,
    cut: VSet,
) -> Result<Decomposition<'g>, AllocError>
    requires { first_shore (candidates c.now) ≡ Some cut }
    ensures derivation { IfOk result (λ found. IsDerivation c.now (shape_of found.tree)) }
    ensures picked { IfOk result
        (λ found. IsPicked (NamedPicks NamedOrder.First) c.now (shape_of found.tree)) }
    ensures leaves { IfOk result (λ found. found.leaves.items
        ≡ map (place_of c.now) (leaves c.now.order (shape_of found.tree))) }
{
    c.keeps_covered();
    let root = KnownPlace::root(alloc, c)?;
    root.keeps_place();
    let mut leaves = Vec::new(alloc);
    let clusters = Clusters::new(alloc, c.graph())?;
    let first = NamedOrder::First;
    let (tree, _) = decompose_cut(alloc, &&first, &root, 0, cut, clusters, &mut leaves)?;
    Ok(Decomposition { tree, leaves })
}

/// The tree of a cut.
pub(crate) fn cut_tree(
    alloc: Global,
    shore: VSet,
    kept: Tree,
    merged: Tree,
) -> Result<Tree, AllocError>
    ensures { IfOk result (λ tree. shape_of tree ≡ cut shore (shape_of kept) (shape_of merged)) }
{
    Ok(Tree::Cut {
        shore,
        kept: Box::new(alloc, kept)?,
        merged: Box::new(alloc, merged)?,
    })
}

/// The most cuts before a node and blocks at it together. A tree at four blocks or more has at
/// least three cuts fewer than blocks, so the sum never grows.
pub(crate) const MOST_COUNTED: usize = 256;

// The tree that the order picks at a place with so many cuts before it, and the number of cuts
// before what follows it. Its leaves are appended. The clusters are those that are known at the
// place: they serve the places below too.
#[cycle(decomposing)]
fn decompose_at<'g, P: Picker>(
    alloc: Global,
    order: &P,
    place: KnownPlace<'g>,
    before: usize,
    mut clusters: Clusters,
    leaves: &mut Vec<KnownPlace<'g>>,
) -> Result<(Tree, usize), AllocError>
    requires few { before + length place.blocks ≤ MOST_COUNTED }
    requires clusters { AreClustersAt place.graph place.blocks clusters }
    requires asked { MayBeAsked (P.can_pick order.now) place.graph.order }
    ensures made { IfOk result (λ made. Finds (P.picks order.now) place.entry before
        leaves.old.items (shape_of made.0) made.1 leaves.new.items) }
    ensures few { IfOk result (λ made. 4 ≤ length place.entry.blocks →
        cut_count (shape_of made.0) + 3 ≤ length place.entry.blocks) }
{
    let picked = picked_at(alloc, &place, order, before, &mut clusters)?;
    match picked {
        None => {
            leaves.push(place)?;
            Ok((Tree::Leaf, before))
        }
        Some(shore) => decompose_cut(alloc, order, &place, before, shore, clusters, leaves),
    }
}

// The tree with the cut at a place that the order picks there, and the number of cuts before what
// follows it.
#[cycle(decomposing)]
fn decompose_cut<'g, P: Picker>(
    alloc: Global,
    order: &P,
    place: &KnownPlace<'g>,
    before: usize,
    shore: VSet,
    clusters: Clusters,
    leaves: &mut Vec<KnownPlace<'g>>,
) -> Result<(Tree, usize), AllocError>
    requires cut { IsCutAt place.now.graph place.now.blocks shore }
    requires picked { PicksShore (P.picks order.now)
        (candidates_at place.now.graph place.now.blocks) before shore }
    requires few { before + length place.now.blocks ≤ MOST_COUNTED }
    requires clusters { AreClustersAt place.now.graph place.now.blocks clusters }
    requires asked { MayBeAsked (P.can_pick order.now) place.now.graph.order }
    ensures made { IfOk result (λ made. Finds (P.picks order.now) place.now before
        leaves.old.items (shape_of made.0) made.1 leaves.new.items) }
    ensures few { IfOk result
        (λ made. cut_count (shape_of made.0) + 3 ≤ length place.now.blocks) }
{
    clusters.stay_below(place, shore);
    let inside = place.kept(alloc, shore)?;
    let known = clusters.copy(alloc)?;
    let (kept, between) = decompose_at(alloc, order, inside, before + 1, known, leaves)?;
    let outside = place.merged(alloc, shore)?;
    let (merged, after) = decompose_at(alloc, order, outside, between, clusters, leaves)?;
    let tree = cut_tree(alloc, shore, kept, merged)?;
    Ok((tree, after))
}
