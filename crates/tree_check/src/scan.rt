//! The scan of a tree in preorder.
ghost use Rattle.std.specs.Prelude.{◌≡◌, ◌≤◌, ◌<◌, ◌+◌, ◌^◌, length, IfOk};
ghost use Rattle.tree_core.specs.Common.{Fits, cut, shape_of};
ghost use Rattle.tree_check.specs.Common.{IsJudgement, HasFewKinds, IsScanResult, IsScannedAt, sum_of};

use crate::judgement::{Judgement, Scanned};
use crate::known_places::KnownPlaces;
use crate::leaf::scan_leaf;
use crate::rules::fault_if_unknown;
use graph_core::MultiGraph;
use graph_core::vset_core::VSet;
use move_laws::graph_facts::Covered;
use std::alloc::{AllocError as Memory, Global};
use tree_core::{Place, Tally, Tree};

/// Whether `tree`, whose shores lie below the order of `g`, is a derivation of `g`. `NotCovered`
/// comes if and only if `g` is not matching covered, with the first reason; `Accepted` if and only
/// if it is and the tree is a derivation of it; else `Refused` names the first node in preorder
/// that breaks a rule, and the first rule that it breaks. Takes O(n m (n^3 + m)) steps on words at
/// most: at each of fewer than n nodes one test as by `is_tight`, or the search for a first cut.
/// The only error is `Memory`.
///
/// Here `hexagon` makes the cycle of the vertices 1 to 6:
///
/// ```
/// let graph = hexagon(alloc)?;
/// let tree = Tree::Cut {
///     shore: VSet::one(2).with(3).with(4),
///     kept: Box::new(alloc, Tree::Leaf)?,
///     merged: Box::new(alloc, Tree::Leaf)?,
/// };
/// assert!(rt; fits(&tree, graph.order()));
/// assert!(rt; matches!(check(alloc, &graph, &tree)?, Judgement::Accepted));
/// ```
pub fn check(alloc: Global, g: &MultiGraph, tree: &Tree) -> Result<Judgement, Memory>
    requires { Fits g.now.order (shape_of tree.now) }
    ensures { IfOk result (IsJudgement g.now (shape_of tree.now)) }
{
    match Covered::of(alloc, g)? {
        Ok(covered) => check_covered(alloc, &covered, tree),
        Err(reason) => Ok(Judgement::NotCovered(reason)),
    }
}

/// What `check` returns for a covered graph, from what is known of it. Costs what `check` costs,
/// less `Covered::of`; the only error is `Memory`.
pub fn check_covered(alloc: Global, c: &Covered, tree: &Tree) -> Result<Judgement, Memory>
    requires { Fits c.now.order (shape_of tree.now) }
    ensures { IfOk result (IsJudgement c.now (shape_of tree.now)) }
{
    match scan_covered(alloc, c, tree)? {
        Scanned::Passed { .. } => Ok(Judgement::Accepted),
        Scanned::Refused { node, why } => Ok(Judgement::Refused { node, why }),
    }
}

/// Judges a tree of a covered graph and counts its leaves: each is told to be a brick or a brace by
/// what its judgement finds of its quotient. Costs what `check_covered` costs; the only error is
/// `Memory`.
pub fn scan_covered(alloc: Global, c: &Covered, tree: &Tree) -> Result<Scanned, Memory>
    requires { Fits c.now.order (shape_of tree.now) }
    ensures { IfOk result (IsScanResult c.now (shape_of tree.now)) }
{
    let mut known = KnownPlaces::none(alloc, c);
    scan_known(alloc, &mut known, tree)
}

/// What `scan_covered` returns of a tree of a covered graph. What is known of a leaf is not sought
/// again: that it is a brick or a brace, and which. What is found is known from now on. Elsewhere
/// it costs what `check_covered` costs; the only error is `Memory`.
pub fn scan_known(alloc: Global, known: &mut KnownPlaces, tree: &Tree) -> Result<Scanned, Memory>
    requires { Fits known.old.order (shape_of tree.now) }
    ensures scanned { IfOk result (IsScanResult known.old (shape_of tree.now)) }
    ensures same { known.new ≡ known.old }
{
    let c = known.covered();
    c.keeps_covered();
    let root = Place::root(alloc, c)?;
    let found = scan_at(alloc, known, root, tree, 1)?;
    Ok(found)
}

// Scans the cut of the shore at p and the two trees below it. The cut has the number `node`.
#[cycle(scanning)]
fn scan_cut<'c, 'g>(
    alloc: Global,
    known: &mut KnownPlaces<'c, 'g>,
    p: &Place<'c>,
    shore: VSet,
    kept: &Tree,
    merged: &Tree,
    node: u32,
) -> Result<Scanned, Memory>
    requires graph { p.now.graph ≡ known.old }
    requires fits { Fits p.now.graph.order (cut shore (shape_of kept.now) (shape_of merged.now)) }
    requires few { node + length p.now.blocks ≤ 129 }
    ensures scanned { IfOk result (IsScannedAt p.now.graph p.now.blocks
        (cut shore (shape_of kept.now) (shape_of merged.now)) node) }
    ensures same { known.new ≡ known.old }
{
    if let Some(why) = fault_if_unknown(alloc, known, p, shore)? {
        return Ok(Scanned::Refused { node, why });
    }
    p.keeps_place();
    let below = p.kept(alloc, shore)?;
    let inside = match scan_at(alloc, known, below, kept, node + 1)? {
        Scanned::Refused { node, why } => return Ok(Scanned::Refused { node, why }),
        Scanned::Passed { tally } => tally,
    };
    let next = node + 2 * inside.leaves;
    let beside = p.merged(alloc, shore)?;
    match scan_at(alloc, known, beside, merged, next)? {
        Scanned::Refused { node, why } => Ok(Scanned::Refused { node, why }),
        Scanned::Passed { tally } => Ok(Scanned::Passed {
            tally: together(inside, tally),
        }),
    }
}

// Scans the tree at p, whose first node has the number `node`.
#[cycle(scanning)]
fn scan_at<'c, 'g>(
    alloc: Global,
    known: &mut KnownPlaces<'c, 'g>,
    p: Place<'c>,
    tree: &Tree,
    node: u32,
) -> Result<Scanned, Memory>
    requires graph { p.graph ≡ known.old }
    requires fits { Fits p.graph.order (shape_of tree.now) }
    requires few { node + length p.blocks ≤ 129 }
    ensures scanned { IfOk result
        (IsScannedAt p.entry.graph p.entry.blocks (shape_of tree.now) node) }
    ensures same { known.new ≡ known.old }
{
    match tree {
        Tree::Leaf => scan_leaf(alloc, known, p, node),
        Tree::Cut {
            shore,
            kept,
            merged,
        } => scan_cut(alloc, known, &p, *shore, kept, merged, node),
    }
}

// The leaves of the two trees below a cut together.
fn together(inside: Tally, outside: Tally) -> Tally
    requires few { inside.leaves + outside.leaves < 2 ^ 32 }
    requires inside { HasFewKinds inside }
    requires outside { HasFewKinds outside }
    ensures { result ≡ sum_of inside outside }
{
    Tally {
        leaves: inside.leaves + outside.leaves,
        bricks: inside.bricks + outside.bricks,
        braces: inside.braces + outside.braces,
    }
}
