//! Where a node of a tree is.
ghost use Rattle.std.specs.Prelude.{◌≡◌, ◌<◌, ◌≤◌, ◌++◌, ◌∷◌, [], List};
ghost use Rattle.tree_core.specs.Common.{node_count, shape_of};
ghost use Rattle.tree_core.specs.declared.path.Side.{Side};
ghost use Rattle.bench_outcomes.specs.Common.{IsNodePlace, IsPlaceAt, root_shore};
ghost use Rattle.bench_reports.specs.NodeSearch.{AreKeptSteps, IsFoundPlace, IsPassed};

use graph_core::vset_core::{MOST_VERTICES, VSet};
use refusals::NodePlace;
use tree_core::{Side, Tree};

// The steps from the root of a tree to one of its nodes, at most 128.
#[derive(Clone, Copy)]
struct Steps {
    depth: u32,
    merged: VSet,
}

// What a search for a node by its number in preorder gives.
#[derive(Drop)]
enum Sought {
    // The node is in the tree; it has no place if more than 128 steps lead to it.
    Found { place: Option<NodePlace> },
    // It comes after the tree, and this is its number among the nodes there.
    Beyond { number: u32 },
}

// The steps with one more to this side. `None` if there would be more than 128.
fn below(steps: &Option<Steps>, side: Side) -> Option<Steps>
    ensures { (path : List Side) → AreKeptSteps steps.now path →
        AreKeptSteps result (path ++ (side ∷ [])) }
{
    match steps {
        Some(above) if above.depth < MOST_VERTICES => {
            let depth = above.depth + 1;
            let merged = above.merged;
            match side {
                Side::Kept => Some(Steps { depth, merged }),
                Side::Merged => Some(Steps {
                    depth,
                    merged: merged.with(depth),
                }),
            }
        }
        _ => None,
    }
}

// The shore of the cut at the root. `None` if the tree is a leaf.
fn shore_of(tree: &Tree) -> Option<VSet>
    ensures { result ≡ root_shore (shape_of tree.now) }
{
    match tree {
        Tree::Leaf => None,
        Tree::Cut { shore, .. } => Some(*shore),
    }
}

// The place of the root of a tree at the end of the steps.
fn place_of(steps: &Option<Steps>, tree: &Tree) -> Option<NodePlace>
    ensures { (path : List Side) → AreKeptSteps steps.now path →
        IsPlaceAt path (shape_of tree.now) result }
{
    match steps {
        Some(Steps { depth, merged }) => Some(NodePlace {
            depth: *depth,
            merged: *merged,
            shore: shore_of(tree),
        }),
        None => None,
    }
}

// Seeks the node with this number in the tree at the end of the steps.
fn seek(tree: &Tree, number: u32, steps: &Option<Steps>) -> Sought
    requires { 0 < number }
    ensures found { (path : List Side) → AreKeptSteps steps.now path →
        IsFoundPlace path (shape_of tree.now) number result }
    ensures passed { IsPassed (shape_of tree.now) number result }
{
    if number == 1 {
        return Sought::Found {
            place: place_of(steps, tree),
        };
    }
    match tree {
        Tree::Leaf => Sought::Beyond { number: number - 1 },
        Tree::Cut { kept, merged, .. } => match seek(kept, number - 1, &below(steps, Side::Kept)) {
            Sought::Found { place } => Sought::Found { place },
            Sought::Beyond { number } => seek(merged, number, &below(steps, Side::Merged)),
        },
    }
}

/// The place of the node of the tree with this number in preorder, counted from 1. `None` if more
/// than 128 steps lead to it. Takes no memory.
pub fn node_place(tree: &Tree, number: u32) -> Option<NodePlace>
    requires counted { 0 < number }
    requires within { number ≤ node_count (shape_of tree.now) }
    ensures { IsNodePlace (shape_of tree.now) number result }
{
    let root = Some(Steps {
        depth: 0,
        merged: VSet::empty(),
    });
    match seek(tree, number, &root) {
        Sought::Found { place } => place,
        Sought::Beyond { .. } => None,
    }
}
