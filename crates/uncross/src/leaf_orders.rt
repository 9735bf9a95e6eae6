//! The order of the leaves under a move: the old numbers of the leaves in the order of the new
//! tree.
ghost use Rattle.std.specs.Prelude.{◌≡◌, ◌≤◌, ◌+◌, ◌++◌, IfOk, OnOk, length};
ghost use Rattle.tree_core.specs.Common.{kept_order_if_greatest_stays, move_order, numbers, order_at, rotate_order, switch_order, move_of, cut, leaf_count, shape_of};
ghost use Rattle.tree_core.specs.declared.path.Side.TheVariants.{Merged};
ghost use Rattle.uncross.specs.Common.{changed_order};

use graph_core::Numbers;
use graph_core::vset_core::VSet;
use std::alloc::{AllocError as Memory, Global};
use tree_core::{MOST_NODES, Move, Side, Tree, holds_greatest};

/// The number of leaves of a tree. Takes no memory.
pub fn leaf_total(tree: &Tree) -> u32
    requires { leaf_count (shape_of tree.now) ≤ MOST_NODES }
    ensures { result ≡ leaf_count (shape_of tree.now) }
{
    match tree {
        Tree::Leaf => 1,
        Tree::Cut { kept, merged, .. } => leaf_total(kept) + leaf_total(merged),
    }
}

/// Appends the numbers k + 1 to k + `count`.
pub fn push_numbers(order: &mut Numbers, k: u32, count: u32) -> Result<(), Memory>
    requires { k + count ≤ MOST_NODES }
    ensures order { OnOk result (order.new ≡ order.old ++ numbers k count) }
    ensures count { OnOk result (length order.new ≡ length order.old + count) }
{
    for i in 0..count {
        order.push(k + i + 1)?;
    }
    Ok(())
}

// Appends the order below `kept` where the highest-numbered vertex stays: the two subtrees change
// places if a shore contains u. k leaves come before the tree.
fn push_kept_order(order: &mut Numbers, u: VSet, k: u32, tree: &Tree) -> Result<(), Memory>
    requires { k + leaf_count (shape_of tree.now) ≤ MOST_NODES }
    ensures order { OnOk result
        (order.new ≡ order.old ++ kept_order_if_greatest_stays u k (shape_of tree.now)) }
    ensures count { OnOk result
        (length order.new ≡ length order.old + leaf_count (shape_of tree.now)) }
{
    match tree {
        Tree::Leaf => push_numbers(order, k, 1),
        Tree::Cut {
            shore,
            kept,
            merged,
        } => {
            let before = k + leaf_total(kept);
            if u.is_subset(*shore) {
                push_kept_order(order, u, before, merged)?;
                push_kept_order(order, u, k, kept)
            } else {
                push_kept_order(order, u, k, kept)?;
                push_kept_order(order, u, before, merged)
            }
        }
    }
}

// Appends the order of a Switch at the root of the tree.
fn push_switch_order(
    order: &mut Numbers,
    n: u32,
    u: VSet,
    v: VSet,
    k: u32,
    tree: &Tree,
) -> Result<(), Memory>
    requires { k + leaf_count (shape_of tree.now) ≤ MOST_NODES }
    ensures order { OnOk result
        (order.new ≡ order.old ++ switch_order n u v k (shape_of tree.now)) }
    ensures count { OnOk result
        (length order.new ≡ length order.old + leaf_count (shape_of tree.now)) }
{
    match tree {
        Tree::Leaf => push_numbers(order, k, 1),
        Tree::Cut { kept, merged, .. } => {
            let inside = leaf_total(kept);
            let outside = leaf_total(merged);
            if holds_greatest(v, n) {
                push_numbers(order, k + inside, outside)?;
                push_numbers(order, k, inside)
            } else {
                push_kept_order(order, u, k, kept)?;
                push_numbers(order, k + inside, outside)
            }
        }
    }
}

// Appends the order of a Rotate at the parent of the lower cut, which is its child on the side.
fn push_rotate_order(order: &mut Numbers, side: Side, k: u32, tree: &Tree) -> Result<(), Memory>
    requires { k + leaf_count (shape_of tree.now) ≤ MOST_NODES }
    ensures order { OnOk result (order.new ≡ order.old ++ rotate_order side k (shape_of tree.now)) }
    ensures count { OnOk result
        (length order.new ≡ length order.old + leaf_count (shape_of tree.now)) }
{
    match side {
        Side::Kept => push_numbers(order, k, leaf_total(tree)),
        Side::Merged => match tree {
            Tree::Leaf => push_numbers(order, k, 1),
            Tree::Cut {
                shore,
                kept,
                merged,
            } => push_merged_order(order, k, *shore, kept, merged),
        },
    }
}

// Appends the order of a Rotate at a cut with the lower cut in `merged`.
fn push_merged_order(
    order: &mut Numbers,
    k: u32,
    shore: VSet,
    kept: &Tree,
    merged: &Tree,
) -> Result<(), Memory>
    requires { k + leaf_count (shape_of kept.now) + leaf_count (shape_of merged.now) ≤ MOST_NODES }
    ensures order { OnOk result
        (order.new ≡ order.old ++
        rotate_order Merged k (cut shore (shape_of kept.now) (shape_of merged.now))) }
    ensures count { OnOk result
        (length order.new ≡ length order.old + leaf_count (shape_of kept.now) + leaf_count
        (shape_of merged.now)) }
{
    let first = leaf_total(kept);
    match merged {
        Tree::Leaf => push_numbers(order, k, first + 1),
        Tree::Cut {
            shore: lower,
            kept: middle,
            merged: last,
        } => {
            let second = leaf_total(middle);
            let third = leaf_total(last);
            if shore.is_subset(*lower) {
                return push_numbers(order, k, first + second + third);
            }
            push_numbers(order, k + first, second)?;
            push_numbers(order, k, first)?;
            push_numbers(order, k + first + second, third)
        }
    }
}

// What a move changes at the end of a path.
#[derive(Drop)]
enum Change {
    // A Rotate at this node, whose child on the side is the lower cut.
    Rotate(Side),
    // A Switch of u and v at this node of a tree over 1 to n.
    Switch { n: u32, u: VSet, v: VSet },
}

// Appends the order that a change at the root of the tree makes.
fn push_order_here(order: &mut Numbers, change: &Change, k: u32, tree: &Tree) -> Result<(), Memory>
    requires { k + leaf_count (shape_of tree.now) ≤ MOST_NODES }
    ensures order { OnOk result
        (order.new ≡ order.old ++ changed_order change.now k (shape_of tree.now)) }
    ensures count { OnOk result
        (length order.new ≡ length order.old + leaf_count (shape_of tree.now)) }
{
    match change {
        Change::Rotate(side) => push_rotate_order(order, *side, k, tree),
        Change::Switch { n, u, v } => push_switch_order(order, *n, *u, *v, k, tree),
    }
}

// Appends the order that a change at the end of the path makes.
fn push_order_along(
    order: &mut Numbers,
    path: &[Side],
    change: &Change,
    k: u32,
    tree: &Tree,
) -> Result<(), Memory>
    requires { k + leaf_count (shape_of tree.now) ≤ MOST_NODES }
    ensures order { OnOk result
        (order.new ≡ order.old ++
        order_at (changed_order change.now) path.now k (shape_of tree.now)) }
    ensures count { OnOk result
        (length order.new ≡ length order.old + leaf_count (shape_of tree.now)) }
{
    let Some((side, rest)) = path.split_first() else {
        return push_order_here(order, change, k, tree);
    };
    match tree {
        Tree::Leaf => push_numbers(order, k, 1),
        Tree::Cut { kept, merged, .. } => {
            let first = leaf_total(kept);
            match side {
                Side::Kept => {
                    push_order_along(order, rest, change, k, kept)?;
                    push_numbers(order, k + first, leaf_total(merged))
                }
                Side::Merged => {
                    push_numbers(order, k, first)?;
                    push_order_along(order, rest, change, k + first, merged)
                }
            }
        }
    }
}

// Appends the order that a move on the whole tree makes.
fn push_move_order(order: &mut Numbers, n: u32, tree: &Tree, m: &Move) -> Result<(), Memory>
    requires { leaf_count (shape_of tree.now) ≤ MOST_NODES }
    ensures order { OnOk result
        (order.new ≡ order.old ++ move_order n (move_of m.now) (shape_of tree.now)) }
    ensures count { OnOk result
        (length order.new ≡ length order.old + leaf_count (shape_of tree.now)) }
{
    match m {
        Move::Rotate { path } => match path.as_slice().split_last() {
            None => push_numbers(order, 0, leaf_total(tree)),
            Some((last, parents)) => {
                push_order_along(order, parents, &Change::Rotate(*last), 0, tree)
            }
        },
        Move::Switch { path, u, v } => {
            let change = Change::Switch { n, u: *u, v: *v };
            push_order_along(order, path.as_slice(), &change, 0, tree)
        }
    }
}

/// The old numbers of the leaves, in the order of the tree that the move makes.
pub fn move_order(alloc: Global, n: u32, tree: &Tree, m: &Move) -> Result<Numbers, Memory>
    requires { leaf_count (shape_of tree.now) ≤ MOST_NODES }
    ensures order { IfOk result
        (λ order. order ≡ move_order n (move_of m.now) (shape_of tree.now)) }
    ensures count { IfOk result (λ order. length order ≡ leaf_count (shape_of tree.now)) }
{
    let mut order = Numbers::new(alloc);
    push_move_order(&mut order, n, tree, m)?;
    Ok(order)
}
