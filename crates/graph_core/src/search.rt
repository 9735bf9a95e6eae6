//! The search through G - S: its components, and for each of them a search tree.
ghost use Rattle.std.specs.Prelude.{◌≡◌, ◌≢◌, ◌≤◌, ◌<◌, ◌+◌, ◌^◌, ◌==◌, ◌&&◌, ◌||◌, ℕ, true, false, [], All, IfOk, OnOk, length};
ghost use Rattle.vset_core.specs.from_counting.Common.{Within, mem, item};
ghost use Rattle.graph_core.specs.Common.{components, Graph, IsGraph, IsGrown, node_at, parent_at, depth_at, AreTrees, AreRows};

use crate::SetList;
use crate::tree::TreeNode;
use std::alloc::{AllocError as Memory, Global};
use vset_core::{MOST_VERTICES, VSet, flooded};

/// Hangs `v` on `parent`.
fn hang(nodes: &mut [TreeNode], v: u32, parent: u32)
    requires first { Within (length nodes.old) v }
    requires second { Within (length nodes.old) parent }
    requires shallow { depth_at nodes.old parent + 1 < 2 ^ 32 }
    ensures parent { parent_at nodes.new v ≡ parent }
    ensures depth { depth_at nodes.new v ≡ depth_at nodes.old parent + 1 }
    ensures others { (u : ℕ) → Within (length nodes.old) u → v ≢ u →
        node_at nodes.new u ≡ node_at nodes.old u }
{
    let depth = nodes[parent as usize - 1].depth + 1;
    nodes[v as usize - 1] = TreeNode { parent, depth };
}

/// Makes `v` a root.
fn plant(nodes: &mut [TreeNode], v: u32)
    requires { Within (length nodes.old) v }
    ensures depth { depth_at nodes.new v ≡ 0 }
    ensures others { (u : ℕ) → Within (length nodes.old) u → v ≢ u →
        node_at nodes.new u ≡ node_at nodes.old u }
{
    nodes[v as usize - 1] = TreeNode {
        parent: v,
        depth: 0,
    };
}

/// Takes the component of `root` out of the vertices of `within`, grows a search tree of it, and
/// returns the vertices that are left.
fn grow(rows: &[VSet], nodes: &mut [TreeNode], within: VSet, root: u32) -> VSet
    requires few { length rows.now ≤ MOST_VERTICES }
    requires graph { (g : Graph) × IsGraph g × AreRows g rows.now }
    requires nodes { length nodes.old ≡ length rows.now }
    requires vertices { (v : ℕ) → mem within v ≡ true → Within (length rows.now) v }
    requires root { mem within root ≡ true }
    ensures grown { (g : Graph) → IsGraph g → AreRows g rows.now →
        IsGrown g (mem within) root (mem result) (parent_at nodes.new) (depth_at nodes.new) }
    ensures kept { (v : ℕ) → Within (length rows.now) v → mem within v ≡ false →
        node_at nodes.new v ≡ node_at nodes.old v }
{
    plant(nodes, root);
    let mut left = within.without(root);
    let mut open = VSet::one(root);
    'growing: while let Some(v) = open.first() {
        match rows[v as usize - 1].meet(left).first() {
            None => open = open.without(v),
            Some(w) => {
                hang(nodes, w, v);
                left = left.without(w);
                open = open.with(w);
            }
        }
    }
    left
}

/// The components of G - `removed`, by least vertex. Writes for each vertex outside `removed` its
/// place in the search tree of its component.
fn search(
    alloc: Global,
    rows: &[VSet],
    nodes: &mut [TreeNode],
    removed: VSet,
) -> Result<SetList, Memory>
    requires few { length rows.now ≤ MOST_VERTICES }
    requires graph { (g : Graph) × IsGraph g × AreRows g rows.now }
    requires nodes { length nodes.old ≡ length rows.now }
    ensures parts { IfOk result
        (λ parts. (g : Graph) → IsGraph g → AreRows g rows.now →
        parts ≡ components g (mem removed)) }
    ensures trees { OnOk result
        ((g : Graph) → IsGraph g → AreRows g rows.now → AreTrees g (mem removed) nodes.new) }
{
    let mut parts = Vec::with_capacity(alloc, rows.len())?;
    let mut left = VSet::full(rows.len() as u32).minus(removed);
    'searching: while let Some(least) = left.first() {
        let rest = grow(rows, nodes, left, least);
        let part = left.minus(rest);
        part.rises();
        parts.push(part)?;
        left = rest;
    }
    Ok(SetList::from_items(parts))
}

/// What a search finds: the components by least vertex, and for each vertex its place in the
/// search tree of its component.
#[derive(Drop)]
pub(crate) struct Forest {
    pub(crate) parts: SetList,
    pub(crate) nodes: Vec<TreeNode>,
}

/// Searches G - `removed`, where G has these rows.
pub(crate) fn grow_forest(alloc: Global, rows: &[VSet], removed: VSet) -> Result<Forest, Memory>
    requires few { length rows.now ≤ MOST_VERTICES }
    requires graph { (g : Graph) × IsGraph g × AreRows g rows.now }
    ensures parts { IfOk result (λ forest. (g : Graph) → IsGraph g → AreRows g rows.now →
        forest.parts ≡ components g (mem removed)) }
    ensures each { IfOk result (λ forest. length forest.nodes.items ≡ length rows.now) }
    ensures trees { IfOk result (λ forest. (g : Graph) → IsGraph g → AreRows g rows.now →
        AreTrees g (mem removed) forest.nodes.items) }
{
    let unplaced = TreeNode {
        parent: 0,
        depth: 0,
    };
    let mut nodes = vec![in alloc; unplaced; rows.len()]?;
    let parts = search(alloc, rows, &mut nodes, removed)?;
    Ok(Forest { parts, nodes })
}

/// The components of G - `removed`, by least vertex, where G has these rows: each is flooded from
/// its least vertex.
pub(crate) fn parts_without(alloc: Global, rows: &[VSet], removed: VSet) -> Result<SetList, Memory>
    requires few { length rows.now ≤ MOST_VERTICES }
    requires graph { (g : Graph) × IsGraph g × AreRows g rows.now }
    ensures { IfOk result (λ parts. (g : Graph) → IsGraph g → AreRows g rows.now →
        parts ≡ components g (mem removed)) }
{
    let mut parts = Vec::with_capacity(alloc, rows.len())?;
    let mut left = VSet::full(rows.len() as u32).minus(removed);
    'flooding: while let Some(least) = left.first() {
        let part = flooded(rows, left, VSet::one(least), VSet::empty()).found;
        part.rises();
        parts.push(part)?;
        left = left.minus(part);
    }
    Ok(SetList::from_items(parts))
}
