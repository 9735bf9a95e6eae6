//! Writing a tree.
ghost use Rattle.std.specs.Prelude.{◌≡◌, ◌≤◌, ◌++◌, [], ◌∷◌, OnOk, IfOk, string_bytes};
ghost use Rattle.graph_core.specs.from_line_text.Common.{Stands, StandsAlone, written};
ghost use Rattle.tree_core.specs.Common.{Fits, node_count, shape_of};
ghost use Rattle.tree_text.specs.Common.{tree_format, most_nodes, cut_words, node_words, tree_text, HasVertices, ShoresRise};

use graph_core::vset_core::VSet;
use std::alloc::{AllocError as Memory, Global};
use tree_core::Tree;

// The line of a cut.
fn push_cut(text: &mut String, shore: VSet) -> Result<(), Memory>
    ensures { OnOk result
        (string_bytes text.new ≡ string_bytes text.old ++ written (cut_words shore ∷ [])) }
{
    write!(text, "cut")?;
    let mut rest = shore;
    'vertices: while let Some((v, others)) = rest.split_first() {
        write!(text, " {v}")?;
        rest = others;
    }
    write!(text, "\n")?;
    Ok(())
}

// The lines of the nodes of a tree, in preorder.
#[tactic(auto, using(crate::proofs::TextSoFar::cut_lines))]
fn push_nodes(text: &mut String, tree: &Tree) -> Result<(), Memory>
    ensures text { OnOk result
        (string_bytes text.new ≡ string_bytes text.old ++
        written (node_words (shape_of tree.now))) }
    ensures rising { OnOk result (ShoresRise (shape_of tree.now)) }
{
    match tree {
        Tree::Leaf => write!(text, "leaf\n"),
        Tree::Cut {
            shore,
            kept,
            merged,
        } => {
            shore.rises();
            push_cut(text, *shore)?;
            push_nodes(text, kept)?;
            push_nodes(text, merged)
        }
    }
}

/// Writes a tree of cuts over 1 to `n` whose shores are not empty: a header `t mcg N`, and a line
/// for each node in preorder, `leaf` or `cut` with the vertices of the shore; after a cut come
/// first the nodes of its `kept` tree.
///
/// Reading the text gives the same tree, and nothing else. Takes O(b) time for b bytes written; the
/// only error is `Memory`.
pub fn write_tree(alloc: Global, tree: &Tree, n: u32) -> Result<Vec<u8>, Memory>
    requires order { n ≤ 999999999 }
    requires fits { Fits n (shape_of tree.now) }
    requires vertices { HasVertices (shape_of tree.now) }
    requires few { node_count (shape_of tree.now) ≤ most_nodes }
    ensures text { IfOk result (λ text. text.items ≡ tree_text n (shape_of tree.now)) }
    ensures stands { IfOk result (λ text. Stands (tree_format n) text.items (shape_of tree.now)) }
    ensures alone { IfOk result (λ text. StandsAlone (tree_format n) text.items) }
{
    let mut text = format!(in alloc; "t mcg {n}\n")?;
    push_nodes(&mut text, tree)?;
    Ok(text.into_bytes())
}
