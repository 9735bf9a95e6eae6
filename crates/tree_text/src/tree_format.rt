//! The derivation format.
ghost use Rattle.std.specs.Prelude.{◌≡◌, ◌<◌, ◌≤◌, ◌-◌, ◌^◌, ℕ, length, map, IfOk, IfErr, Ok, Err};
ghost use Rattle.graph_core.specs.from_line_text.Common.{Gives, Stands, FirstFault, checked, texts_of, IsFirstFault, ReadsText};
ghost use Rattle.graph_core.specs.from_line_text.declared.faults.FaultKind.{FaultKind};
ghost use Rattle.tree_core.specs.Common.{Shape, shape_of};
ghost use Rattle.tree_text.specs.TreeFormat.{TreeSoFar, tree_header, node_line, line_behind, tree_end, tree_format, behind_first, is_cut_line, is_node_line, most_nodes, shore_told, shore_tests, with_node};
ghost use Rattle.tree_text.specs.Writing.{IsWritable};
ghost use Rattle.tree_text.specs.SoFar.{next_place, progress_of, tree_so_far};

use crate::nodes_read::{NodesRead, TreeFormat};
use crate::place::{Above, Progress, put};
use crate::shores::{holds, rise, shore_of};
use graph_core::line_text::{
    FaultKind, LineFormat, RuleFault, TextFault, has_form, has_out_of_range, number, numbers,
    read_text, word,
};
use graph_core::vset_core::{MOST_VERTICES, VSet};
use std::alloc::{AllocError as Memory, Global};
use tree_core::Tree;

const MOST_NODES: u32 = 127;

fn read_header(n: u32, words: &[&[u8]]) -> Result<NodesRead, RuleFault<FaultKind>>
    ensures { Gives tree_so_far result (tree_header n (texts_of words.now)) }
{
    if !has_form(words, 3, &["t", "mcg"]) {
        return Err(RuleFault::Fault(FaultKind::Header));
    }
    let Some(order) = number(word(words, 2)) else {
        return Err(RuleFault::Fault(FaultKind::Number));
    };
    if order != n {
        return Err(RuleFault::Fault(FaultKind::Header));
    }
    Ok(NodesRead {
        nodes: 0,
        progress: Progress::Wanted(Above::Root),
    })
}

// Whether these are the words of a cut.
fn is_cut(words: &[&[u8]]) -> bool
    ensures { result ≡ is_cut_line (texts_of words.now) }
{
    words.len() >= 2 && has_form(words, words.len(), &["cut"])
}

// The words after the first.
fn behind_first<'a, 'b>(words: &'a [&'b [u8]]) -> &'a [&'b [u8]]
    ensures { texts_of result.now ≡ behind_first (texts_of words.now) }
{
    &words[words.len().min(1)..]
}

// Whether these are the words of a node.
fn is_node(words: &[&[u8]]) -> bool
    ensures { result ≡ is_node_line (texts_of words.now) }
{
    has_form(words, 1, &["leaf"]) || is_cut(words)
}

// The vertices that a line names after its first word.
#[tactic(auto, using(crate::proofs::ShoreLists::rising_shore))]
fn read_shore(alloc: Global, n: u32, words: &[&[u8]]) -> Result<VSet, RuleFault<FaultKind>>
    requires { n ≤ MOST_VERTICES }
    ensures shore { IfOk result (λ shore. shore ≡ shore_told (texts_of words.now)) }
    ensures tests { (so_far : TreeSoFar) →
        Gives (λ _. so_far) result (checked (shore_tests n (texts_of words.now)) so_far) }
{
    let Some(read) = numbers(alloc, behind_first(words))? else {
        return Err(RuleFault::Fault(FaultKind::Number));
    };
    let vertices = read.as_slice();
    if has_out_of_range(n, vertices) {
        return Err(RuleFault::Fault(FaultKind::Range));
    }
    if !rise(vertices) {
        return Err(RuleFault::Fault(FaultKind::NotRising));
    }
    if holds(vertices, n) {
        return Err(RuleFault::Fault(FaultKind::HasGreatest));
    }
    Ok(shore_of(vertices))
}

// The tree with one more node below these cuts: a leaf, or a cut with this shore.
fn with_node(alloc: Global, above: Above, is_leaf: bool, shore: VSet) -> Result<Progress, Memory>
    ensures { IfOk result
        (λ progress. progress_of progress ≡ with_node (next_place above) is_leaf shore) }
{
    if is_leaf {
        return put(alloc, above, Tree::Leaf);
    }
    let above = Box::new(alloc, above)?;
    Ok(Progress::Wanted(Above::InKept { shore, above }))
}

// The line of a node below these cuts, after so many nodes.
fn read_node(
    alloc: Global,
    n: u32,
    nodes: u32,
    above: Above,
    words: &[&[u8]],
) -> Result<NodesRead, RuleFault<FaultKind>>
    requires order { n ≤ MOST_VERTICES }
    requires few { nodes ≤ most_nodes }
    ensures { Gives tree_so_far result (node_line n nodes (next_place above) (texts_of words.now)) }
{
    if nodes >= MOST_NODES {
        return Err(RuleFault::Fault(FaultKind::Limit));
    }
    if !is_node(words) {
        return Err(RuleFault::Fault(FaultKind::Word));
    }
    let shore = match read_shore(alloc, n, words) {
        Ok(shore) => shore,
        Err(refusal) => return Err(refusal),
    };
    let progress = with_node(alloc, above, has_form(words, 1, &["leaf"]), shore)?;
    Ok(NodesRead {
        nodes: nodes + 1,
        progress,
    })
}

impl LineFormat for TreeFormat {
    type Body = NodesRead;

    type Value = Tree;

    type Kind = FaultKind;

    ghost State = { TreeSoFar };

    ghost Meaning = { Shape };

    ghost state = { tree_so_far };

    ghost meaning = { shape_of };

    ghost rules = { λ format. tree_format format.order };

    fn header(&self, words: &[&[u8]]) -> Result<NodesRead, RuleFault<FaultKind>> {
        read_header(self.order, words)
    }

    fn line(&self, body: NodesRead, words: &[&[u8]]) -> Result<NodesRead, RuleFault<FaultKind>> {
        let NodesRead { nodes, progress } = body;
        match progress {
            Progress::Wanted(above) => read_node(self.alloc, self.order, nodes, above, words),
            Progress::Whole(_) => Err(RuleFault::Fault(FaultKind::Extra)),
        }
    }

    fn close(&self, body: NodesRead) -> Result<Tree, RuleFault<FaultKind>> {
        let NodesRead { progress, .. } = body;
        match progress {
            Progress::Whole(tree) => Ok(tree),
            Progress::Wanted(_) => Err(RuleFault::Fault(FaultKind::Missing)),
        }
    }

    fn headless(&self) -> FaultKind {
        FaultKind::Header
    }
}

/// Reads a tree of cuts over 1 to `n`: the tree that the bytes stand for, or the first line outside
/// the format with the kind of its error. The tree fits `n`, its shores are not empty, and it has
/// at most 127 nodes. The errors are `TextFault::At`, with this line and kind, and
/// `TextFault::Memory`, which may come at any time. Takes O(b) time for b bytes.
pub fn read_tree(alloc: Global, bytes: &[u8], n: u32) -> Result<Tree, TextFault>
    requires order { n ≤ MOST_VERTICES }
    requires length { length bytes.now < 2 ^ 32 - 1 }
    ensures writable { IfOk result (λ tree. IsWritable n (shape_of tree)) }
    ensures value { IfOk result (λ tree. Stands (tree_format n) bytes.now (shape_of tree)) }
    ensures fault { IfErr result (IsFirstFault (tree_format n) bytes.now) }
    ensures stands { (t : Shape) → Stands (tree_format n) bytes.now t →
        ReadsText shape_of result (Ok t) }
    ensures breaks { (line : ℕ) (kind : FaultKind) →
        FirstFault (tree_format n) bytes.now line kind →
        ReadsText shape_of result (Err (line, kind)) }
{
    read_text(alloc, &TreeFormat { alloc, order: n }, bytes)
}
