//! What is said of a tree that is not a tight cut decomposition.
ghost use Rattle.std.specs.Prelude.{◌≡◌};
ghost use Rattle.front_words.specs.RefusedTrees.{moved_text, node_advice, node_text, node_fault_words, refused_tree_text};
ghost use Rattle.front_words.specs.Saying.{Says};

use crate::node_places::say_place;
use crate::pieces::MessagePiece::{Number, Text};
use crate::pieces::{Said, say};
use crate::texts;
use outside::Sink;
use refusals::{NodeFault, NodePlace};

// What is wrong with a node.
fn node_words(fault: NodeFault) -> &'static str
    ensures { result.now ≡ node_fault_words fault }
{
    match fault {
        NodeFault::NotBlocks => texts::NODE_NOT_BLOCKS,
        NodeFault::Even => texts::NODE_EVEN,
        NodeFault::Trivial => texts::NODE_TRIVIAL,
        NodeFault::NotTight => texts::NODE_NOT_TIGHT,
        NodeFault::NotLeaf => texts::NODE_NOT_LEAF,
    }
}

// What would be right at the node.
fn node_advice(fault: NodeFault) -> &'static str
    ensures { result.now ≡ node_advice fault }
{
    match fault {
        NodeFault::NotBlocks => texts::WRITE_BLOCKS,
        NodeFault::Even | NodeFault::NotTight => texts::OTHER_CUT,
        NodeFault::Trivial => texts::MAKE_LEAF,
        NodeFault::NotLeaf => texts::CUT_FURTHER,
    }
}

// Says the path to the node and its shore, what is wrong there, and what would be right.
fn say_node<K: Sink>(
    sink: &mut K,
    place: Option<NodePlace>,
    fault: NodeFault,
    advice: &'static str,
) -> Said
    ensures { Says K.written K.writes K.faults (node_text place fault advice.now) result sink.old
        sink.new }
{
    say_place(sink, place)?;
    let words = Text(node_words(fault));
    say(sink, &[Text("): "), words, Text(advice), Text("\n")])
}

/// Says that a tree is not a tight cut decomposition, where and why. Takes no memory.
pub fn say_tree<K: Sink>(
    sink: &mut K,
    program: &str,
    tree: u32,
    node: u32,
    place: Option<NodePlace>,
    fault: NodeFault,
) -> Said
    ensures { Says K.written K.writes K.faults (refused_tree_text program.now tree node place fault) result
        sink.old sink.new }
{
    say(
        sink,
        &[
            Text(program),
            Text(texts::TREE),
            Number(tree as u64),
            Text(texts::TREE_AT),
            Number(node as u64),
            Text(texts::PREORDER),
        ],
    )?;
    say_node(sink, place, fault, node_advice(fault))
}

/// Says that a move makes a tree that is not a tight cut decomposition, where and why. Takes no
/// memory.
pub fn say_moved<K: Sink>(
    sink: &mut K,
    program: &str,
    step: u32,
    node: u32,
    place: Option<NodePlace>,
    fault: NodeFault,
) -> Said
    ensures { Says K.written K.writes K.faults (moved_text program.now step node place fault) result
        sink.old sink.new }
{
    say(
        sink,
        &[
            Text(program),
            Text(texts::MOVE),
            Number(step as u64),
            Text(texts::MOVED_AT),
            Number(node as u64),
            Text(texts::PREORDER),
        ],
    )?;
    say_node(sink, place, fault, texts::OTHER_MOVE)
}
