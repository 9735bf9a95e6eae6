//! The replay of a script of moves, with each tree on the way judged.
ghost use Rattle.std.specs.Prelude.{◌≡◌, ◌<◌, ◌-◌, ◌^◌, length, IfOk};
ghost use Rattle.tree_core.specs.Common.{IsDerivation, move_of, moves_of, shape_of};
ghost use Rattle.tree_check.specs.Common.{IsReplay, IsMoved};

use crate::judgement::{Scanned, Why};
use crate::scan::scan_covered;
use crate::sound_moves::is_sound;
use graph_core::MultiGraph;
use move_laws::graph_facts::Covered;
use std::alloc::{AllocError as Memory, Global};
use tree_core::{Move, Moves, Tree, apply};

/// The answer to a script of moves. Moves are counted from 1.
#[derive(Drop)]
pub enum Replayed {
    /// Each move in order has a result that is a derivation of the graph; `tree` is the last one.
    Done { tree: Tree },
    /// The first failing move has no result.
    Stuck { at: u32 },
    /// The first failing move has a result that is not a derivation of the graph: `node` is the
    /// first node in preorder, counted from 1, that breaks a rule.
    Refused { at: u32, node: u32, why: Why },
}

// What one move makes.
#[derive(Drop)]
enum Moved {
    // A derivation.
    Passed { tree: Tree },
    // Nothing.
    Stuck,
    // A tree that is not a derivation, with the first node that breaks a rule.
    Refused { node: u32, why: Why },
}

// Makes one move on a derivation, and judges the result: the whole tree only if the laws of moves
// do not tell that it is a derivation.
fn step(alloc: Global, c: &Covered, tree: Tree, item: &Move) -> Result<Moved, Memory>
    requires { IsDerivation c.now (shape_of tree) }
    ensures { IfOk result (IsMoved c.now (shape_of tree) (move_of item.now)) }
{
    let Ok(made) = apply(tree, c.order(), item) else {
        return Ok(Moved::Stuck);
    };
    if is_sound(alloc, c, &made, item)? {
        return Ok(Moved::Passed { tree: made });
    }
    match scan_covered(alloc, c, &made)? {
        Scanned::Passed { .. } => Ok(Moved::Passed { tree: made }),
        Scanned::Refused { node, why } => Ok(Moved::Refused { node, why }),
    }
}

/// Makes the moves in order on `tree`, a derivation of `g`. `Done` comes if and only if each move
/// has a result that is a derivation of `g`, with the last tree. `Stuck` names the first failing
/// move if it has no result, and `Refused` if its result is not a derivation, with what `check`
/// returns for it. Costs what `Covered::of` costs, and for each move what one cut costs in `check`,
/// or the whole of `check` for a move that is refused or exchanges no two blocks. The only error is
/// `Memory`; the tree is then dropped.
pub fn replay(alloc: Global, g: &MultiGraph, tree: Tree, moves: &Moves) -> Result<Replayed, Memory>
    requires derivation { IsDerivation g.now (shape_of tree) }
    requires few { length moves.now < 2 ^ 32 - 1 }
    ensures { IfOk result (IsReplay g.now (shape_of tree) (moves_of moves.now)) }
{
    let covered = Covered::known(alloc, g)?;
    replay_covered(alloc, &covered, tree, moves)
}

/// What `replay` returns for a covered graph, from what is known of it. Costs what `replay` costs,
/// less `Covered::of`; the only error is `Memory`.
pub fn replay_covered(
    alloc: Global,
    c: &Covered,
    tree: Tree,
    moves: &Moves,
) -> Result<Replayed, Memory>
    requires derivation { IsDerivation c.now (shape_of tree) }
    requires few { length moves.now < 2 ^ 32 - 1 }
    ensures { IfOk result (IsReplay c.now (shape_of tree) (moves_of moves.now)) }
{
    let mut reached = tree;
    for i in 0..moves.len() {
        match step(alloc, c, reached, moves.get(i))? {
            Moved::Passed { tree } => reached = tree,
            Moved::Stuck => return Ok(Replayed::Stuck { at: i as u32 + 1 }),
            Moved::Refused { node, why } => {
                return Ok(Replayed::Refused {
                    at: i as u32 + 1,
                    node,
                    why,
                });
            }
        }
    }
    Ok(Replayed::Done { tree: reached })
}
