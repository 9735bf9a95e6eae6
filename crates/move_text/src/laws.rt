//! Laws of the texts of moves. Each law is the contract of a function that does nothing.
ghost use Rattle.std.specs.Prelude.{◌<◌, ◌^◌, ℕ, List};
ghost use Rattle.tree_text.specs.from_line_text.Common.{Stands, StandsAlone};
ghost use Rattle.tree_text.specs.from_tree_core.Common.{PlainMove};
ghost use Rattle.move_text.specs.Common.{move_format, moves_text, IsWritable};

/// The text written for moves stands for these moves and for no others, and has no error.
pub fn written_moves_law()
    ensures stands { (n : ℕ) (moves : List PlainMove) → IsWritable n moves →
        Stands (move_format n) (moves_text n moves) moves }
    ensures alone { (n : ℕ) (moves : List PlainMove) → IsWritable n moves →
        StandsAlone (move_format n) (moves_text n moves) }
{}

/// What a text stands for can be written: there are at most 20,000 moves, each path has at most 127
/// steps, and the sets are nonempty increasing lists of vertices.
pub fn read_moves_law()
    ensures { (n : ℕ) (text : List ℕ) (moves : List PlainMove) → n < 10 ^ 9 →
        Stands (move_format n) text moves → IsWritable n moves }
{}
