//! Laws of the texts of trees. Each law is the contract of a function that does nothing.
ghost use Rattle.std.specs.Prelude.{◌≡◌, ◌<◌, ◌^◌, ℕ, List, ◌++◌, true};
ghost use Rattle.std.specs.List.{AllByRecursion};
ghost use Rattle.graph_core.specs.from_line_text.Common.{Stands, StandsAlone, lines_of, words_of, is_skipped};
ghost use Rattle.tree_core.specs.Common.{Shape};
ghost use Rattle.tree_text.specs.Common.{tree_format, tree_text, IsWritable};

/// The text written for a tree stands for this tree and for no other, and has no error.
pub fn written_tree_law()
    ensures stands { (n : ℕ) (t : Shape) → IsWritable n t →
        Stands (tree_format n) (tree_text n t) t }
    ensures alone { (n : ℕ) (t : Shape) → IsWritable n t →
        StandsAlone (tree_format n) (tree_text n t) }
{}

/// Appending comments to the text of a tree changes nothing.
pub fn tree_comments_law()
    ensures { (n : ℕ) (t : Shape) (comments : List ℕ) → IsWritable n t
        → AllByRecursion (λ line. is_skipped (words_of line) ≡ true) (lines_of comments)
        → Stands (tree_format n) (tree_text n t ++ comments) t }
{}

/// What a text stands for can be written: the tree fits n, its shores are nonempty increasing
/// lists, and it has at most 127 nodes.
pub fn read_tree_law()
    ensures { (n : ℕ) (text : List ℕ) (t : Shape) → n < 10 ^ 9 → Stands (tree_format n) text t →
        IsWritable n t }
{}
