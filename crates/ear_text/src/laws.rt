//! Laws of the texts of ear lists. Each law is the contract of a function that does nothing.
ghost use Rattle.std.specs.Prelude.{ℕ, List};
ghost use Rattle.std.specs.List.{AllByRecursion};
ghost use Rattle.graph_core.specs.from_line_text.Common.{Stands, StandsAlone};
ghost use Rattle.ear_core.specs.Common.{PlainEars, FitsEars, HasEdges};
ghost use Rattle.ear_text.specs.EarFormat.{ear_format};
ghost use Rattle.ear_text.specs.Writing.{ears_text, IsWritable};

/// The text written for an ear list stands for this list and for no other, and has no error.
pub fn written_ears_law()
    ensures stands { (n m : ℕ) (list : PlainEars) → IsWritable n m list →
        Stands (ear_format n m) (ears_text n m list) list }
    ensures alone { (n m : ℕ) (list : PlainEars) → IsWritable n m list →
        StandsAlone (ear_format n m) (ears_text n m list) }
{}

/// If a text stands for a list, its numbers are in range, and no ear of it is empty.
pub fn read_ears_law()
    ensures fits { (n m : ℕ) (text : List ℕ) (list : PlainEars) →
        Stands (ear_format n m) text list → FitsEars n m list }
    ensures filled { (n m : ℕ) (text : List ℕ) (list : PlainEars) →
        Stands (ear_format n m) text list → AllByRecursion HasEdges list.steps }
{}
