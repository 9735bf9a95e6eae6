//! Laws of the texts of graphs.
ghost use Rattle.std.specs.Prelude.{◌≡◌, ◌↔◌, ℕ, List, ◌∷◌, ◌++◌, true, false, Some, None};
ghost use Rattle.std.specs.List.{AllByRecursion};
ghost use Rattle.graph_core.specs.from_line_text.Common.{Stands, StandsAlone, FirstFault, lines_of, SignificantLine, significant_lines_of, words_of, is_skipped};
ghost use Rattle.graph_core.specs.from_line_text.declared.faults.FaultKind.{FaultKind};
ghost use Rattle.graph_core.specs.from_line_text.declared.faults.FaultKind.TheVariants.{Header};
ghost use Rattle.graph_core.specs.Common.{Graph};
ghost use Rattle.graph_text.specs.Common.{version_one, FitsVersionOne, either_version, is_version_two, is_named_header, graph_text, named_text, FitsNames};

/// The text written for a graph within the limits of version 1 stands for this graph and for no
/// other, and has no error.
pub fn written_graph_law()
    ensures stands { (g : Graph) → FitsVersionOne g → Stands version_one (graph_text g) g }
    ensures alone { (g : Graph) → FitsVersionOne g → StandsAlone version_one (graph_text g) }
{}

/// Appending comments to the text of a graph changes nothing.
pub fn graph_comments_law()
    ensures { (g : Graph) (comments : List ℕ) → FitsVersionOne g
        → AllByRecursion (λ line. is_skipped (words_of line) ≡ true) (lines_of comments)
        → Stands version_one (graph_text g ++ comments) g }
{}

/// The text written for a graph with names within the limits of version 2 stands for this graph
/// with these names.
pub fn written_names_law()
    ensures { (g : Graph) (names : List (List ℕ)) → FitsNames g names
        → Stands either_version (named_text g names) (record { graph = g; names = Some names }) }
{}

/// The two readers agree on version 1. A text stands for a graph without names if and only if it
/// stands for it in version 1; a text whose header is not of version 2 has the same first error in
/// both formats; and if the first significant line is a header of version 2, that line is the first
/// error in version 1, of the kind Header.
pub fn versions_law()
    ensures reads { (text : List ℕ) (g : Graph)
        → Stands version_one text g ↔
        Stands either_version text (record { graph = g; names = None }) }
    ensures faults { (text : List ℕ) (line : ℕ) (kind : FaultKind) → is_version_two text ≡ false
        → FirstFault version_one text line kind ↔ FirstFault either_version text line kind }
    ensures refused { (text : List ℕ) (line : SignificantLine) (lines : List SignificantLine) →
        significant_lines_of text ≡ line ∷ lines
        → is_named_header line.words ≡ true → FirstFault version_one text line.number Header }
{}
