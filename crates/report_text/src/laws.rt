//! Laws of the reports. Each law is the contract of a function that does nothing.
ghost use Rattle.std.specs.Prelude.{◌<◌, ◌^◌, ℕ, List, length, true};
ghost use Rattle.graph_core.specs.from_line_text.Common.{AreWords};
ghost use Rattle.graph_core.specs.Common.{Graph};
ghost use Rattle.report_text.specs.Common.{HasFewLeaves, IsCommented, derivation_text, with_names_text};
ghost use Rattle.move_text.specs.from_tree_core.declared.tallies.LeafKind.{LeafKind};

/// The lines after the text in the report of a decomposition are comments, so the report stands for
/// what the text stands for, provided that the numbers have at most nine digits.
pub fn derivation_comments_law()
    ensures { (text : List ℕ) (g : Graph) (ps : List (List (List ℕ))) (kinds : List LeafKind)
        → HasFewLeaves g ps kinds → IsCommented text (derivation_text text g ps kinds) }
{}

/// If the lines that name vertices are written as comments, they are comments, provided that each
/// name is a word.
pub fn names_comments_law()
    ensures { (report : List ℕ) (names : List (List ℕ)) → AreWords names → length names < 10 ^ 9
        → IsCommented report (with_names_text report names true) }
{}
