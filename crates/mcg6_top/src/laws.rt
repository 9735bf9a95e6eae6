//! The laws of what a list gives. Each is the contract of a function that does nothing.
ghost use Rattle.std.specs.Prelude.{◌≡◌, ◌++◌, IsFalse, IsTrue, List, length, map, ℕ};
ghost use Rattle.mcg6_lines.specs.Alike.{AreAlike, is_free};
ghost use Rattle.mcg6_lines.specs.declared.query.Query.{Query};
ghost use Rattle.mcg6_reader.specs.Common.{HasOneFault, HasOneOutputPerLine, IsClosedText, TellsApart, lines_of};
ghost use Rattle.mcg6_reader.specs.declared.ending.BadLine.{BadLine};
ghost use Rattle.mcg6_reader.specs.declared.ending.InputEnding.{InputEnding};
ghost use Rattle.mcg6_reader.specs.declared.ending.InputEnding.TheVariants as ending;
ghost use Rattle.mcg6_reader.specs.declared.place.LinePlace.{LinePlace};
ghost use Rattle.mcg6_top.specs.Common.{AreAlikeOutputs, EndsWith, IsBadLine, ListOutcome, SkipsUpTo, TellsLineOf, ending_behind, found_behind, is_by_line, opens_with_header};
ghost use Rattle.mcg6_top.specs.declared.command.AtBadLine.{AtBadLine};
ghost use Rattle.mcg6_top.specs.declared.status.ListStatus.{ListStatus};
ghost use Rattle.mcg6_top.specs.declared.status.ListStatus.TheVariants.{BadInput, Done};

/// Whatever is asked of the graphs of a list, each line has one output, or it is bad with one kind
/// of a first fault, and no line is both. For `matching`, which may write any maximum matching, and
/// `ears`, which may write many ear lists, two outputs of a line have in common what `AreAlike`
/// says: for `matching` the graph6 text, the size of the matching and the Gallai-Edmonds sets, and
/// for `ears` the number of the line and the graph6 text, unless both are empty.
#[tactic(auto, using(crate::proofs::OneOutput::one_fault_each, crate::proofs::OneOutput::told_or_bad))]
pub fn one_line_law()
    ensures output { (query : Query) → IsFalse (is_free query)
        → HasOneOutputPerLine (TellsLineOf query) }
    ensures alike { (query : Query) (place : LinePlace) (line a b : List ℕ)
        → TellsLineOf query place line a → TellsLineOf query place line b → AreAlike query a b }
    ensures fault { (query : Query) → HasOneFault (IsBadLine query) }
    ensures apart { (query : Query) → TellsApart (TellsLineOf query) (IsBadLine query) }
{}

/// The bytes of a list leave nothing open but what a free query does. It is not both done and bad;
/// any two outputs of a list that is done are equal, and so are those of one that is bad, with the
/// number of the bad line at which it ends and the kind of its first fault. For `matching`
/// and `ears` two outputs consist of outputs for the same lines, and those are alike line by line.
/// The other endings come of the outside.
pub fn one_list_output_law()
    ensures status { (query : Query) (at_bad : AtBadLine) (bytes a b : List ℕ)
        → ListOutcome query at_bad bytes Done a → ListOutcome query at_bad bytes BadInput b → ⊥ }
    ensures done { (query : Query) (at_bad : AtBadLine) (bytes a b : List ℕ)
        → IsFalse (is_free query) → ListOutcome query at_bad bytes Done a → ListOutcome query at_bad bytes Done b → a ≡ b }
    ensures bad { (query : Query) (at_bad : AtBadLine) (bytes a b : List ℕ)
        → IsFalse (is_free query) → ListOutcome query at_bad bytes BadInput a
        → ListOutcome query at_bad bytes BadInput b → a ≡ b }
    ensures done_alike { (query : Query) (at_bad : AtBadLine) (bytes a b : List ℕ)
        → ListOutcome query at_bad bytes Done a → ListOutcome query at_bad bytes Done b
        → AreAlikeOutputs query a b }
    ensures bad_alike { (query : Query) (at_bad : AtBadLine) (bytes a b : List ℕ)
        → ListOutcome query at_bad bytes BadInput a → ListOutcome query at_bad bytes BadInput b
        → AreAlikeOutputs query a b }
    ensures found { (query : Query) (at_bad : AtBadLine) (bytes : List ℕ) (found other : BadLine)
        (a b : List ℕ) → EndsWith query at_bad bytes (ending.Bad found) a
        → EndsWith query at_bad bytes (ending.Bad other) b
        → (found.number ≡ other.number) × (found.kind ≡ other.kind) }
{}

/// A list for `kinds`, `matching` or `select` may be split after a line feed, if the second part
/// does not begin with a line that is just the header. If the first part has no bad line, the
/// output of the list is that of the first part and then that of the second, and its status is that
/// of the second part. The same holds if bad lines of the first part are skipped, for the output
/// and for the ending. In the list, the number of a bad line of the second part is greater by the
/// number of lines of the first part.
pub fn split_law()
    ensures outcome { (query : Query) (at_bad : AtBadLine) (first second : List ℕ)
        → IsTrue (is_by_line query) → IsClosedText first → IsFalse (opens_with_header (lines_of second))
        → (status : ListStatus) (a b : List ℕ) → ListOutcome query at_bad first Done a
        → ListOutcome query at_bad second status b
        → ListOutcome query at_bad (first ++ second) status (a ++ b) }
    ensures ends { (query : Query) (at_bad : AtBadLine) (first second : List ℕ)
        → IsTrue (is_by_line query) → IsClosedText first → IsFalse (opens_with_header (lines_of second))
        → (last : InputEnding) (a b : List ℕ) → EndsWith query at_bad first ending.Done a
        → EndsWith query at_bad second last b
        → let before = length (lines_of first) in
        EndsWith query at_bad (first ++ second) (ending_behind before last) (a ++ b) }
    ensures skips { (query : Query) (at_bad : AtBadLine) (first second : List ℕ)
        → IsTrue (is_by_line query) → IsClosedText first → IsFalse (opens_with_header (lines_of second))
        → (last : InputEnding) (a b : List BadLine) → SkipsUpTo query at_bad first ending.Done a
        → SkipsUpTo query at_bad second last b
        → let before = length (lines_of first) in
        SkipsUpTo query at_bad (first ++ second) (ending_behind before last)
        (a ++ map (found_behind before) b) }
{}
