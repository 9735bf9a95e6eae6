//! The law on graph files as graph6. It is the contract of a function that does nothing.
ghost use Rattle.std.specs.Prelude.{◌≡◌, ℕ, List};
ghost use Rattle.mcg6_encoder.specs.Files.{Encodes};
ghost use Rattle.mcg6_reader.specs.declared.ending.BadLine.{BadLine};
ghost use Rattle.mcg6_reader.specs.declared.ending.InputEnding.TheVariants as ending;

/// The bytes of a graph file leave nothing open. It is not both encoded and bad; any two outputs of
/// a file that is encoded are equal, and so are the line and the kind of the first error of one
/// that is bad.
pub fn one_encoding_law()
    ensures status { (file a b : List ℕ) (found : BadLine)
        → Encodes file ending.Done a → Encodes file (ending.Bad found) b → ⊥ }
    ensures done { (file a b : List ℕ)
        → Encodes file ending.Done a → Encodes file ending.Done b → a ≡ b }
    ensures found { (file a b : List ℕ) (found other : BadLine)
        → Encodes file (ending.Bad found) a → Encodes file (ending.Bad other) b
        → (found.number ≡ other.number) × (found.kind ≡ other.kind) }
{}
