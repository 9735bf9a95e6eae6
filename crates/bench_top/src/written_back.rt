//! Laws of what is written: what mcg writes, mcg reads. Each is the contract of a function that
//! does nothing.
//!
//! An output is in a further file, within the limit of bytes, beside the files that the
//! command named. Then a further command on them asks for a task that succeeds (`AsksDone`), so
//! that `run` answers Done wherever the outside does not fail and memory lasts.
ghost use Rattle.std.specs.Prelude.{◌≡◌, ◌≤◌, ℕ, List, [], ◌∷◌, codes, length, Some};
ghost use Rattle.outside.specs.Common.{NamedFile, file_named, most_bytes};
ghost use Rattle.bench_reports.specs.from_bench_outcomes.Common.{Outcome};
ghost use Rattle.bench_top.specs.RoundTrips.{AsksDone, ReplaysScript};
ghost use Rattle.bench_reports.specs.from_bench_outcomes.declared.status.Status.{Status};
ghost use Rattle.bench_reports.specs.from_bench_outcomes.declared.status.Status.TheVariants.{Done};

/// `check` accepts what `decompose` writes of a matching covered graph, by a named order or by
/// picks.
pub fn checked_decomposition_law()
    ensures order { (files again : List NamedFile) (graph order tree output : List ℕ)
        → Outcome (codes "decompose" ∷ graph ∷ order ∷ []) files Done output
        → file_named graph again ≡ file_named graph files
        → file_named tree again ≡ Some output → length output ≤ most_bytes
        → AsksDone (codes "check" ∷ graph ∷ tree ∷ []) again }
    ensures picks { (files again : List NamedFile) (graph picks tree output : List ℕ)
        → Outcome (codes "decompose" ∷ graph ∷ codes "script" ∷ picks ∷ []) files Done output
        → file_named graph again ≡ file_named graph files
        → file_named tree again ≡ Some output → length output ≤ most_bytes
        → AsksDone (codes "check" ∷ graph ∷ tree ∷ []) again }
{}

/// `checkears` accepts what `ears` writes of a matching covered graph.
pub fn checked_ears_law()
    ensures { (files again : List NamedFile) (graph ears output : List ℕ)
        → Outcome (codes "ears" ∷ graph ∷ []) files Done output
        → file_named graph again ≡ file_named graph files
        → file_named ears again ≡ Some output → length output ≤ most_bytes
        → AsksDone (codes "checkears" ∷ graph ∷ ears ∷ []) again }
{}

/// `check` accepts what `replay` writes if it is done.
pub fn checked_replay_law()
    ensures { (files again : List NamedFile) (graph tree moves last output : List ℕ)
        → Outcome (codes "replay" ∷ graph ∷ tree ∷ moves ∷ []) files Done output
        → file_named graph again ≡ file_named graph files
        → file_named last again ≡ Some output → length output ≤ most_bytes
        → AsksDone (codes "check" ∷ graph ∷ last ∷ []) again }
{}

/// What `grow` writes is read as a matching covered graph: `ears` and `decompose` are done with it.
pub fn grown_graph_law()
    ensures ears { (files again : List NamedFile) (seed pieces name output : List ℕ)
        → Outcome (codes "grow" ∷ seed ∷ pieces ∷ []) files Done output
        → file_named name again ≡ Some output → length output ≤ most_bytes
        → AsksDone (codes "ears" ∷ name ∷ []) again }
    ensures decompose { (files again : List NamedFile) (seed pieces name output : List ℕ)
        → Outcome (codes "grow" ∷ seed ∷ pieces ∷ []) files Done output
        → file_named name again ≡ Some output → length output ≤ most_bytes
        → AsksDone (codes "decompose" ∷ name ∷ codes "first" ∷ []) again }
{}

/// What `convert` writes is canonical: if a file holds it and keeps the limit of bytes,
/// `convert` of that file is done and gives the same text, and nothing else.
pub fn convert_law()
    ensures allows { (files again : List NamedFile) (name other : List ℕ) (output : List ℕ)
        → Outcome (codes "convert" ∷ name ∷ []) files Done output
        → file_named other again ≡ Some output → length output ≤ most_bytes
        → Outcome (codes "convert" ∷ other ∷ []) again Done output }
    ensures tells { (files again : List NamedFile) (name other : List ℕ) (output : List ℕ)
        (status : Status) (text : List ℕ)
        → Outcome (codes "convert" ∷ name ∷ []) files Done output
        → file_named other again ≡ Some output → length output ≤ most_bytes
        → Outcome (codes "convert" ∷ other ∷ []) again status text
        → (status ≡ Done) × (text ≡ output) }
{}

/// What `script` writes is replayed: over files that hold the same graph and first tree and,
/// within the limit of bytes, this output, `replay` of the three is done and gives the second
/// tree, and nothing else.
pub fn replayed_script_law()
    ensures { (files again : List NamedFile) (graph first second script : List ℕ) (output : List ℕ)
        → Outcome (codes "script" ∷ graph ∷ first ∷ second ∷ []) files Done output
        → file_named graph again ≡ file_named graph files →
        file_named first again ≡ file_named first files
        → file_named script again ≡ Some output → length output ≤ most_bytes
        → ReplaysScript files again graph first second script output }
{}
