//! Laws of what the commands give.
ghost use Rattle.std.specs.Prelude.{◌≡◌, ◌↔◌, ℕ, List, Some};
ghost use Rattle.outside.specs.Common.{NamedFile};
ghost use Rattle.bench_reports.specs.from_bench_tasks.Common.{Command, command_of, All, loaded, Task};
ghost use Rattle.bench_top.specs.Fixed.{DifferAtMostIn, HasChosenText, HasOneOutput, MayShow, ShowsNothingFree};
ghost use Rattle.bench_reports.specs.from_bench_outcomes.Common.{Outcome, Succeeds};
ghost use Rattle.bench_reports.specs.from_bench_outcomes.declared.status.Status.{Status};
ghost use Rattle.bench_reports.specs.from_bench_outcomes.declared.status.Status.TheVariants.{BadInput, Done, Negative};

/// Good files settle the status: it is Done exactly when the task succeeds (`Succeeds`), and
/// Negative exactly when it does not.
pub fn completeness_law()
    ensures done { (words : List (List ℕ)) (files : List NamedFile) (command : Command)
        (task : Task) (status : Status) (output : List ℕ)
        → command_of words ≡ Some command → loaded files command ≡ All task
        → Outcome words files status output → (status ≡ Done) ↔ Succeeds task }
    ensures negative { (words : List (List ℕ)) (files : List NamedFile) (command : Command)
        (task : Task)
        (status : Status) (output : List ℕ)
        → command_of words ≡ Some command → loaded files command ≡ All task
        → Outcome words files status output → (status ≡ Negative) ↔ (Succeeds task → ⊥) }
{}

/// Two outcomes of the same words and files have the same status.
pub fn one_status_law()
    ensures { (words : List (List ℕ)) (files : List NamedFile) (first second : Status)
        (output other : List ℕ) → Outcome words files first output →
        Outcome words files second other → first ≡ second }
{}

/// Two outcomes of the same words and files have one output, but for what is free. If a task
/// is done its output is one, but for a text that is chosen and the Berge set of `analyse` and
/// `analyse6` (`HasOneOutput`). A refusal is one, wherever it shows no Berge set and no perfect
/// matching that crosses a refused cut (`ShowsNothingFree`). In any case, but for a text that is
/// chosen, two outputs differ at most in one list of numbers, and each of the two lists is right
/// (`MayShow`). A bad file is named by one line.
pub fn one_output_law()
    ensures done { (words : List (List ℕ)) (files : List NamedFile) (command : Command)
        (task : Task) (output other : List ℕ)
        → command_of words ≡ Some command → loaded files command ≡ All task → HasOneOutput task
        → Outcome words files Done output → Outcome words files Done other → output ≡ other }
    ensures negative { (words : List (List ℕ)) (files : List NamedFile) (command : Command)
        (task : Task)
        (output other : List ℕ)
        → command_of words ≡ Some command → loaded files command ≡ All task → ShowsNothingFree task
        → Outcome words files Negative output → Outcome words files Negative other →
        output ≡ other }
    ensures shown { (words : List (List ℕ)) (files : List NamedFile) (command : Command)
        (task : Task) (status : Status) (output other : List ℕ)
        → command_of words ≡ Some command → loaded files command ≡ All task
        → (HasChosenText task → status ≡ Negative)
        → Outcome words files status output → Outcome words files status other
        → DifferAtMostIn (MayShow task) output other }
    ensures bad { (words : List (List ℕ)) (files : List NamedFile) (output other : List ℕ)
        → Outcome words files BadInput output → Outcome words files BadInput other →
        output ≡ other }
{}
