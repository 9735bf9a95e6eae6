//! Completeness over files in memory: with no outside that could fail only the words, the files
//! and memory decide.
ghost use Rattle.std.specs.Prelude.{◌≡◌, ◌⊎◌, ◌↔◌, ℕ, List, [], map, string_bytes, Some, None};
ghost use Rattle.outside.specs.Common.{IsRead, ReadsFirst, ReadsInTurn};
ghost use Rattle.bench_reports.specs.from_bench_tasks.Common.{Command, command_of, All, Bad, Absent, loaded, file_names, names_in, names_until, Task};
ghost use Rattle.bench_reports.specs.from_bench_outcomes.Common.{IsReported, IsSettled, Outcome, MayRefuse, Succeeds};

use crate::running::run;
use bench_reports::bench_outcomes::Status;
use outside::{CountSink, MemShelf};
use std::alloc::Global;

/// What `run` answers over a shelf in memory none of whose reads is to fail, and a sink that only
/// counts the bytes of the report.
///
/// For words of the table the answer is decided by what the files hold: a file that is not held,
/// a bad file, or good ones, whose task is done or refused. It is never a fault of writing, and
/// apart from `Memory` there are no other answers.
pub fn run_in_memory(
    alloc: Global,
    words: &[String],
    shelf: &mut MemShelf,
    sink: &mut CountSink,
) -> Status
    requires { shelf.old.failing ≡ [] }
    ensures usage { result ≡ Status.Usage ↔ (command_of (map string_bytes words.now) ≡ None) }
    ensures unread { result ≡ Status.Usage → shelf.new ≡ shelf.old }
    ensures nothing { (result ≡ Status.Usage) ⊎
        ((result ≡ Status.ReadFault) ⊎ (result ≡ Status.Memory))
        → sink.new ≡ sink.old }
    ensures negative { result ≡ Status.Negative →
        MayRefuse (command_of (map string_bytes words.now)) }
    ensures writes { ¬ (result ≡ Status.WriteFault) }
    ensures files { shelf.new.files ≡ shelf.old.files }
    // The names that are read are the first few in the words, and if memory lasts those up to
    // the first file that is not held or is bad.
    ensures asks { ReadsFirst IsRead (names_in (command_of (map string_bytes words.now))) shelf.old
        shelf.new }
    ensures asks_until { (command : Command) →
        command_of (map string_bytes words.now) ≡ Some command
        → (result ≡ Status.Memory)
        ⊎ ReadsInTurn IsRead (names_until (loaded shelf.old.files command) (file_names command))
        shelf.old shelf.new }
    // The status has an output for which the words and the files stand with it.
    ensures outcome { IsReported result
        → (output : List ℕ) × Outcome (map string_bytes words.now) shelf.old.files result output }
    ensures absent { (command : Command) (file : ℕ) →
        command_of (map string_bytes words.now) ≡ Some command
        → loaded shelf.old.files command ≡ Absent file →
        (result ≡ Status.ReadFault) ⊎ (result ≡ Status.Memory) }
    ensures bad { (command : Command) (file line kind : ℕ) →
        command_of (map string_bytes words.now) ≡ Some command
        → loaded shelf.old.files command ≡ Bad file line kind
        → (result ≡ Status.BadInput) ⊎ (result ≡ Status.Memory) }
    ensures good { (command : Command) (task : Task) →
        command_of (map string_bytes words.now) ≡ Some command
        → loaded shelf.old.files command ≡ All task → IsSettled result ⊎ (result ≡ Status.Memory) }
    ensures succeeds { (command : Command) (task : Task) →
        command_of (map string_bytes words.now) ≡ Some command
        → loaded shelf.old.files command ≡ All task → Succeeds task
        → (result ≡ Status.Done) ⊎ (result ≡ Status.Memory) }
{
    run(alloc, words, shelf, sink)
}
