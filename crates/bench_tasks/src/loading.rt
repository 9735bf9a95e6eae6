//! What one file holds: one function loads a file of any format, and one more each kind of file for
//! a graph.
ghost use Rattle.std.specs.declared.option.Option.TheVariants.{Some};
ghost use Rattle.std.specs.Prelude.{◌≡◌, ◌≤◌, [], ◌∷◌, IfOk, IfErr, length};
ghost use Rattle.outside.specs.Common.{file_named};
ghost use Rattle.tree_core.specs.Common.{Fits, shape_of, moves_of};
ghost use Rattle.move_text.specs.Common.{most_moves};
ghost use Rattle.ear_text.specs.from_ear_core.Common.{FitsEars, ears_of};
ghost use Rattle.graph_core.specs.Common.{size};
ghost use Rattle.bench_tasks.specs.Common.{StopsOn, file_seen, LoadsAnswered, ReadsOnce, place_name, ear_file, file_read, move_file, tree_file, Loads, StopsAt};

use crate::files::CommandFile;
use crate::formats::{EarFile, FileFormat, MoveFile, TreeFile};
use crate::stop::{FaultyFile, LoadStop, UnreadFile};
use ear_text::ear_core::EarList;
use graph_core::MultiGraph;
use graph_core::line_text::{FaultKind, TextFault};
use outside::{MOST_BYTES, Reasons, Shelf, ShelfFault};
use refusals::FileKind;
use std::alloc::Global;
use tree_core::{Moves, Tree};

// The file of that name, which is outside this format, or too long, and its bytes.
fn faulty<'a, F: FileFormat>(format: &F, name: &'a str, bytes: Option<Vec<u8>>) -> FaultyFile<'a>
    ensures file { file_seen result.file ≡ (name.now, F.kind format.now) }
    ensures bytes { result.bytes ≡ bytes }
    ensures sizes { result.sizes ≡ F.sizes format.now }
{
    let kind = format.kind();
    FaultyFile {
        file: CommandFile { name, kind },
        bytes,
        sizes: format.sizes(),
    }
}

// What the file of that name holds, which has this place among the named files.
pub(crate) fn load<'a, R: Reasons<S>, S: Shelf, F: FileFormat>(
    alloc: Global,
    format: &F,
    name: &'a str,
    place: u32,
    reasons: &R,
    shelf: &mut S,
) -> Result<F::Value, LoadStop<'a>>
    ensures loads { Loads S.files S.steady S.faults F.meaning
        (λ files. file_read place (F.reading format.now) (file_named name.now files))
        result shelf.old shelf.new }
    ensures answered { ReadsOnce S.reads name.now place F.meaning
        (λ files. file_read place (F.reading format.now) (file_named (place_name place) files))
        result shelf.old shelf.new }
    ensures stops { IfErr result (StopsAt place) }
    ensures stops_on { IfErr result
        (StopsOn (name.now, F.kind format.now) (F.sizes format.now) (R.reason shelf.new)) }
    ensures keeps { IfOk result (F.keeps format.now) }
{
    let bytes = match shelf.read(alloc, name, MOST_BYTES) {
        Ok(bytes) => bytes,
        Err(ShelfFault::Failed) => {
            let kind = format.kind();
            let reason = reasons.reason(shelf);
            let file = CommandFile { name, kind };
            return Err(LoadStop::ReadFault {
                file: place,
                unread: UnreadFile { file, reason },
            });
        }
        Err(ShelfFault::TooLong) => {
            let found = faulty(format, name, None);
            return Err(LoadStop::Bad {
                file: place,
                line: 0,
                kind: FaultKind::Limit,
                found,
            });
        }
        Err(ShelfFault::Memory) => return Err(LoadStop::Memory),
    };
    match format.read(alloc, &bytes) {
        Ok(value) => Ok(value),
        Err(TextFault::At { line, kind }) => {
            let found = faulty(format, name, Some(bytes));
            Err(LoadStop::Bad {
                file: place,
                line,
                kind,
                found,
            })
        }
        Err(TextFault::Memory) => Err(LoadStop::Memory),
    }
}

/// What the first named file holds.
pub fn load_first<'a, R: Reasons<S>, S: Shelf, F: FileFormat>(
    alloc: Global,
    format: &F,
    name: &'a str,
    reasons: &R,
    shelf: &mut S,
) -> Result<F::Value, LoadStop<'a>>
    ensures loads { Loads S.files S.steady S.faults F.meaning
        (λ files. file_read 1 (F.reading format.now) (file_named name.now files))
        result shelf.old shelf.new }
    ensures answered { LoadsAnswered S.reads (name.now ∷ []) F.meaning
        (λ files. file_read 1 (F.reading format.now) (file_named (place_name 1) files))
        result shelf.old shelf.new }
    ensures stops { IfErr result (StopsAt 1) }
    ensures stops_on { IfErr result
        (StopsOn (name.now, F.kind format.now) (F.sizes format.now) (R.reason shelf.new)) }
    ensures keeps { IfOk result (F.keeps format.now) }
{
    load(alloc, format, name, 1, reasons, shelf)
}

// What the file of a tree for this graph holds, which has this place among the named files.
pub(crate) fn load_tree_for<'a, R: Reasons<S>, S: Shelf>(
    alloc: Global,
    graph: &MultiGraph,
    name: &'a str,
    place: u32,
    reasons: &R,
    shelf: &mut S,
) -> Result<Tree, LoadStop<'a>>
    ensures loads { Loads S.files S.steady S.faults shape_of
        (λ files. tree_file files place name.now graph.now.order) result shelf.old shelf.new }
    ensures answered { ReadsOnce S.reads name.now place shape_of
        (λ files. tree_file files place (place_name place) graph.now.order)
        result shelf.old shelf.new }
    ensures stops { IfErr result (StopsAt place) }
    ensures stops_on { IfErr result (StopsOn (name.now, FileKind.Tree)
        (Some (graph.now.order, size graph.now)) (R.reason shelf.new)) }
    ensures fits { IfOk result (λ tree. Fits graph.now.order (shape_of tree)) }
{
    let format = TreeFile { graph };
    load(alloc, &format, name, place, reasons, shelf)
}

// What the file of a list of ears for this graph holds, which is the second.
pub(crate) fn load_ears_for<'a, R: Reasons<S>, S: Shelf>(
    alloc: Global,
    graph: &MultiGraph,
    name: &'a str,
    reasons: &R,
    shelf: &mut S,
) -> Result<EarList, LoadStop<'a>>
    ensures loads { Loads S.files S.steady S.faults ears_of
        (λ files. ear_file files name.now graph.now) result shelf.old shelf.new }
    ensures answered { ReadsOnce S.reads name.now 2 ears_of
        (λ files. ear_file files (place_name 2) graph.now)
        result shelf.old shelf.new }
    ensures stops { IfErr result (StopsAt 2) }
    ensures stops_on { IfErr result (StopsOn (name.now, FileKind.Ears)
        (Some (graph.now.order, size graph.now)) (R.reason shelf.new)) }
    ensures fits { IfOk result
        (λ list. FitsEars graph.now.order (size graph.now) (ears_of list)) }
{
    let format = EarFile { graph };
    load(alloc, &format, name, 2, reasons, shelf)
}

// What the file of moves on trees for this graph holds, which is the third.
pub(crate) fn load_moves_for<'a, R: Reasons<S>, S: Shelf>(
    alloc: Global,
    graph: &MultiGraph,
    name: &'a str,
    reasons: &R,
    shelf: &mut S,
) -> Result<Moves, LoadStop<'a>>
    ensures loads { Loads S.files S.steady S.faults moves_of
        (λ files. move_file files name.now graph.now.order) result shelf.old shelf.new }
    ensures answered { ReadsOnce S.reads name.now 3 moves_of
        (λ files. move_file files (place_name 3) graph.now.order)
        result shelf.old shelf.new }
    ensures stops { IfErr result (StopsAt 3) }
    ensures stops_on { IfErr result (StopsOn (name.now, FileKind.Moves)
        (Some (graph.now.order, size graph.now)) (R.reason shelf.new)) }
    ensures few { IfOk result (λ moves. length moves ≤ most_moves) }
{
    let format = MoveFile { graph };
    load(alloc, &format, name, 3, reasons, shelf)
}
