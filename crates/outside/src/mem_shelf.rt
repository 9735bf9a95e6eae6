//! A shelf in memory, some of whose reads fail.
ghost use Rattle.std.specs.Prelude.{◌≡◌, ◌≤◌, ◌<◌, ◌-◌, ◌^◌, ◌==◌, ◌++◌, ◌∷◌, [], ◌↔◌, ◌⊎◌, IfOk, OnOk, OnErr, IsErrOf, Contains, length};
ghost use Rattle.std.specs.declared.option.Option.TheVariants.{None, Some};
ghost use Rattle.std.specs.Option.{option_map};
ghost use Rattle.std.proofs.Common.{rules};
ghost use Rattle.outside.specs.Faults.{next_call, next_fault};
ghost use Rattle.outside.specs.Shelf.{file_named, HoldsLonger};
ghost use Rattle.outside.specs.MemShelf.{FailsNext, IsRead};
ghost use Rattle.outside.specs.StoredFile.{named_files};

use crate::planned::CallPlan;
use crate::{Explain, FailureReason, Shelf, ShelfFault};
use std::alloc::{AllocError as Memory, Global};
use std::marker::Model;

#[derive(Drop)]
struct StoredFile {
    name: String,
    bytes: Vec<u8>,
}

/// A shelf in memory, which makes its files known, and whose reads of chosen numbers fail.
///
/// A contract sees it as a `ShelfState`: the files by name and bytes, in the order in which they
/// were put, the planned numbers, the counts of calls and of errors, each of which saturates at its
/// type's largest value, and the number of bytes that the last read took. It is steady if and only
/// if no numbers are planned.
#[derive(Drop)]
pub struct MemShelf {
    alloc: Global,
    files: Vec<StoredFile>,
    taken: usize,
    plan: CallPlan,
}

impl Model for MemShelf {
    ghost use Rattle.outside.specs.MemShelf.{ShelfState};
    ghost use Rattle.outside.specs.StoredFile.{named_files};

    ghost Value = { ShelfState };

    ghost view = { λ shelf. record {
      files = named_files shelf.files.items;
      failing = shelf.plan.failing.items;
      calls = shelf.plan.calls;
      taken = shelf.taken;
      faults = shelf.plan.faults;
    } };
}

impl MemShelf {
    /// A shelf without files. Takes no memory.
    pub fn new(alloc: Global) -> MemShelf
        ensures { result ≡ record { files = []; failing = []; calls = 0; taken = 0; faults = 0 } }
    {
        MemShelf {
            alloc,
            files: Vec::new(alloc),
            taken: 0,
            plan: CallPlan::new(alloc),
        }
    }

    /// Appends a file; of two files with the same name the first is read. After `Memory` nothing
    /// has changed.
    pub fn put(&mut self, name: &str, bytes: &[u8]) -> Result<(), Memory>
        ensures ok { OnOk result
            (self.new ≡ record self.old { files = self.old.files ++ (name.now, bytes.now) ∷ [] }) }
        ensures err { OnErr result (self.new ≡ self.old) }
    {
        let name = String::from_str(self.alloc, name)?;
        let bytes = bytes.to_vec(self.alloc)?;
        self.files.push(StoredFile { name, bytes })?;
        Ok(())
    }

    /// Plans the read call of that number to fail. Calls are counted from 1. After `Memory` nothing
    /// has changed.
    pub fn fail_read(&mut self, call: u32) -> Result<(), Memory>
        ensures ok { OnOk result
            (self.new ≡ record self.old { failing = self.old.failing ++ call ∷ [] }) }
        ensures err { OnErr result (self.new ≡ self.old) }
    {
        self.plan.fail(call)
    }
}

// The bytes of the first file of that name.
fn find_file<'a>(files: &'a [StoredFile], name: &str) -> Option<&'a Vec<u8>>
    ensures { option_map (λ bytes. bytes.now.items) result ≡
        file_named name.now (named_files files.now) }
{
    let mut rest = files;
    'looking: while let Some((file, others)) = rest.split_first() {
        if file.name.as_str() == name {
            return Some(&file.bytes);
        }
        rest = others;
    }
    None
}

impl Shelf for MemShelf {
    ghost files = { λ shelf. Some shelf.files };

    ghost taken = { λ shelf. shelf.taken };

    ghost faults = { λ shelf. shelf.faults };

    ghost reads = { IsRead };

    ghost steady = { λ shelf. length shelf.failing == 0 };

    ghost steady_tells = { λ shelf is. Prim.search rules };

    fn read(&mut self, alloc: Global, name: &str, limit: usize) -> Result<Vec<u8>, ShelfFault>
        requires { limit < 2 ^ 64 - 1 }

        // A call fails if and only if its number is planned or there is no file of that name.
        ensures failed { IsErrOf result ShelfFault.Failed ↔ FailsNext self.old name.now }
        ensures too_long { IsErrOf result ShelfFault.TooLong
            ↔ (¬ FailsNext self.old name.now) × HoldsLonger self.old.files name.now limit }
        ensures ok { IfOk result (λ bytes. file_named name.now self.old.files ≡ Some bytes.items) }
        ensures within { IfOk result (λ bytes. length bytes.items ≤ limit) }

        ensures files { self.new.files ≡ self.old.files }
        ensures failing { self.new.failing ≡ self.old.failing }
        ensures calls { self.new.calls ≡ next_call self.old.calls }
        ensures taken { IfOk result (λ bytes. length bytes.items ≡ self.new.taken) }
        ensures none_taken { OnErr result (self.new.taken ≡ 0) }

        // The count of errors goes up if and only if the call fails.
        ensures later { self.old.faults ≤ self.new.faults }
        ensures rises { IsErrOf result ShelfFault.Failed →
            self.new.faults ≡ next_fault self.old.faults }
        ensures stays { IsErrOf result ShelfFault.Failed ⊎ (self.new.faults ≡ self.old.faults) }
    {
        self.taken = 0;
        if self.plan.fails_next() {
            return Err(ShelfFault::Failed);
        }
        match find_file(&self.files, name) {
            None => {
                self.plan.count_fault();
                Err(ShelfFault::Failed)
            }
            Some(bytes) if bytes.len() > limit => Err(ShelfFault::TooLong),
            Some(bytes) => {
                let bytes = bytes.to_vec(alloc).map_err(|_| ShelfFault::Memory)?;
                self.taken = bytes.len();
                Ok(bytes)
            }
        }
    }
}

/// It never knows why.
impl Explain for MemShelf {
    ghost reason = { λ _. None };

    fn reason(&self) -> Option<FailureReason> {
        None
    }
}
