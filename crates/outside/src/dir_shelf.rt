//! A shelf of the files that a runtime reaches by name.
ghost use Rattle.std.specs.Prelude.{◌≡◌, ◌≤◌, ◌<◌, ◌-◌, ◌+◌, ◌^◌, ◌⊎◌, ◌++◌, ◌∷◌, [], length, false, IfOk, IfSome, OnOk, OnErr, IsErrOf};
ghost use Rattle.std.specs.declared.option.Option.TheVariants.{None};
ghost use Rattle.std.proofs.Common.{rules};
ghost use Rattle.outside.specs.DirShelf.{IsOpened};
ghost use Rattle.outside.specs.Faults.{next_fault};

use crate::edge::TracedFiles;
use crate::{Explain, FailureReason, Noting, Shelf, ShelfFault};
use std::alloc::Global;
use std::marker::Model;
use std::rt::Files;

/// A shelf of the files that a runtime reaches by name. It is the trusted edge: it notes what the
/// runtime gave for each name, makes no file known before it is read, and is never steady.
///
/// A contract sees it as an `OpenState`: the files that were given, with their names, how many bytes
/// the last read took, the count of errors, which saturates at the largest u64, and why the last
/// read failed, if it did.
#[derive(Drop)]
pub struct DirShelf<'a, R> {
    files: TracedFiles<'a, R>,
    taken: usize,
    faults: u64,
    reason: Option<FailureReason>,
}

impl<'a, R> Model for DirShelf<'a, R> {
    ghost use Rattle.outside.specs.DirShelf.{OpenState};

    ghost Value = { OpenState };

    ghost view = { λ shelf. record {
      given = shelf.files;
      taken = shelf.taken;
      faults = shelf.faults;
      reason = shelf.reason;
    } };
}

impl<'a, R> DirShelf<'a, R> {
    /// The shelf of that runtime's files. It takes no memory.
    pub fn new(runtime: &'a R) -> DirShelf<'a, R>
        ensures { result ≡ record { given = []; taken = 0; faults = 0; reason = None } }
    {
        DirShelf {
            files: TracedFiles::new(runtime),
            taken: 0,
            faults: 0,
            reason: None,
        }
    }
}

impl<R: Files> Shelf for DirShelf<'_, R> {
    ghost files = { λ shelf. None };

    ghost taken = { λ shelf. shelf.taken };

    ghost faults = { λ shelf. shelf.faults };

    ghost reads = { IsOpened };

    ghost steady = { λ shelf. false };

    ghost steady_tells = { λ shelf is. Prim.search rules };

    /// The read ends after at most `limit + 1` bytes. An error of the runtime, at the opening or in
    /// any turn, is `Failed`.
    fn read(&mut self, alloc: Global, name: &str, limit: usize) -> Result<Vec<u8>, ShelfFault>
        requires { limit < 2 ^ 64 - 1 }

        ensures within { IfOk result (λ bytes. length bytes.items ≤ limit) }
        ensures taken { IfOk result (λ bytes. length bytes.items ≡ self.new.taken) }
        ensures too_long { IsErrOf result ShelfFault.TooLong → self.new.taken ≡ limit + 1 }
        ensures ends { self.new.taken ≤ limit + 1 }

        // A read that returns a file notes it, with the name that was asked for.
        ensures given { IfOk result
            (λ bytes. self.new.given ≡ self.old.given ++ (name.now, bytes.items) ∷ []) }
        ensures unread { OnErr result (self.new.given ≡ self.old.given) }

        // The count of errors goes up if and only if the call fails.
        ensures later { self.old.faults ≤ self.new.faults }
        ensures rises { IsErrOf result ShelfFault.Failed →
            self.new.faults ≡ next_fault self.old.faults }
        ensures stays { IsErrOf result ShelfFault.Failed ⊎ (self.new.faults ≡ self.old.faults) }
    {
        let mut bytes = Vec::new(alloc);
        let mut reason = None;
        let filled = self.files.read(name, &mut bytes, limit, &mut reason);
        self.taken = bytes.len();
        self.reason = reason;
        match filled {
            Ok(()) => Ok(bytes),
            Err(ShelfFault::Failed) => {
                self.faults = self.faults.saturating_add(1);
                Err(ShelfFault::Failed)
            }
            Err(fault) => Err(fault),
        }
    }
}

impl<R: Files> Explain for DirShelf<'_, R> {
    ghost reason = { λ shelf. shelf.reason };

    fn reason(&self) -> Option<FailureReason> {
        self.reason
    }
}

impl<R: Files> Noting for DirShelf<'_, R> {
    ghost given = { λ shelf. shelf.given };

    ghost notes = { λ before name bytes now read. read.given };
}
