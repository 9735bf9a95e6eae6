//! The calls that are planned to fail: kept by their numbers, and counted with their errors.
ghost use Rattle.std.specs.Prelude.{◌≡◌, ◌≤◌, ◌↔◌, ◌++◌, ◌∷◌, [], Contains, IsTrue, OnErr, OnOk, if◌then◌else◌};
ghost use Rattle.outside.specs.Common.{next_call, next_fault};

use std::alloc::{AllocError as Memory, Global};

/// The numbers of the calls that are to fail, counted from 1, and the counts of calls and of errors
/// so far, each of which saturates at its type's largest value.
#[derive(Drop)]
pub struct CallPlan {
    pub failing: Vec<u32>,
    pub calls: u32,
    pub faults: u64,
}

impl CallPlan {
    /// No call is to fail, and none has been made. Takes no memory.
    pub fn new(alloc: Global) -> CallPlan
        ensures failing { result.failing.items ≡ [] }
        ensures calls { result.calls ≡ 0 }
        ensures faults { result.faults ≡ 0 }
    {
        CallPlan {
            failing: Vec::new(alloc),
            calls: 0,
            faults: 0,
        }
    }

    /// Plans the call of that number to fail. After `Memory` nothing has changed.
    pub fn fail(&mut self, call: u32) -> Result<(), Memory>
        ensures ok { OnOk result (self.new.failing.items ≡ self.old.failing.items ++ call ∷ []) }
        ensures err { OnErr result (self.new.failing.items ≡ self.old.failing.items) }
        ensures calls { self.new.calls ≡ self.old.calls }
        ensures faults { self.new.faults ≡ self.old.faults }
    {
        self.failing.push(call)?;
        Ok(())
    }

    /// Counts one more error.
    pub fn count_fault(&mut self)
        ensures failing { self.new.failing.items ≡ self.old.failing.items }
        ensures calls { self.new.calls ≡ self.old.calls }
        ensures later { self.old.faults ≤ self.new.faults }
        ensures faults { self.new.faults ≡ next_fault self.old.faults }
    {
        self.faults = self.faults.saturating_add(1);
    }

    /// Counts one more call, and its error, if it is to fail; returns whether it is.
    pub fn fails_next(&mut self) -> bool
        ensures fails { IsTrue result ↔ Contains self.old.failing.items (next_call self.old.calls) }
        ensures failing { self.new.failing.items ≡ self.old.failing.items }
        ensures calls { self.new.calls ≡ next_call self.old.calls }
        ensures later { self.old.faults ≤ self.new.faults }
        ensures faults { self.new.faults ≡
            (if result then next_fault self.old.faults else self.old.faults) }
    {
        self.calls = self.calls.saturating_add(1);
        let fails = self.failing.contains(&self.calls);
        if fails {
            self.count_fault();
        }
        fails
    }
}
