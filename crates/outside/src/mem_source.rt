//! A source in memory, some of whose reads fail.
ghost use Rattle.std.specs.Prelude.{◌≡◌, ◌≤◌, ◌++◌, ◌∷◌, [], ◌↔◌, IfOk, OnOk, OnErr, IsErr, Contains, length, take, drop};
ghost use Rattle.std.specs.declared.option.Option.TheVariants.{Some};
ghost use Rattle.outside.specs.Faults.{next_call, next_fault};
ghost use Rattle.outside.specs.MemSource.{size_for, portion, IsGiven};

use crate::planned::CallPlan;
use crate::{Source, SourceFailed};
use std::alloc::{AllocError as Memory, Global};
use std::marker::Model;

/// A source in memory, which makes the bytes that are left known: each call returns at most the
/// number of bytes planned for it, and the reads of chosen numbers fail.
///
/// A contract sees it as a `SourceState`: the bytes left, the most for each call, the planned
/// numbers, and the counts of calls and of errors, each of which saturates at its type's largest
/// value.
#[derive(Drop)]
pub struct MemSource {
    bytes: Vec<u8>,
    done: usize,
    sizes: Vec<usize>,
    plan: CallPlan,
}

impl Model for MemSource {
    ghost use Rattle.std.specs.Prelude.{vec_len, drop, ◌≤◌};
    ghost use Rattle.outside.specs.MemSource.{SourceState};

    ghost Value = { SourceState };

    ghost view = { λ source. record {
      left = drop source.done source.bytes.items;
      sizes = source.sizes.items;
      failing = source.plan.failing.items;
      calls = source.plan.calls;
      faults = source.plan.faults;
    } };

    ghost invariant = { λ source. source.done ≤ vec_len source.bytes };
}

impl MemSource {
    /// A source of these bytes, which it copies.
    pub fn new(alloc: Global, bytes: &[u8]) -> Result<MemSource, Memory>
        ensures { IfOk result (λ source. source ≡ record {
          left = bytes.now;
          sizes = [];
          failing = [];
          calls = 0;
          faults = 0;
        }) }
    {
        Ok(MemSource {
            bytes: bytes.to_vec(alloc)?,
            done: 0,
            sizes: Vec::new(alloc),
            plan: CallPlan::new(alloc),
        })
    }

    /// Plans the most bytes for one more call, which returns at least one. After `Memory` nothing
    /// has changed.
    pub fn plan_size(&mut self, size: usize) -> Result<(), Memory>
        ensures ok { OnOk result
            (self.new ≡ record self.old { sizes = self.old.sizes ++ size ∷ [] }) }
        ensures err { OnErr result (self.new ≡ self.old) }
    {
        self.sizes.push(size)?;
        Ok(())
    }

    /// Plans the read call of that number to fail. Calls are counted from 1. After `Memory` nothing
    /// has changed.
    pub fn fail_read(&mut self, call: u32) -> Result<(), Memory>
        ensures ok { OnOk result
            (self.new ≡ record self.old { failing = self.old.failing ++ call ∷ [] }) }
        ensures err { OnErr result (self.new ≡ self.old) }
    {
        self.plan.fail(call)
    }
}

// The most bytes for the call of that number.
fn size_for(sizes: &[usize], call: u32) -> usize
    requires { 1 ≤ call }
    ensures { result ≡ size_for sizes.now call }
{
    let planned = sizes.get(call as usize - 1).copied();
    planned.unwrap_or(usize::MAX).max(1)
}

impl Source for MemSource {
    ghost left = { λ source. Some source.left };

    ghost faults = { λ source. source.faults };

    ghost reads = { IsGiven };

    /// It takes no memory.
    fn read(&mut self, piece: &mut [u8]) -> Result<usize, SourceFailed>
        // A call fails if and only if its number is planned; every other call returns its portion
        // of what is left.
        ensures failed { IsErr result ↔ Contains self.old.failing (next_call self.old.calls) }
        ensures portion { IfOk result (λ count. count ≡ portion self.old (length piece.old)) }
        ensures given { IfOk result (λ count. take count piece.new ≡ take count self.old.left) }

        ensures later { self.old.faults ≤ self.new.faults }
        ensures ok { IfOk result (λ count. self.new ≡ record self.old {
          left = drop count self.old.left;
          calls = next_call self.old.calls;
        }) }
        ensures err { OnErr result (self.new ≡ record self.old {
          calls = next_call self.old.calls;
          faults = next_fault self.old.faults;
        }) }
    {
        if self.plan.fails_next() {
            return Err(SourceFailed);
        }
        let most = size_for(&self.sizes, self.plan.calls);
        let rest = &self.bytes[self.done..];
        let count = piece.len().min(most).min(rest.len());
        piece[..count].copy_from_slice(&rest[..count]);
        self.done += count;
        Ok(count)
    }
}
