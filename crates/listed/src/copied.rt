//! Lists that return copies of their items.
ghost use Rattle.std.specs.Prelude.{◌≡◌, ◌<◌, ◌++◌, ◌∷◌, [], ◌==◌, OnOk, OnErr, length, slice_get, slice_set, Some};

use std::alloc::{AllocError as Memory, Global};
use std::marker::Model;

/// A list of items that are `Copy`. Contracts see it as the list of its items, each by its view.
#[derive(Drop)]
pub struct CopyList<T> {
    items: Vec<T>,
}

impl<T> Model for CopyList<T> {
    ghost use Rattle.std.specs.Prelude.{List};

    ghost Value = { List T };

    ghost view = { λ list. list.items.items };
}

impl<T: Copy> CopyList<T> {
    /// The empty list. Takes no memory.
    pub fn new(alloc: Global) -> CopyList<T>
        ensures { result ≡ [] }
    {
        CopyList {
            items: Vec::new(alloc),
        }
    }

    /// The list of these items. Takes no memory.
    pub fn from_items(items: Vec<T>) -> CopyList<T>
        ensures { result ≡ items.items }
    {
        CopyList { items }
    }

    /// The number of items. Takes no memory.
    pub fn len(&self) -> usize
        ensures { result ≡ length self.now }
    {
        self.items.len()
    }

    /// Whether there is no item. Takes no memory.
    pub fn is_empty(&self) -> bool
        ensures { result ≡ (length self.now == 0) }
    {
        self.items.is_empty()
    }

    /// The item at place `i`, counted from 0. Takes no memory.
    pub fn get(&self, i: usize) -> T
        requires { i < length self.now }
        ensures { slice_get self.now i ≡ Some result }
    {
        self.items[i]
    }

    /// Writes the item at place `i`, counted from 0. Takes no memory.
    pub fn set(&mut self, i: usize, item: T)
        requires { i < length self.old }
        ensures { self.new ≡ slice_set self.old i item }
    {
        self.items[i] = item;
    }

    /// Appends an item. Takes constant time, averaged over the calls; the only error is `Memory`,
    /// and the list is then unchanged.
    pub fn push(&mut self, item: T) -> Result<(), Memory>
        ensures ok { OnOk result (self.new ≡ self.old ++ item ∷ []) }
        ensures err { OnErr result (self.new ≡ self.old) }
    {
        self.items.push(item)?;
        Ok(())
    }

    /// The items as a slice. Takes no memory.
    pub fn as_slice(&self) -> &[T]
        ensures { result.now ≡ self.now }
    {
        &self.items
    }
}
