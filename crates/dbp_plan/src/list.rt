// The list that grows, and the error that memory ran out.

ghost use Rattle.std.specs.Prelude.{◌≡◌, ℕ, ◌+◌, ◌^◌, ◌<◌, ◌≤◌, ◌↔◌, List as Items, [], ◌∷◌, ◌++◌, length, IfOk, IsNone, IsTrue, OnOk, OnErr, slice_get};
ghost use Rattle.std.specs.Option.{option_copied};
ghost use Rattle.std.specs.Borrow.{sem};

use std::alloc::{AllocError, AllocFailed, Global};
use std::marker::Model;

/// Memory ran out. Any call that takes memory may return this at any time.
#[derive(Clone, Copy, Debug, PartialEq, Eq)]
pub struct NoMemory;

impl From<AllocError> for NoMemory {
    fn from(_: AllocError) -> Self {
        NoMemory
    }
}

impl<T: Drop> From<AllocFailed<T>> for NoMemory {
    fn from(_: AllocFailed<T>) -> Self {
        NoMemory
    }
}

/// A list that grows, of at most 4294967295 items. A contract sees the list of its items.
#[derive(Drop)]
pub struct List<T> {
    items: Vec<T>,
}

impl<T> Model for List<T> {
    ghost use Rattle.std.specs.Prelude.{List as Items, length, ◌<◌, ◌^◌};
    ghost use Rattle.std.specs.Coded.{coded_list};

    ghost Value = { Items T };

    ghost coded = { coded_list T.code };

    ghost view = { λ l. l.items.items };

    ghost invariant = { λ l. length l.items.items < 2 ^ 32 };
}

impl<T: Drop> List<T> {
    ghost use Rattle.dbp_plan.specs.Lends.{lends_items};

    /// The empty list. It takes no memory before the first `push`.
    pub fn new(alloc: Global) -> List<T>
        ensures { result ≡ [] }
    {
        List {
            items: Vec::new(alloc),
        }
    }

    /// An empty list with room for so many items: pushing them takes no more memory.
    pub fn with_capacity(alloc: Global, count: u32) -> Result<List<T>, NoMemory>
        ensures { IfOk result (λ made. made ≡ []) }
    {
        Ok(List {
            items: Vec::with_capacity(alloc, count as usize)?,
        })
    }

    /// Adds the item at the end. If memory runs out the list stays as it was, and the item is given up.
    pub fn push(&mut self, item: T) -> Result<(), NoMemory>
        requires { length self.old + 1 < 2 ^ 32 }
        ensures ok { OnOk result (self.new ≡ self.old ++ item ∷ []) }
        ensures err { OnErr result (self.new ≡ self.old) }
    {
        self.items.push(item)?;
        Ok(())
    }

    /// The item at the place, counted from 0.
    pub fn get(&self, place: u32) -> Option<&T>
        ensures item { option_copied result ≡ slice_get self.now place }
        ensures none { IsNone result ↔ (length self.now ≤ place) }
    {
        self.items.get(place as usize)
    }

    /// All items, in order.
    pub fn items(&self) -> &[T]
        ensures value { result.now ≡ self.now }
        // callers don't see the type's bound on the length
        ensures fits { length self.now < 2 ^ 32 }
    {
        &self.items
    }

    /// All items, for writing. The length stays.
    pub fn items_mut(&mut self) -> &mut [T]
        ensures* writes_back { sem 𝓛 (lends_items T.row self.entry result) }
        ensures value { result.now ≡ self.old }
    {
        &mut self.items
    }

    /// All items, in order, given up by the list. It takes no memory.
    pub fn into_items(self) -> Vec<T>
        ensures value { result.items ≡ self }
        ensures fits { length self < 2 ^ 32 }
    {
        self.items
    }

    /// The number of items.
    pub fn len(&self) -> u32
        ensures { result ≡ length self.now }
    {
        self.items.len() as u32
    }

    /// Whether there are no items.
    pub fn is_empty(&self) -> bool
        ensures { IsTrue result ↔ (self.now ≡ []) }
    {
        self.items.is_empty()
    }

    // An empty list with room for as many items.
    pub(crate) fn sized_like(&self) -> Result<List<T>, NoMemory>
        ensures { IfOk result (λ made. made ≡ []) }
    {
        List::with_capacity(*self.items.allocator(), self.len())
    }
}

impl<T: Copy> List<T> {
    /// Adds the items at the end, in order. If memory runs out the list stays as it was.
    pub fn extend_from_slice(&mut self, items: &[T]) -> Result<(), NoMemory>
        requires { length self.old + length items.now < 2 ^ 32 }
        ensures ok { OnOk result (self.new ≡ self.old ++ items.now) }
        ensures err { OnErr result (self.new ≡ self.old) }
    {
        self.items.extend_from_slice(items)?;
        Ok(())
    }

    /// An equal list.
    pub fn copied(&self) -> Result<List<T>, NoMemory>
        ensures { IfOk result (λ copy. copy ≡ self.now) }
    {
        let mut copy = self.sized_like()?;
        for item in self.items() {
            copy.push(*item)?;
        }
        Ok(copy)
    }
}
