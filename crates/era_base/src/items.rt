//! Lists that contracts see as lists.

ghost use Rattle.std.specs.Prelude.{◌≡◌, ◌==◌, ◌<◌, [], ◌∷◌, ◌++◌, length, replicate, slice_set, IfOk, OnOk, OnErr};

use crate::faults::Memory;
use std::alloc::Global;
use std::marker::Model;

/// A list of items in order.
#[derive(Debug, Drop)]
pub struct Items<T> {
    items: Vec<T>,
}

impl<T> Model for Items<T> {
    ghost use Rattle.std.specs.Prelude.{List};

    ghost Value = { List T };

    ghost view = { λ l. l.items.items };
}

impl<T> Items<T> {
    /// No items. It takes no memory.
    pub fn new(alloc: Global) -> Items<T>
        ensures { result ≡ [] }
    {
        Items {
            items: Vec::new(alloc),
        }
    }

    /// The number of items.
    pub fn len(&self) -> usize
        ensures { result ≡ length self.now }
    {
        self.items.len()
    }

    /// Whether there are no items.
    pub fn is_empty(&self) -> bool
        ensures { result ≡ (length self.now == 0) }
    {
        self.items.is_empty()
    }

    /// The items.
    pub fn as_slice(&self) -> &[T]
        ensures { result.now ≡ self.now }
    {
        self.items.as_slice()
    }
}

impl<T: Drop> Items<T> {
    /// Adds an item behind the others.
    pub fn push(&mut self, item: T) -> Result<(), Memory>
        ensures ok { OnOk result (self.new ≡ self.old ++ item ∷ []) }
        ensures err { OnErr result (self.new ≡ self.old) }
    {
        self.items.push(item)?;
        Ok(())
    }

    /// Puts an item into the place of another. It takes no memory.
    pub fn set(&mut self, index: usize, item: T)
        requires { index < length self.old }
        ensures { self.new ≡ slice_set self.old index item }
    {
        self.items[index] = item;
    }
}

impl<T: Copy> Items<T> {
    /// So many copies of an item. Neither `set` nor `copy_from` takes memory afterwards.
    pub fn repeat(alloc: Global, item: T, count: usize) -> Result<Items<T>, Memory>
        ensures { IfOk result (λ list. list ≡ replicate count item) }
    {
        let mut items = Vec::new(alloc);
        items.resize(count, item)?;
        Ok(Items { items })
    }

    /// Puts as many other items into the places of all. It takes no memory.
    pub fn copy_from(&mut self, items: &[T])
        requires { length self.old ≡ length items.now }
        ensures { self.new ≡ items.now }
    {
        self.items.copy_from_slice(items);
    }
}

/// A list that always has room for `ROOM` items: only `with_room` takes memory.
#[derive(Debug, Drop)]
pub struct ReservedList<T, const ROOM: usize> {
    items: Vec<T>,
}

impl<T, const ROOM: usize> Model for ReservedList<T, ROOM> {
    ghost use Rattle.std.specs.Prelude.{◌≤◌, List, vec_capacity};

    ghost Value = { List T };

    ghost view = { λ l. l.items.items };

    ghost invariant = { λ l. ROOM ≤ vec_capacity l.items };
}

impl<T, const ROOM: usize> ReservedList<T, ROOM> {
    /// No items, and room for `ROOM`.
    pub fn with_room(alloc: Global) -> Result<ReservedList<T, ROOM>, Memory>
        ensures { IfOk result (λ list. list ≡ []) }
    {
        Ok(ReservedList {
            items: Vec::with_capacity(alloc, ROOM)?,
        })
    }

    /// The number of items.
    pub fn len(&self) -> usize
        ensures { result ≡ length self.now }
    {
        self.items.len()
    }

    /// Adds an item behind the others.
    pub fn push_reserved(&mut self, item: T)
        requires { length self.old < ROOM }
        ensures { self.new ≡ self.old ++ item ∷ [] }
    {
        self.items.push_reserved(item);
    }

    /// Takes the first item out. The others keep their order, and the list its room.
    pub fn take_first(&mut self) -> T
        requires { 0 < length self.old }
        ensures { self.old ≡ result ∷ self.new }
    {
        self.items.remove(0)
    }

    /// The items.
    pub fn as_slice(&self) -> &[T]
        ensures { result.now ≡ self.now }
    {
        self.items.as_slice()
    }
}
