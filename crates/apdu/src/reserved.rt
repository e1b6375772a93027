// A list with room reserved for more items.
ghost use Rattle.std.specs.Prelude.{◌≡◌, ◌<◌, ◌≤◌, ◌+◌, ◌-◌, ◌==◌, ◌∷◌, ◌++◌, [], length, slice_get, slice_set, slice_index_or, take, Some, IsOk, IfOk, OnOk, OnErr, OnSome};
ghost use Rattle.std.specs.List as lists;
ghost use Rattle.std.specs.Option.{option_copied};

use crate::{Memory, Sequence};
use std::alloc::Global;
use std::marker::Model;

/// A list that tells its room. Contracts see its items, and how many more it takes without asking for memory.
#[derive(Drop)]
pub struct Reserved<T> {
    list: Vec<T>,
}

impl<T> Model for Reserved<T> {
    ghost use Rattle.std.specs.Prelude.{◌-◌, length};
    ghost use Rattle.std.specs.Vec.{vec_capacity};
    ghost use Rattle.apdu.specs.Reserved.{Room, room_code};

    ghost Value = { Room T };

    ghost coded = { room_code T.code };

    ghost view = { λ r. record { items = r.list.items; spare = vec_capacity r.list - length r.list.items } };
}

impl<T> Reserved<T> {
    ghost use Rattle.std.specs.Borrow.{sem};
    ghost use Rattle.apdu.specs.Lends.{lends_within};

    /// An empty list, which takes no memory.
    pub fn new(alloc: Global) -> Reserved<T>
        ensures { result ≡ record { items = []; spare = 0 } }
    {
        Reserved {
            list: Vec::new(alloc),
        }
    }

    /// An empty list with room for so many items.
    pub fn with_capacity(alloc: Global, capacity: usize) -> Result<Reserved<T>, Memory>
        ensures { IfOk result (λ list. list ≡ record { items = []; spare = capacity }) }
    {
        Ok(Reserved {
            list: Vec::with_capacity(alloc, capacity)?,
        })
    }

    /// The list of these items, which takes no memory.
    pub fn from_sequence(items: Sequence<T>) -> Reserved<T>
        ensures { result.items ≡ items }
    {
        Reserved {
            list: items.into_vec(),
        }
    }

    /// The items without the room, which takes no memory.
    pub fn into_sequence(self) -> Sequence<T>
        ensures { result ≡ self.items }
    {
        let Reserved { list } = self;
        Sequence::from_vec(list)
    }

    pub fn len(&self) -> usize
        ensures { result ≡ length self.now.items }
    {
        self.list.len()
    }

    pub fn is_empty(&self) -> bool
        ensures { result ≡ (length self.now.items == 0) }
    {
        self.list.is_empty()
    }

    pub fn as_slice(&self) -> &[T]
        ensures { result.now ≡ self.now.items }
    {
        self.list.as_slice()
    }

    pub fn get(&self, at: usize) -> Option<&T>
        ensures value { option_copied result ≡ slice_get self.now.items at }
        ensures within { OnSome result (at < length self.now.items) }
    {
        self.list.get(at)
    }

    /// The item at an index, for writing.
    pub fn at_mut(&mut self, at: usize) -> &mut T
        requires { at < length self.old.items }
        ensures* writes_back { sem 𝓛 (lends_within T.row self.entry at result) }
        ensures value { result.now ≡ slice_index_or self.old.items at result.now }
    {
        &mut self.list[at]
    }

    /// How many more items it takes without asking for memory.
    pub fn spare(&self) -> usize
        ensures { result ≡ self.now.spare }
    {
        self.list.capacity() - self.list.len()
    }

    /// Makes room for so many more items.
    pub fn reserve(&mut self, additional: usize) -> Result<(), Memory>
        ensures items { self.new.items ≡ self.old.items }
        ensures ok { OnOk result (additional ≤ self.new.spare) }
        ensures err { OnErr result (self.new ≡ self.old) }
        ensures grows { self.old.spare ≤ self.new.spare }
        ensures room { additional ≤ self.old.spare → IsOk result }
    {
        self.list.reserve(additional)?;
        Ok(())
    }

    /// Takes an item out; those behind it move up.
    pub fn remove(&mut self, at: usize) -> T
        requires { at < length self.old.items }
        ensures value { slice_get self.old.items at ≡ Some result }
        ensures items { self.new.items ≡ lists.remove self.old.items at }
        ensures spare { self.new.spare ≡ self.old.spare + 1 }
    {
        self.list.remove(at)
    }
}

impl<T: Drop> Reserved<T> {
    /// Puts an item at the end, within the room.
    pub fn push_within(&mut self, item: T)
        requires { 0 < self.old.spare }
        ensures items { self.new.items ≡ self.old.items ++ item ∷ [] }
        ensures spare { self.new.spare + 1 ≡ self.old.spare }
    {
        let len = self.list.len();
        let _ = self.list.insert(len, item);
    }

    /// Puts an item at the end, and asks for memory where there is no room.
    pub fn push(&mut self, item: T) -> Result<(), Memory>
        ensures ok { OnOk result (self.new.items ≡ self.old.items ++ item ∷ []) }
        ensures err { OnErr result (self.new.items ≡ self.old.items) }
        ensures spare { self.old.spare ≤ self.new.spare + 1 }
        ensures room { 0 < self.old.spare → IsOk result }
    {
        self.list.push(item)?;
        Ok(())
    }

    pub fn set(&mut self, at: usize, item: T)
        requires { at < length self.old.items }
        ensures items { self.new.items ≡ slice_set self.old.items at item }
        ensures spare { self.new.spare ≡ self.old.spare }
    {
        self.list[at] = item;
    }

    /// Keeps the first items; the places of the others are room.
    pub fn truncate(&mut self, len: usize)
        ensures items { self.new.items ≡ take len self.old.items }
        ensures spare { self.new.spare ≡ self.old.spare + (length self.old.items - len) }
    {
        self.list.truncate(len);
    }
}

impl<T: Copy> Reserved<T> {
    /// Puts copies of these at the end, within the room.
    pub fn extend_within(&mut self, items: &[T])
        requires { length items.now ≤ self.old.spare }
        ensures items { self.new.items ≡ self.old.items ++ items.now }
        ensures spare { self.old.spare ≤ self.new.spare + length items.now }
    {
        let _ = self.list.extend_from_slice(items);
    }
}
