// Lists of a fixed room, which take no memory once they are made.
ghost use Rattle.std.specs.Prelude.{◌≡◌, ◌<◌, ◌≤◌, ◌∷◌, ◌++◌, [], length, drop, slice_get, slice_set, slice_index_or, IsOk, IfOk, OnOk, OnErr, OnSome};
ghost use Rattle.std.specs.List.{remove};
ghost use Rattle.std.specs.Option.{option_copied};
ghost use Rattle.std.specs.Result.{IsErr};
ghost use Rattle.card_model.specs.Room.{most_files};

use crate::{ChannelState, FileState};
use apdu::{Memory, Sequence};
use arrayvec::ArrayVec;
use std::alloc::Global;
use std::default::MadeWith;
use std::marker::Model;

/// A list with room for N items, which lie in the list itself. Contracts see the list.
#[derive(Drop)]
pub struct FixedList<T, const N: usize> {
    items: ArrayVec<T, N>,
}

impl<T, const N: usize> Model for FixedList<T, N> {
    ghost use Rattle.std.specs.Prelude.{List};
    ghost use Rattle.std.specs.Coded.{coded_list};

    ghost Value = { List T };

    ghost coded = { coded_list T.code };

    ghost view = { λ l. l.items.items };
}

impl<T: MadeWith<()> + Drop, const N: usize> FixedList<T, N> {
    pub fn new() -> FixedList<T, N>
        ensures { result ≡ [] }
    {
        FixedList {
            items: ArrayVec::new_in(()),
        }
    }

    pub fn len(&self) -> usize
        ensures { result ≡ length self.now }
    {
        self.items.len()
    }

    pub fn as_slice(&self) -> &[T]
        ensures { result.now ≡ self.now }
    {
        self.items.as_slice()
    }

    pub fn get(&self, at: usize) -> Option<&T>
        ensures value { option_copied result ≡ slice_get self.now at }
        ensures within { OnSome result (at < length self.now) }
    {
        self.items.as_slice().get(at)
    }

    pub fn set(&mut self, at: usize, item: T)
        requires { at < length self.old }
        ensures { self.new ≡ slice_set self.old at item }
    {
        self.items.as_mut_slice()[at] = item;
    }

    /// Takes an item out; those behind it move up.
    pub fn remove(&mut self, at: usize)
        requires { at < length self.old }
        ensures { self.new ≡ remove self.old at }
    {
        let _ = self.items.remove(at);
    }

    /// Takes the first item out, where there is one.
    pub fn remove_first(&mut self)
        ensures { self.new ≡ drop 1 self.old }
    {
        if !self.items.is_empty() {
            let _ = self.items.remove(0);
        }
    }

    /// Takes every item out.
    pub fn clear(&mut self)
        ensures { self.new ≡ [] }
    {
        self.items.clear();
    }

    /// Puts an item at the end. There is no room past N.
    pub fn push(&mut self, item: T) -> Result<(), Memory>
        ensures ok { OnOk result (self.new ≡ self.old ++ item ∷ []) }
        ensures err { OnErr result (self.new ≡ self.old) }
        ensures room { length self.old < N → IsOk result }
        ensures full { N ≤ length self.old → IsErr result }
    {
        match self.items.try_push(item) {
            Ok(()) => Ok(()),
            Err(_) => Err(Memory),
        }
    }
}

/// The open channels of a card, at most twenty (ETSI TS 102 221 clause 8.7).
pub type ChannelList = FixedList<ChannelState, 20>;

/// The numbers of the armed changes of a card.
pub type ArmedList = FixedList<u8, 64>;

// The most files that a card can come to have: 64 of its own, and 64 of each of 64 changes.
const MOST_FILES: usize = 4160;

/// The files of a card, at most 4,160, for which the list takes the room when it is made. Contracts see the list.
#[derive(Drop)]
pub struct CardFiles {
    items: Vec<FileState>,
}

impl Model for CardFiles {
    ghost use Rattle.std.specs.Prelude.{List, ◌≤◌};
    ghost use Rattle.std.specs.Vec.{vec_capacity};
    ghost use Rattle.card_model.specs.Room.{most_files};
    ghost use Rattle.card_model.specs.declared.world.FileState.{FileState};

    ghost Value = { List FileState };

    ghost view = { λ l. l.items.items };

    ghost invariant = { λ l. most_files ≤ vec_capacity l.items };
}

impl CardFiles {
    ghost use Rattle.std.specs.Borrow.{sem};
    ghost use Rattle.card_model.specs.Lends.{lends_file};

    pub fn new(alloc: Global) -> Result<CardFiles, Memory>
        ensures { IfOk result (λ files. files ≡ []) }
    {
        Ok(CardFiles {
            items: Vec::with_capacity(alloc, MOST_FILES)?,
        })
    }

    /// The list of these files.
    pub fn from_sequence(files: Sequence<FileState>) -> Result<CardFiles, Memory>
        ensures { IfOk result (λ list. list ≡ files) }
    {
        let mut items = files.into_vec();
        items.reserve(MOST_FILES)?;
        Ok(CardFiles { items })
    }

    pub fn len(&self) -> usize
        ensures { result ≡ length self.now }
    {
        self.items.len()
    }

    pub fn as_slice(&self) -> &[FileState]
        ensures { result.now ≡ self.now }
    {
        self.items.as_slice()
    }

    pub fn get(&self, at: usize) -> Option<&FileState>
        ensures value { option_copied result ≡ slice_get self.now at }
        ensures within { OnSome result (at < length self.now) }
    {
        self.items.get(at)
    }

    /// The file at an index, for writing.
    pub fn at_mut(&mut self, at: usize) -> &mut FileState
        requires { at < length self.old }
        ensures* writes_back { sem 𝓛 (lends_file self.entry at result) }
        ensures value { result.now ≡ slice_index_or self.old at result.now }
    {
        &mut self.items[at]
    }

    /// Puts a file at the end. There is no room past 4,160.
    pub fn push(&mut self, file: FileState) -> Result<(), Memory>
        ensures ok { OnOk result (self.new ≡ self.old ++ file ∷ []) }
        ensures err { OnErr result (self.new ≡ self.old) }
        ensures room { length self.old < most_files → IsOk result }
        ensures full { most_files ≤ length self.old → IsErr result }
    {
        if self.items.len() >= MOST_FILES {
            return Err(Memory);
        }
        self.items.push(file)?;
        Ok(())
    }
}
