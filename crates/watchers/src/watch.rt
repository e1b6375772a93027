// The notices of a watching actor.
ghost use Rattle.std.specs.Prelude.{[], ◌≡◌, ◌+◌, ◌<◌, ◌≤◌, ◌^◌, length, slice_get, IfOk, true};
ghost use Rattle.watchers.specs.Watches as spec;
ghost use Rattle.watchers.specs.Watching.{mailbox_len};

use crate::filter::{Filter, Notice};
use apdu::{Memory, Sequence};
use arrayvec::ArrayVec;
use circular_buffer::HeapCircularBuffer;
use std::alloc::Global;
use std::marker::Model;

/// A mailbox holds so many notices.
const MAILBOX_LEN: usize = 64;

/// The notices that a filter wants: the last 64 that were offered, and how many came before them.
#[derive(Drop)]
pub struct Watch<P: Filter> {
    filter: P,
    dropped: u64,
    notices: HeapCircularBuffer<Notice>,
}

/// Watches in the order of their operations in a script.
pub type WatchList<P> = Sequence<Watch<P>>;

impl<P: Filter> Model for Watch<P> {
    ghost use Rattle.watchers.specs.Watches.{WatchValue};

    ghost Value = { WatchValue };

    ghost view = { λ w. record {
      mask = P.Filter.mask w.filter;
      dropped = w.dropped;
      notices = w.notices.items;
    } };

    ghost use Rattle.watchers.specs.Watches.{IsMailbox};

    ghost invariant = { λ w. IsMailbox w.notices };
}

impl<P: Filter + Drop> Watch<P> {
    /// A watch to which nothing was offered.
    pub fn new(alloc: Global, filter: P) -> Result<Watch<P>, Memory>
        ensures { IfOk result (λ w. w ≡ spec.nothing_noticed (P.Filter.mask filter)) }
    {
        let notices = HeapCircularBuffer::with_capacity(alloc, MAILBOX_LEN)?;
        Ok(Watch {
            filter,
            dropped: 0,
            notices,
        })
    }

    /// Forgets all notices.
    pub fn clear(&mut self)
        ensures { self.new ≡ spec.nothing_noticed self.old.mask }
    {
        self.notices.clear();
        self.dropped = 0;
    }

    /// Keeps a notice that the filter wants.
    pub fn offer(&mut self, notice: &Notice)
        requires { self.old.dropped + 1 < 2 ^ 64 }
        ensures { self.new ≡ spec.told notice.now self.old }
    {
        if self.filter.wants(notice) {
            if self.notices.is_full() {
                self.dropped += 1;
            }
            self.notices.push_back(*notice);
        }
    }

    /// How many wanted notices came before those that are kept.
    pub fn dropped(&self) -> u64
        ensures { result ≡ self.now.dropped }
    {
        self.dropped
    }

    /// How many notices are kept.
    pub fn len(&self) -> usize
        ensures value { result ≡ length self.now.notices }
        ensures within { result ≤ mailbox_len }
    {
        self.notices.len()
    }

    /// The numbers of the notices that are kept, the oldest first.
    pub fn numbers(&self) -> ArrayVec<u64, 64>
        ensures { result ≡ (spec.mailbox_of self.now).numbers }
    {
        let mut numbers = ArrayVec::new();
        for at in 0..self.notices.len() {
            match self.notices.get(at) {
                None => unreachable!(),
                Some(notice) => numbers.push(notice.number),
            }
        }
        numbers
    }

    /// The notice of this index; 0 is the oldest that is kept.
    pub fn item(&self, at: usize) -> Option<Notice>
        ensures { result ≡ slice_get self.now.notices at }
    {
        self.notices.get(at).copied()
    }
}
