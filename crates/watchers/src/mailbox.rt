// What a watcher is told.
ghost use Rattle.std.specs.Prelude.{[], ◌≡◌, ◌+◌, ◌<◌, ◌^◌};
ghost use Rattle.watchers.specs.Watching as spec;

use crate::filter::wants;
use arrayvec::ArrayVec;

/// The notices of a watching actor.
#[derive(Drop)]
pub struct Mailbox {
    /// Bit f for family f, and bit 7 for an epoch's end.
    pub mask: u8,
    /// How many notices came before those that are kept.
    pub dropped: u64,
    /// The numbers of the publications, the oldest first.
    pub numbers: ArrayVec<u64, 64>,
}

impl Mailbox {
    /// An empty mailbox.
    pub fn new(mask: u8) -> Mailbox
        ensures { result ≡ record { mask = mask; dropped = 0; numbers = record { items = [] } } }
    {
        Mailbox {
            mask,
            dropped: 0,
            numbers: ArrayVec::new(),
        }
    }

    fn notice(&mut self, number: u64)
        requires { self.old.dropped + 1 < 2 ^ 64 }
        ensures { self.new ≡ spec.with_notice number self.old }
    {
        if self.numbers.is_full() {
            self.dropped += 1;
            let _ = self.numbers.remove(0);
        }
        self.numbers.push(number);
    }

    /// Notes a publication of this family, or without one that of an epoch's end, where the mask asks for it.
    pub fn offer(&mut self, family: Option<u8>, number: u64)
        requires { self.old.dropped + 1 < 2 ^ 64 }
        ensures { self.new ≡ spec.offered family number self.old }
    {
        if wants(self.mask, family) {
            self.notice(number);
        }
    }
}
