// The events of a run.
ghost use Rattle.std.specs.Prelude.{◌≡◌, ◌+◌, ◌<◌, ◌≤◌, ◌∷◌, [], length, option_map, IsOk, OnOk, OnErr};
ghost use Rattle.epoch_cache.specs.Past.{event_bytes, past_of};

use crate::store::{Entry, store};
use crate::{Event, Past};
use apdu::{Memory, Reserved, Sw};
use std::alloc::Global;
use std::marker::Model;

/// The events of a run. Each keeps the bytes of its command and its response as they are written. Contracts see the events, newest first,
/// and how many events and bytes more it takes without asking for memory.
#[derive(Drop)]
pub struct History {
    entries: Reserved<Entry>,
    bytes: Reserved<u8>,
    past: Past,
    spare_events: usize,
    spare_bytes: usize,
}

impl Model for History {
    ghost use Rattle.epoch_cache.specs.Store.{HistoryValue, history_events, IsHistory};

    ghost Value = { HistoryValue };

    ghost view = { λ h. record { events = history_events h.entries.items h.bytes.items; spare_events = h.spare_events; spare_bytes = h.spare_bytes } };

    ghost invariant = { λ h. IsHistory h.entries h.bytes h.past h.spare_events h.spare_bytes };
}

impl History {
    pub fn new(alloc: Global) -> History
        ensures { result ≡ record { events = []; spare_events = 0; spare_bytes = 0 } }
    {
        History {
            entries: Reserved::new(alloc),
            bytes: Reserved::new(alloc),
            past: Past::new(),
            spare_events: 0,
            spare_bytes: 0,
        }
    }

    /// Makes room for so many more events, which have so many bytes when they are written.
    pub fn reserve(&mut self, events: usize, bytes: usize) -> Result<(), Memory>
        ensures same { self.new.events ≡ self.old.events }
        ensures events { OnOk result (events ≤ self.new.spare_events) }
        ensures bytes { OnOk result (bytes ≤ self.new.spare_bytes) }
        ensures err { OnErr result (self.new ≡ self.old) }
        ensures room { events ≤ self.old.spare_events → bytes ≤ self.old.spare_bytes
            → IsOk result }
    {
        self.entries.reserve(events)?;
        self.bytes.reserve(bytes)?;
        self.spare_events = self.spare_events.max(events);
        self.spare_bytes = self.spare_bytes.max(bytes);
        Ok(())
    }

    /// Puts an event behind the others, within the room.
    pub fn push(&mut self, event: &Event)
        requires event { 0 < self.old.spare_events }
        requires bytes { length (event_bytes event.now) ≤ self.old.spare_bytes }
        ensures events { self.new.events ≡ event.now ∷ self.old.events }
        ensures spare_events { self.new.spare_events + 1 ≡ self.old.spare_events }
        ensures spare_bytes { self.new.spare_bytes + length (event_bytes event.now)
            ≡ self.old.spare_bytes }
    {
        let before = self.bytes.len();
        let entry = store(event, &mut self.bytes);
        self.spare_bytes -= self.bytes.len() - before;
        self.entries.push_within(entry);
        self.spare_events -= 1;
        let _count = self.entries.len();
        self.past = self.past.after(event);
    }

    /// What is kept of the events.
    pub fn past(&self) -> Past
        ensures { result ≡ past_of self.now.events }
    {
        self.past
    }

    /// How many events there were.
    pub fn len(&self) -> u64
        ensures { result ≡ length self.now.events }
    {
        self.past.events
    }

    /// The number of the last epoch that began.
    pub fn epoch(&self) -> u64
        ensures { result ≡ (past_of self.now.events).epoch }
    {
        self.past.epoch
    }

    /// Whether that epoch lives.
    pub fn living(&self) -> bool
        ensures { result ≡ (past_of self.now.events).living }
    {
        self.past.living
    }

    /// The last status 91XX of the living epoch since its last FETCH.
    pub fn announced(&self) -> Option<Sw>
        ensures { option_map (λ sw. sw.0) result
            ≡ option_map (λ low. 0x9100 + low) (past_of self.now.events).announced }
    {
        self.past.announced.map(|low| Sw(0x9100 + low as u16))
    }

    /// Whether the card is to be reset, since an exchange failed.
    pub fn owes_reset(&self) -> bool
        ensures { result ≡ (past_of self.now.events).owes_reset }
    {
        self.past.owes_reset
    }
}
