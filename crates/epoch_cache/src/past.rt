// The events of a run and its epochs.
ghost use Rattle.std.specs.Prelude.{◌≡◌, ◌+◌, ◌<◌, ◌^◌};
ghost use Rattle.epoch_cache.specs.Past as spec;

use crate::Event;
use apdu::{Command, Response};
use card_model::{SlotFault, WorldEvent};

const FETCH: u8 = 0x12;

/// How many events there were, and which epoch lives.
#[derive(Clone, Copy)]
pub struct Past {
    /// How many events there were.
    pub events: u64,
    /// How many calls of the slot there were.
    pub calls: u64,
    /// The number of the last epoch that began.
    pub epoch: u64,
    /// That epoch lives.
    pub living: bool,
    /// The card is to be reset, since an exchange failed.
    pub owes_reset: bool,
    /// The second byte of the status 91XX that announced a command which was not fetched yet.
    pub announced: Option<u8>,
}

/// One more, where the test holds.
fn counted(test: bool, count: u64) -> u64
    requires { count + 1 < 2 ^ 64 }
    ensures { result ≡ spec.counted test count }
{
    if test { count + 1 } else { count }
}

/// What is announced behind an exchange that was answered.
pub fn announced_after(command: &Command, response: &Response, before: Option<u8>) -> Option<u8>
    ensures { result ≡ spec.announced_after command.now response.now before }
{
    if command.ins == FETCH {
        None
    } else if response.sw.0 / 256 == 0x91 {
        Some((response.sw.0 % 256) as u8)
    } else {
        before
    }
}

fn announced_by(
    command: &Command,
    outcome: &Result<Response, SlotFault>,
    before: Option<u8>,
) -> Option<u8>
    ensures { result ≡ spec.announced_by command.now outcome.now before }
{
    match outcome {
        Ok(response) => announced_after(command, response, before),
        Err(_) => None,
    }
}

fn is_insertion(event: WorldEvent) -> bool
    ensures { result ≡ spec.is_insertion event }
{
    matches!(event, WorldEvent::Insert(_))
}

fn is_removal(event: WorldEvent) -> bool
    ensures { result ≡ spec.is_removal event }
{
    matches!(event, WorldEvent::Out)
}

impl Event {
    /// Whether it is a call of the slot.
    pub fn is_call(&self) -> bool
        ensures { result ≡ spec.is_call self.now }
    {
        match self {
            Event::Exchange { .. } | Event::Reset { .. } => true,
            Event::World { .. } => false,
        }
    }

    /// Whether an epoch begins with it: an insertion, or a reset that was done.
    pub fn begins_epoch(&self) -> bool
        ensures { result ≡ spec.begins_epoch self.now }
    {
        match self {
            Event::Exchange { .. } => false,
            Event::Reset { ok, .. } => *ok,
            Event::World { event, .. } => is_insertion(*event),
        }
    }

    pub fn is_failed_exchange(&self) -> bool
        ensures { result ≡ spec.is_failed_exchange self.now }
    {
        match self {
            Event::Exchange { step, .. } => step.outcome.is_err(),
            Event::Reset { .. } | Event::World { .. } => false,
        }
    }

    /// Whether no epoch lives behind it: a removal, a failed exchange or a failed reset.
    pub fn stops_epoch(&self) -> bool
        ensures { result ≡ spec.stops_epoch self.now }
    {
        match self {
            Event::Exchange { step, .. } => step.outcome.is_err(),
            Event::Reset { ok, .. } => !*ok,
            Event::World { event, .. } => is_removal(*event),
        }
    }

    fn announced(&self, before: Option<u8>) -> Option<u8>
        ensures { result ≡ spec.announced_behind self.now before }
    {
        match self {
            Event::Exchange { step, .. } => announced_by(&step.command, &step.outcome, before),
            Event::Reset { .. } => None,
            Event::World { event, .. } => {
                if is_insertion(*event) || is_removal(*event) {
                    None
                } else {
                    before
                }
            }
        }
    }
}

impl Past {
    /// Before the first event.
    pub fn new() -> Past
        ensures { result ≡ spec.first_past }
    {
        Past {
            events: 0,
            calls: 0,
            epoch: 0,
            living: false,
            owes_reset: false,
            announced: None,
        }
    }

    /// Behind one more event.
    pub fn after(self, event: &Event) -> Past
        requires events { self.events + 1 < 2 ^ 64 }
        requires calls { self.calls + 1 < 2 ^ 64 }
        requires epoch { self.epoch + 1 < 2 ^ 64 }
        ensures { result ≡ spec.past_after event.now self }
    {
        let begins = event.begins_epoch();
        let stops = event.stops_epoch();
        Past {
            events: self.events + 1,
            calls: counted(event.is_call(), self.calls),
            epoch: counted(begins, self.epoch),
            living: begins || !stops && self.living,
            owes_reset: event.is_failed_exchange() || !(begins || stops) && self.owes_reset,
            announced: event.announced(self.announced),
        }
    }
}
