// The channels that are held, and how one is opened and closed.
ghost use Rattle.std.specs.Prelude.{◌≡◌, ◌≤◌, ◌<◌, ◌==◌, ◌∷◌, ◌++◌, [], false};
ghost use Rattle.std.specs.Prelude.{None, Some, Err, length, position, IfOk, IfSome};
ghost use Rattle.apdu.specs.Words.{is_one_of};
ghost use Rattle.channels.specs.Channels as command;
ghost use Rattle.link.specs.Exchanges.{Grows, Plays, added, exchanged, seen};
ghost use Rattle.channel_table.specs.Agreement.{AddsOpen, KeepsOpen, close_failed, open_failed};
ghost use Rattle.channel_table.specs.Opening as spec;
ghost use Rattle.channel_table.specs.declared.error.OpenError.TheVariants as fault;
ghost use Rattle.channel_table.specs.Opening.{ClosesOrFaults, OpensOrFaults};
ghost use Rattle.channel_table.specs.Values.{IsNumber, AreHeld, without};

use crate::answers::{closed, closed_again, is_fault, number_given, selected};
use crate::{Channel, CloseError, OpenError};
use arrayvec::ArrayVec;
use card_model::{Slot, Trail};
use channels::{close_command, open_command, select_application};
use link::transmit;
use std::marker::Model;

/// The channels that an application holds now, beside the basic one. Contracts see their numbers.
#[derive(Drop)]
pub struct Table {
    held: ArrayVec<u8, 19>,
}

impl Model for Table {
    ghost use Rattle.std.specs.Prelude.{List, ℕ};
    ghost use Rattle.channel_table.specs.Values.{AreHeld};

    ghost Value = { List ℕ };

    ghost view = { λ t. t.held.items };

    ghost invariant = { λ t. AreHeld t.held.items };
}

impl Table {
    pub fn new() -> Table
        ensures { result ≡ [] }
    {
        Table {
            held: ArrayVec::new(),
        }
    }

    /// The numbers of the channels held.
    pub fn numbers(&self) -> &[u8]
        ensures value { result.now ≡ self.now }
        ensures held { AreHeld result.now }
    {
        self.held.as_slice()
    }

    /// Holds no channel more. Whoever sees an epoch (a card session) begin or end calls it.
    pub fn clear(&mut self)
        ensures { self.new ≡ [] }
    {
        self.held.clear();
    }

    /// Opens a channel and selects an application there, and closes it again where that SELECT is
    /// refused.
    pub fn open_channel<S: Slot>(
        &mut self,
        slot: &mut S,
        aid: &[u8],
        epoch: u64,
        trail: &mut Trail,
    ) -> Result<Channel, OpenError>
        requires aid { length aid.now ≤ 255 }
        requires room { length trail.old ≤ 4 }
        ensures trail { Grows 12 trail.old trail.new }
        ensures sends { spec.opened epoch self.old aid.now (added trail.old trail.new)
            ≡ Some (result, []) }
        ensures slot { Plays (seen (S.world slot.old) (S.plan slot.old) (S.faults slot.old))
            (added trail.old trail.new)
            (seen (S.world slot.new) (S.plan slot.new) (S.faults slot.new)) }
        ensures cause { OpensOrFaults (S.faults slot.old) (S.faults slot.new) result }
        ensures held { self.new ≡ spec.held_with result self.old }
        ensures adds { IfOk result (λ channel.
            AddsOpen channel.number (S.world slot.old) (S.world slot.new)) }
        ensures open { open_failed result ≡ false →
            KeepsOpen (S.world slot.old) (S.world slot.new) self.old self.new }
    {
        let opened = self.open_on_card(slot, aid, epoch, trail);
        self.hold_opened(&opened);
        opened
    }

    // Opens a channel on the card, and selects an application there.
    fn open_on_card<S: Slot>(
        &self,
        slot: &mut S,
        aid: &[u8],
        epoch: u64,
        trail: &mut Trail,
    ) -> Result<Channel, OpenError>
        requires aid { length aid.now ≤ 255 }
        requires room { length trail.old ≤ 4 }
        ensures trail { Grows 12 trail.old trail.new }
        ensures sends { spec.opened epoch self.now aid.now (added trail.old trail.new)
            ≡ Some (result, []) }
        ensures slot { Plays (seen (S.world slot.old) (S.plan slot.old) (S.faults slot.old))
            (added trail.old trail.new)
            (seen (S.world slot.new) (S.plan slot.new) (S.faults slot.new)) }
        ensures cause { OpensOrFaults (S.faults slot.old) (S.faults slot.new) result }
        ensures free { IfOk result (λ channel. is_one_of channel.number self.now ≡ false) }
    {
        match self.assign(slot, trail) {
            Ok(number) => {
                let answer = select_or_close(slot, number, aid, trail);
                channel_of(number, epoch, answer)
            }
            Err(error) => Err(error),
        }
    }

    fn hold_opened(&mut self, opened: &Result<Channel, OpenError>)
        requires { IfOk opened.now (λ channel. is_one_of channel.number self.old ≡ false) }
        ensures { self.new ≡ spec.held_with opened.now self.old }
    {
        if let Ok(channel) = opened {
            self.hold(channel.number());
        }
    }

    // MANAGE CHANNEL, for the number of a channel.
    fn assign<S: Slot>(&self, slot: &mut S, trail: &mut Trail) -> Result<u8, OpenError>
        requires { length trail.old ≤ 12 }
        ensures trail { Grows 4 trail.old trail.new }
        ensures sends { spec.assigning self.now (added trail.old trail.new) ≡ Some (result, []) }
        ensures slot { Plays (seen (S.world slot.old) (S.plan slot.old) (S.faults slot.old))
            (added trail.old trail.new)
            (seen (S.world slot.new) (S.plan slot.new) (S.faults slot.new)) }
        ensures cause { OpensOrFaults (S.faults slot.old) (S.faults slot.new) result }
        ensures number { IfOk result (λ number. IsNumber number) }
        ensures free { IfOk result (λ number. is_one_of number self.now ≡ false) }
    {
        let answer = transmit(slot, &open_command(), trail);
        number_given(self.held.as_slice(), answer)
    }

    // There is room: there are nineteen numbers, and each is held once.
    fn hold(&mut self, number: u8)
        requires number { IsNumber number }
        requires free { is_one_of number self.old ≡ false }
        ensures { self.new ≡ self.old ++ number ∷ [] }
    {
        self.held.push(number);
    }

    /// Closes a channel, which is spent whatever is answered. Of an epoch that is gone nothing is
    /// sent.
    pub fn close<S: Slot>(
        &mut self,
        slot: &mut S,
        channel: Channel,
        living: Option<u64>,
        trail: &mut Trail,
    ) -> Result<(), CloseError>
        requires { length trail.old ≤ 12 }
        ensures trail { Grows 4 trail.old trail.new }
        ensures sends { spec.closing_of channel living (added trail.old trail.new)
            ≡ Some (result, []) }
        ensures slot { Plays (seen (S.world slot.old) (S.plan slot.old) (S.faults slot.old))
            (added trail.old trail.new)
            (seen (S.world slot.new) (S.plan slot.new) (S.faults slot.new)) }
        ensures cause { ClosesOrFaults (S.faults slot.old) (S.faults slot.new) result }
        ensures held { self.new ≡ spec.held_behind channel living self.old }
        ensures open { close_failed result ≡ false →
            KeepsOpen (S.world slot.old) (S.world slot.new) self.old self.new }
    {
        let number = channel.number();
        let epoch = channel.epoch();
        channel.abandon();
        if !is_living(epoch, living) {
            return Err(CloseError::EpochEnded(epoch));
        }
        self.let_go(number);
        let answer = transmit(slot, &close_command(number), trail);
        closed(answer)
    }

    // Takes a number out.
    fn let_go(&mut self, number: u8)
        ensures held { AreHeld self.old }
        ensures without { self.new ≡ without number self.old }
    {
        if let Some(place) = place_of(self.held.as_slice(), number) {
            let _ = self.held.remove(place);
        }
    }
}

fn place_of(held: &[u8], number: u8) -> Option<usize>
    ensures place { result ≡ position (λ n. n == number) held.now }
    ensures within { IfSome result (λ place. place < length held.now) }
{
    held.iter().position(|held| *held == number)
}

fn is_living(epoch: u64, living: Option<u64>) -> bool
    ensures { result ≡ spec.is_living epoch living }
{
    match living {
        None => false,
        Some(living) => living == epoch,
    }
}

// The channel of this number, where its SELECT succeeded.
fn channel_of(number: u8, epoch: u64, answer: Result<(), OpenError>) -> Result<Channel, OpenError>
    requires { IsNumber number }
    ensures value { spec.the_channel number epoch (Some (answer, [])) ≡ Some (result, []) }
    ensures number { IfOk result (λ channel. channel.number ≡ number) }
    ensures failed { result ≡ Err fault.Slot → answer ≡ Err fault.Slot }
{
    match answer {
        Ok(()) => Ok(Channel::opened(number, epoch)),
        Err(error) => Err(error),
    }
}

// SELECT of an application on a channel, which is closed where SELECT is refused.
fn select_or_close<S: Slot>(
    slot: &mut S,
    number: u8,
    aid: &[u8],
    trail: &mut Trail,
) -> Result<(), OpenError>
    requires number { IsNumber number }
    requires aid { length aid.now ≤ 255 }
    requires room { length trail.old ≤ 8 }
    ensures trail { Grows 8 trail.old trail.new }
    ensures sends { spec.selecting number aid.now (added trail.old trail.new)
        ≡ Some (result, []) }
    ensures slot { Plays (seen (S.world slot.old) (S.plan slot.old) (S.faults slot.old))
        (added trail.old trail.new)
        (seen (S.world slot.new) (S.plan slot.new) (S.faults slot.new)) }
    ensures cause { OpensOrFaults (S.faults slot.old) (S.faults slot.new) result }
{
    let answer = transmit(slot, &select_application(number, aid), trail);
    match selected(answer) {
        Ok(()) => Ok(()),
        Err(refusal) => if is_fault(refusal) {
            Err(refusal)
        } else {
            Err(close_again(slot, number, refusal, trail))
        },
    }
}

// Closes a channel whose SELECT was refused, and tells why none was opened.
fn close_again<S: Slot>(
    slot: &mut S,
    number: u8,
    refusal: OpenError,
    trail: &mut Trail,
) -> OpenError
    requires refused { spec.is_fault refusal ≡ false }
    requires room { length trail.old ≤ 12 }
    ensures trail { Grows 4 trail.old trail.new }
    ensures sends { spec.behind_refusal refusal
        (exchanged (command.close_command number) None (added trail.old trail.new))
        ≡ Some (Err result, []) }
    ensures slot { Plays (seen (S.world slot.old) (S.plan slot.old) (S.faults slot.old))
        (added trail.old trail.new)
        (seen (S.world slot.new) (S.plan slot.new) (S.faults slot.new)) }
    ensures cause { OpensOrFaults {T = Unit {0}}
        (S.faults slot.old) (S.faults slot.new) (Err result) }
{
    closed_again(refusal, transmit(slot, &close_command(number), trail))
}
