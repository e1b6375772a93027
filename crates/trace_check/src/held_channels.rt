// The rule of channels: at the end of a turn, while an epoch lives, the card's open channels are the basic one and those held.
ghost use Rattle.std.specs.Prelude.{◌≡◌, ◌==◌, ◌||◌, not};
ghost use Rattle.std.specs.List.{list_all, list_any};
ghost use Rattle.apdu.specs.Words.{is_one_of};
ghost use Rattle.channels.specs.Channels.{same_channels};
ghost use Rattle.rules.specs.Channels.{held_numbers, is_living_handle};
ghost use Rattle.rules.specs.Rules as rules;
ghost use Rattle.trace_check.specs.Channels as spec;

use crate::card::card_inside;
use crate::holdings::is_living;
use card_model::{CardState, ChannelState, World};
use epoch_cache::Past;
use rules::{Handle, Kept};

fn lives(history: Past, handle: &Handle) -> bool
    ensures { result ≡ is_living_handle history handle.now }
{
    is_living(history, handle.epoch)
}

fn holds(history: Past, number: u8, handle: &Handle) -> bool
    ensures { result ≡ spec.holds history number handle.now }
{
    lives(history, handle) && handle.number == number
}

fn is_held_in(history: Past, handles: &[Handle], number: u8) -> bool
    ensures { result ≡ list_any (spec.holds history number) handles.now }
{
    handles.iter().any(|handle| holds(history, number, handle))
}

/// Whether a held channel has this number.
#[tactic(auto, using(crate::proofs::Numbers::held_any))]
fn is_held(history: Past, handles: &[Handle], number: u8) -> bool
    ensures { result ≡ is_one_of number (held_numbers history handles.now) }
{
    is_held_in(history, handles, number)
}

fn has_number(number: u8, channel: &ChannelState) -> bool
    ensures { result ≡ (channel.now.number == number) }
{
    channel.number == number
}

fn is_open_in(channels: &[ChannelState], number: u8) -> bool
    ensures { result ≡ list_any (spec.has_number number) channels.now }
{
    channels.iter().any(|channel| has_number(number, channel))
}

/// Whether an open channel has this number.
#[tactic(auto, using(crate::proofs::Numbers::open_any))]
fn is_open(channels: &[ChannelState], number: u8) -> bool
    ensures { result ≡ is_one_of number (spec.numbers channels.now) }
{
    is_open_in(channels, number)
}

fn is_basic_or_held(history: Past, handles: &[Handle], channel: &ChannelState) -> bool
    ensures { result ≡ spec.is_basic_or_held (held_numbers history handles.now) channel.now }
{
    channel.number == 0 || is_held(history, handles, channel.number)
}

fn are_held(history: Past, handles: &[Handle], channels: &[ChannelState]) -> bool
    ensures { result ≡ list_all (spec.is_basic_or_held (held_numbers history handles.now))
        channels.now }
{
    channels
        .iter()
        .all(|channel| is_basic_or_held(history, handles, channel))
}

fn is_over_or_open(history: Past, channels: &[ChannelState], handle: &Handle) -> bool
    ensures { result ≡ spec.is_over_or_open history (spec.numbers channels.now) handle.now }
{
    !lives(history, handle) || is_open(channels, handle.number)
}

fn are_open(history: Past, channels: &[ChannelState], handles: &[Handle]) -> bool
    ensures { result ≡ list_all (spec.is_over_or_open history (spec.numbers channels.now))
        handles.now }
{
    handles
        .iter()
        .all(|handle| is_over_or_open(history, channels, handle))
}

/// Whether the card's open channels are the basic one and those held.
#[tactic(auto, using(crate::proofs::Numbers::all_held, crate::proofs::Numbers::all_open))]
fn are_same_channels(card: &CardState, kept: &Kept) -> bool
    ensures { result ≡ same_channels (rules.open_numbers card.now)
        (held_numbers kept.now.history kept.now.handles) }
{
    let channels = card.channels.as_slice();
    let handles = kept.handles.as_slice();
    is_open(channels, 0)
        && are_held(kept.history, handles, channels)
        && are_open(kept.history, channels, handles)
}

/// The rule of channels at the end of a turn.
pub fn are_channels_right(world: &World, kept: &Kept) -> bool
    ensures { result ≡ rules.are_channels_right world.now kept.now }
{
    if !kept.history.living {
        return true;
    }
    match card_inside(world) {
        None => false,
        Some(card) => are_same_channels(card, kept),
    }
}
