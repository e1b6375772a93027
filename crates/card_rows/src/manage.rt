// MANAGE CHANNEL, ETSI TS 102 221 clause 11.1.17.
ghost use Rattle.std.specs.Prelude.{◌≡◌, ◌<◌, length, All, IfSome};
ghost use Rattle.card_model.specs.Channels as table;
ghost use Rattle.card_model.specs.Limits.{IsFittingCard, IsFittingChange};

use crate::channel::{channel_place, fresh_channel};
use crate::command::wanted_le;
use crate::response::{answer, refused, success, success_word};
use apdu::{Command, Response};
use card_model::{CardState, Changes};

const MOST_CHANNELS: usize = 20;

fn is_open(number: u8, card: &CardState) -> bool
    ensures { result ≡ table.is_open number card.now }
{
    channel_place(number, card).is_some()
}

// The lowest number from 1 to `free` that is not open.
#[tactic(auto, using(crate::proofs::Numbers::first_closed_next))]
fn first_closed(card: &CardState) -> Option<u8>
    ensures { result ≡ table.first_closed card.now card.now.free 1 }
{
    'numbers: for at in 0..card.free {
        let number = at + 1;
        if !is_open(number, card) {
            return Some(number);
        }
    }
    None
}

fn free_number(card: &CardState) -> Option<u8>
    ensures value { result ≡ table.free_number card.now }
    ensures room { IfSome result (λ _. length card.now.channels < 20) }
{
    if card.channels.len() < MOST_CHANNELS {
        first_closed(card)
    } else {
        None
    }
}

// The channel opens with the master file selected.
fn open_number(changes: &Changes, card: &mut CardState) -> Response
    requires changes { All IsFittingChange changes.now }
    requires card { IsFittingCard card.old }
    ensures fits { IsFittingCard card.new }
    ensures value { (card.new, result)
        ≡ table.open_number changes.now card.old (table.free_number card.old) }
{
    let Some(number) = free_number(card) else {
        return refused(0x6A81);
    };
    let _ = card.channels.push(fresh_channel(number));
    answer(&[number], success_word(changes, card))
}

fn open_channel(changes: &Changes, card: &mut CardState, command: &Command) -> Response
    requires changes { All IsFittingChange changes.now }
    requires card { IsFittingCard card.old }
    ensures fits { IsFittingCard card.new }
    ensures value { (card.new, result) ≡ table.open_channel changes.now card.old command.now }
{
    if command.p2 != 0x00 {
        return refused(0x6A86);
    }
    let Some(le) = wanted_le(command) else {
        return refused(0x6700);
    };
    if le != 1 {
        return refused(0x6C01);
    }
    open_number(changes, card)
}

fn close_channel(changes: &Changes, card: &mut CardState, command: &Command) -> Response
    requires changes { All IsFittingChange changes.now }
    requires card { IsFittingCard card.old }
    ensures fits { IsFittingCard card.new }
    ensures value { (card.new, result) ≡ table.close_channel changes.now card.old command.now }
{
    if command.p2 == 0x00 {
        return refused(0x6A86);
    }
    if !command.body.is_empty() || command.le.is_some() {
        return refused(0x6700);
    }
    let Some(place) = channel_place(command.p2, card) else {
        return refused(0x6881);
    };
    card.channels.remove(place);
    success(changes, card)
}

/// MANAGE CHANNEL: P1 00 opens a channel, and P1 80 closes one.
#[tactic(auto, unfolding(card_model::specs::Channels::manage_channel_row))]
pub fn manage_channel_row(changes: &Changes, card: &mut CardState, command: &Command) -> Response
    requires changes { All IsFittingChange changes.now }
    requires card { IsFittingCard card.old }
    ensures fits { IsFittingCard card.new }
    ensures value { (card.new, result) ≡ table.manage_channel_row changes.now card.old command.now }
{
    match command.p1 {
        0x00 => open_channel(changes, card, command),
        0x80 => close_channel(changes, card, command),
        _ => refused(0x6A86),
    }
}
