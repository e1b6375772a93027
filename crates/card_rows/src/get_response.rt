// GET RESPONSE, ETSI TS 102 221 clause 11.1.25, and what waits for it.
ghost use Rattle.std.specs.Prelude.{◌≡◌, All};
ghost use Rattle.card_model.specs.GetResponse as table;
ghost use Rattle.card_model.specs.Limits.{IsFittingCard, IsFittingChange};

use crate::command::{parameters, wanted_le};
use crate::response::{answer, other_length, refused, success_word};
use apdu::{Command, Response};
use card_model::{CardState, Changes, ChannelState, Instruction, Waiting};

fn waits_on(channel: &ChannelState, waiting: &Waiting) -> bool
    ensures { result ≡ table.waits_on channel.now waiting.now }
{
    waiting.channel == channel.number
}

fn has_waiting_on(card: &CardState, channel: &ChannelState) -> bool
    ensures { result ≡ table.has_waiting_on card.now channel.now }
{
    match &card.waiting {
        Some(waiting) => waits_on(channel, waiting),
        None => false,
    }
}

/// Drops what was waiting, unless the command is GET RESPONSE on its channel.
pub fn drop_waiting(card: &mut CardState, channel: &ChannelState, row: Instruction)
    requires { IsFittingCard card.old }
    ensures fits { IsFittingCard card.new }
    ensures value { card.new ≡ table.without_waiting card.old channel.now row }
{
    if row != Instruction::GetResponse || !has_waiting_on(card, channel) {
        card.waiting = None;
    }
}

/// GET RESPONSE on a channel. Where Le is not the length, the bytes still wait.
#[tactic(auto, unfolding(card_model::specs::GetResponse::get_response_row))]
pub fn get_response_row(
    changes: &Changes,
    card: &mut CardState,
    channel: &ChannelState,
    command: &Command,
) -> Response
    requires changes { All IsFittingChange changes.now }
    requires card { IsFittingCard card.old }
    ensures fits { IsFittingCard card.new }
    ensures value { (card.new, result)
        ≡ table.get_response_row changes.now card.old channel.now command.now }
{
    if parameters(command) != 0 {
        return refused(0x6A86);
    }
    let Some(waiting) = &card.waiting else {
        return refused(0x6985);
    };
    if !waits_on(channel, waiting) {
        return refused(0x6985);
    }
    let Some(le) = wanted_le(command) else {
        return refused(0x6700);
    };
    let len = waiting.bytes.len();
    if le as usize != len {
        return other_length(len);
    }
    let response = answer(waiting.bytes.as_slice(), success_word(changes, card));
    card.waiting = None;
    response
}
