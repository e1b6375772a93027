// VERIFY, ETSI TS 102 221 clause 11.1.9.
ghost use Rattle.std.specs.Prelude.{◌≡◌, ◌<◌, Some, length, slice_get, All};
ghost use Rattle.card_model.specs.Verify as table;
ghost use Rattle.card_model.specs.Limits.{IsFittingCard, IsFittingChange};

use crate::access::key_place;
use crate::response::{refused, success};
use apdu::{Command, Response};
use card_model::{CardState, Changes, PinState};

// The right PIN gives the tries back, and a wrong one takes a try.
fn verify_found(
    changes: &Changes,
    card: &mut CardState,
    place: usize,
    key: PinState,
    command: &Command,
) -> Response
    requires changes { All IsFittingChange changes.now }
    requires card { IsFittingCard card.old }
    requires place { place < length card.old.keys }
    ensures fits { IsFittingCard card.new }
    ensures value { (card.new, result)
        ≡ table.verify_found changes.now card.old command.now place (Some key) }
{
    if command.body.len() != 8 {
        return refused(0x6700);
    }
    if key.tries == 0 {
        return refused(0x6983);
    }
    if command.body.as_slice() == key.secret.as_slice() {
        let right = PinState {
            tries: key.max,
            verified: true,
            ..key
        };
        card.keys.set(place, right);
        return success(changes, card);
    }
    let left = key.tries - 1;
    let wrong = PinState {
        tries: left,
        verified: false,
        ..key
    };
    card.keys.set(place, wrong);
    refused(0x63C0 + left as u16)
}

fn verify_at(changes: &Changes, card: &mut CardState, place: usize, command: &Command) -> Response
    requires changes { All IsFittingChange changes.now }
    requires card { IsFittingCard card.old }
    requires place { place < length card.old.keys }
    ensures fits { IsFittingCard card.new }
    ensures value { (card.new, result)
        ≡ table.verify_found changes.now card.old command.now place
        (slice_get card.old.keys place) }
{
    let key = match card.keys.get(place) {
        Some(key) => *key,
        None => return refused(0x6A86),
    };
    verify_found(changes, card, place, key, command)
}

/// VERIFY.
#[tactic(auto, unfolding(card_model::specs::Verify::verify_row))]
pub fn verify_row(changes: &Changes, card: &mut CardState, command: &Command) -> Response
    requires changes { All IsFittingChange changes.now }
    requires card { IsFittingCard card.old }
    ensures fits { IsFittingCard card.new }
    ensures value { (card.new, result) ≡ table.verify_row changes.now card.old command.now }
{
    if command.p1 != 0x00 {
        return refused(0x6A86);
    }
    let Some(place) = key_place(command.p2, card) else {
        return refused(0x6A86);
    };
    verify_at(changes, card, place, command)
}
