// The reset of a card.
ghost use Rattle.std.specs.Prelude.{◌≡◌, map};
ghost use Rattle.card_model.specs.Step as table;
ghost use Rattle.card_model.specs.Limits.{IsFittingCard};

use crate::channel::fresh_channel;
use card_model::{CardState, KeyList};

fn forget_keys(keys: &mut KeyList)
    ensures { keys.new ≡ map table.unverified keys.old }
{
    'keys: for at in 0..keys.len() {
        keys.at_mut(at).verified = false;
    }
}

/// Resets a card: the basic channel alone is open, no key is verified, nothing is awaited or waiting.
pub fn reset_card(card: &mut CardState)
    requires { IsFittingCard card.old }
    ensures fits { IsFittingCard card.new }
    ensures value { card.new ≡ table.reset_card card.old }
{
    card.channels.clear();
    let _ = card.channels.push(fresh_channel(0));
    forget_keys(&mut card.keys);
    card.awaiting = false;
    card.waiting = None;
}
