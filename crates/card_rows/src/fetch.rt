// FETCH, ETSI TS 102 221 clause 11.2.3: the change that was announced first. Its files are the caller's business.
ghost use Rattle.std.specs.Prelude.{◌≡◌, Some, All, IfSome};
ghost use Rattle.std.specs.Option.{option_copied};
ghost use Rattle.card_model.specs.Card.{first_armed as armed_first};
ghost use Rattle.card_model.specs.Toolkit as table;
ghost use Rattle.card_model.specs.Limits.{IsFittingCard, IsFittingChange};
ghost use Rattle.card_rows.specs.Fetched.{with_fetched};

use crate::command::{parameters, wanted_le};
use crate::outcome::Outcome;
use crate::response::{answer, change_command, first_armed, other_length, refused};
use apdu::Command;
use card_model::{CardState, Changes};

/// FETCH. The change leaves the list of armed ones, and a TERMINAL RESPONSE is awaited.
#[tactic(auto, unfolding(card_model::specs::Toolkit::fetch_row))]
pub fn fetch_row<'a>(changes: &'a Changes, card: &mut CardState, command: &Command) -> Outcome<'a>
    requires changes { All IsFittingChange changes.now }
    requires card { IsFittingCard card.old }
    ensures fits { IsFittingCard card.new }
    ensures files { card.new.files ≡ card.old.files }
    ensures fetched { IfSome result.fetched (λ change. Some change.now
        ≡ armed_first changes.now card.old) }
    ensures value { (with_fetched card.new (option_copied result.fetched), result.response)
        ≡ table.fetch_row changes.now card.old command.now }
{
    if parameters(command) != 0 {
        return Outcome::of(refused(0x6A86));
    }
    let Some(le) = wanted_le(command) else {
        return Outcome::of(refused(0x6700));
    };
    let Some(change) = first_armed(changes, card) else {
        return Outcome::of(refused(0x6985));
    };
    if card.awaiting {
        return Outcome::of(refused(0x6985));
    }
    let bytes = change_command(change);
    if le as usize != bytes.len() {
        return Outcome::of(other_length(bytes.len()));
    }
    card.armed.remove_first();
    card.awaiting = true;
    Outcome {
        response: answer(bytes.as_slice(), 0x9000),
        fetched: Some(change),
    }
}
