// STATUS, TERMINAL PROFILE and TERMINAL RESPONSE, ETSI TS 102 221 clauses 11.1.2 and 11.2.
ghost use Rattle.std.specs.Prelude.{◌≡◌, All};
ghost use Rattle.card_model.specs.Toolkit as table;
ghost use Rattle.card_model.specs.Limits.{IsFittingCard, IsFittingChange};

use crate::command::parameters;
use crate::response::{refused, success};
use apdu::{Command, Response};
use card_model::{CardState, Changes};

/// STATUS.
#[tactic(auto, unfolding(card_model::specs::Toolkit::status_row))]
pub fn status_row(changes: &Changes, card: &CardState, command: &Command) -> Response
    requires { All IsFittingChange changes.now }
    ensures { (card.now, result) ≡ table.status_row changes.now card.now command.now }
{
    if command.p1 != 0x00 || command.p2 != 0x0C {
        return refused(0x6A86);
    }
    if !command.body.is_empty() {
        return refused(0x6700);
    }
    success(changes, card)
}

/// TERMINAL PROFILE.
#[tactic(auto, unfolding(card_model::specs::Toolkit::terminal_profile_row))]
pub fn terminal_profile_row(changes: &Changes, card: &CardState, command: &Command) -> Response
    requires { All IsFittingChange changes.now }
    ensures { (card.now, result) ≡ table.terminal_profile_row changes.now card.now command.now }
{
    if parameters(command) != 0 {
        return refused(0x6A86);
    }
    if command.body.is_empty() {
        return refused(0x6700);
    }
    success(changes, card)
}

/// TERMINAL RESPONSE, after which none is awaited.
#[tactic(auto, unfolding(card_model::specs::Toolkit::terminal_response_row))]
pub fn terminal_response_row(changes: &Changes, card: &mut CardState, command: &Command) -> Response
    requires changes { All IsFittingChange changes.now }
    requires card { IsFittingCard card.old }
    ensures fits { IsFittingCard card.new }
    ensures value { (card.new, result)
        ≡ table.terminal_response_row changes.now card.old command.now }
{
    if parameters(command) != 0 {
        return refused(0x6A86);
    }
    if !card.awaiting {
        return refused(0x6985);
    }
    if command.body.is_empty() {
        return refused(0x6700);
    }
    card.awaiting = false;
    success(changes, card)
}
