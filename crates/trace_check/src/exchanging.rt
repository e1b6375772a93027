// What lines do to the simulated card; no call is planned to fail.
ghost use Rattle.std.specs.Prelude.{◌≡◌, [], true, false, is_some, IfSome, IfNone};
ghost use Rattle.card_model.specs.Slot.{refusal_of};
ghost use Rattle.card_model.specs.Step.{card_inside as card_in, step, after_reset, after_event};
ghost use Rattle.rules.specs.Rules.{is_response_right, world_failed};
ghost use Rattle.trace_check.specs.Exchanging.{IsAnswered};

use crate::same::same_response;
use apdu::{Command, Response};
use card_model::{ScriptedSlot, Slot, WorldEvent};
use sim_card::SimSlot;

/// What the card answers, if there is one in the slot.
#[tactic(auto, using(crate::proofs::NoCard::no_card))]
pub fn answer(slot: &mut SimSlot, command: &Command) -> Option<Response>
    requires { slot.old.plan.faults ≡ [] }
    ensures some { IfSome result (IsAnswered slot.old.world slot.new.world command.now) }
    ensures none { IfNone result (is_some (card_in slot.old.world) ≡ false) }
    ensures faults { slot.new.plan.faults ≡ [] }
{
    match slot.exchange(command) {
        Ok(response) => Some(response),
        Err(_) => None,
    }
}

/// The rule of responses at an exchange: whether there is a card, which answers so.
#[tactic(auto, using(crate::proofs::NoCard::never_right))]
pub fn is_answered_with(slot: &mut SimSlot, command: &Command, response: &Response) -> bool
    requires { slot.old.plan.faults ≡ [] }
    ensures value { result ≡ is_response_right slot.old.world command.now response.now }
    ensures world { result ≡ true → slot.new.world ≡ (step slot.old.world command.now).0 }
    ensures faults { slot.new.plan.faults ≡ [] }
{
    match answer(slot, command) {
        None => false,
        Some(given) => same_response(response, &given),
    }
}

/// The card has the command where it acted, and its answer is lost.
pub fn lose(slot: &mut SimSlot, command: &Command, acted: bool)
    requires faults { slot.old.plan.faults ≡ [] }
    requires inside { is_some (card_in slot.old.world) ≡ true }
    ensures world { slot.new.world ≡ world_failed slot.old.world command.now acted }
    ensures faults { slot.new.plan.faults ≡ [] }
{
    if acted {
        match answer(slot, command) {
            Some(_) => {}
            None => unreachable!(),
        }
    }
}

/// Resets the card, if there is one in the slot.
pub fn reset(slot: &mut SimSlot)
    requires { slot.old.plan.faults ≡ [] }
    ensures world { slot.new.world ≡ after_reset slot.old.world }
    ensures faults { slot.new.plan.faults ≡ [] }
{
    let _ = slot.reset();
}

/// An event of the world, which the slot does not refuse.
pub fn happen(slot: &mut SimSlot, event: &WorldEvent)
    requires { is_some (refusal_of slot.old.world event.now) ≡ false }
    ensures world { slot.new.world ≡ after_event slot.old.world event.now }
    ensures plan { slot.new.plan ≡ slot.old.plan }
{
    let _ = slot.world(event);
}
