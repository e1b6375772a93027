// Events of the world, and their refusals by the slot.
ghost use Rattle.std.specs.Prelude.{◌≡◌, is_some, option_map, length};
ghost use Rattle.card_model.specs.Slot as slots;
ghost use Rattle.card_model.specs.Step.{card_inside as card_in};
ghost use Rattle.rules.specs.Due as rules;
ghost use Rattle.std.specs.Option.{option_copied};

use crate::commands::tried_event;
use card_model::{CardState, World, WorldEvent, WorldRefusal};
use report::Answer;
use rules::Kept;

fn card_inside(world: &World) -> Option<&CardState>
    ensures { option_copied result ≡ card_in world.now }
{
    match world.inside {
        None => None,
        Some(place) => world.cards.get(place as usize),
    }
}

fn arm_refusal(world: &World, change: u8) -> Option<WorldRefusal>
    ensures { result ≡ slots.refusal_of world.now (WorldEvent.Arm change) }
{
    if change as usize >= world.changes.len() {
        return Some(WorldRefusal::NoChange(change));
    }
    match card_inside(world) {
        None => Some(WorldRefusal::SlotEmpty),
        Some(card) => {
            if card.armed.len() < 64 {
                None
            } else {
                Some(WorldRefusal::ArmFull)
            }
        }
    }
}

fn insert_refusal(world: &World, card: u8) -> Option<WorldRefusal>
    ensures { result ≡ slots.refusal_of world.now (WorldEvent.Insert card) }
{
    if card as usize >= world.cards.len() {
        Some(WorldRefusal::NoImage(card))
    } else if card_inside(world).is_some() {
        Some(WorldRefusal::SlotFull)
    } else {
        None
    }
}

fn refusal_of(world: &World, event: WorldEvent) -> Option<WorldRefusal>
    ensures { result ≡ slots.refusal_of world.now event }
{
    match event {
        WorldEvent::Arm(change) => arm_refusal(world, change),
        WorldEvent::Insert(card) => insert_refusal(world, card),
        WorldEvent::Out => {
            if card_inside(world).is_some() {
                None
            } else {
                Some(WorldRefusal::SlotEmpty)
            }
        }
    }
}

/// The answer to an operation whose event the slot refuses. A script that was read names no card and
/// no change that there is not.
pub fn answer_of_refusal(refusal: WorldRefusal) -> Option<Answer>
    ensures { result ≡ rules.answer_of_refusal refusal }
{
    match refusal {
        WorldRefusal::SlotEmpty => Some(Answer::SlotEmpty),
        WorldRefusal::SlotFull => Some(Answer::SlotFull),
        WorldRefusal::ArmFull => Some(Answer::ArmFull),
        WorldRefusal::NoImage(_) | WorldRefusal::NoChange(_) => None,
    }
}

/// The event of the world that happens next in the turn.
pub fn due_event(world: &World, kept: &Kept) -> Option<WorldEvent>
    ensures { result ≡ rules.due_event world.now kept.now }
{
    let event = tried_event(kept)?;
    match refusal_of(world, event) {
        None => Some(event),
        Some(_) => None,
    }
}

/// The answer that the slot gives to the event which the turn tries next.
pub fn slot_answer(world: &World, kept: &Kept) -> Option<Answer>
    ensures { result ≡ rules.slot_answer world.now kept.now }
{
    answer_of_refusal(refusal_of(world, tried_event(kept)?)?)
}
