// World events: a change is armed, and cards go out and in.
ghost use Rattle.std.specs.Prelude.{◌≡◌, true, Some, OnOk, OnErr};
ghost use Rattle.card_model.specs.Step as table;
ghost use Rattle.card_model.specs.Slot as slots;
ghost use Rattle.card_model.specs.Limits.{IsFittingCard, IsFittingWorld};

use crate::step::{holds_card, insert};
use card_model::{CardState, World, WorldEvent, WorldRefusal};

// The change of this number joins the armed ones.
fn arm_card(card: &mut CardState, change: u8) -> Result<(), WorldRefusal>
    requires { IsFittingCard card.old }
    ensures fits { IsFittingCard card.new }
    ensures refused { slots.IsResultOf (slots.arm_refusal true
        (slots.armed_count (Some card.old)) change) result }
    ensures ok { OnOk result (card.new ≡ table.armed_card change card.old) }
    ensures err { OnErr result (card.new ≡ card.old) }
{
    if card.armed.len() >= 64 {
        return Err(WorldRefusal::ArmFull);
    }
    let _ = card.armed.push(change);
    Ok(())
}

fn arm(world: &mut World, change: u8) -> Result<(), WorldRefusal>
    requires { IsFittingWorld world.old }
    ensures fits { IsFittingWorld world.new }
    ensures refused { slots.IsResultOf (slots.refusal_of world.old (WorldEvent.Arm change)) result }
    ensures ok { OnOk result (world.new ≡ table.armed_in world.old change world.old.inside) }
    ensures err { OnErr result (world.new ≡ world.old) }
{
    if change as usize >= world.changes.len() {
        return Err(WorldRefusal::NoChange(change));
    }
    let Some(place) = world.inside else {
        return Err(WorldRefusal::SlotEmpty);
    };
    if place as usize >= world.cards.len() {
        return Err(WorldRefusal::SlotEmpty);
    }
    arm_card(world.cards.at_mut(place as usize), change)
}

/// Makes a world event happen.
#[tactic(auto, unfolding(card_model::specs::Step::after_event))]
pub fn apply_event(world: &mut World, event: &WorldEvent) -> Result<(), WorldRefusal>
    requires { IsFittingWorld world.old }
    ensures fits { IsFittingWorld world.new }
    ensures refused { slots.IsResultOf (slots.refusal_of world.old event.now) result }
    ensures ok { OnOk result (world.new ≡ table.after_event world.old event.now) }
    ensures err { OnErr result (world.new ≡ world.old) }
{
    match event {
        WorldEvent::Arm(change) => arm(world, *change),
        WorldEvent::Out => {
            if !holds_card(world) {
                return Err(WorldRefusal::SlotEmpty);
            }
            world.inside = None;
            Ok(())
        }
        WorldEvent::Insert(place) => {
            if *place as usize >= world.cards.len() {
                return Err(WorldRefusal::NoImage(*place));
            }
            if holds_card(world) {
                return Err(WorldRefusal::SlotFull);
            }
            insert(world, *place);
            Ok(())
        }
    }
}
