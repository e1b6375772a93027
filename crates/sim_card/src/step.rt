// A command in the world, and the reset of the card in the slot.
ghost use Rattle.std.specs.Prelude.{◌≡◌, slice_get, is_some, All};
ghost use Rattle.apdu.specs.Apdu.{refusal};
ghost use Rattle.card_model.specs.Step as table;
ghost use Rattle.card_model.specs.Limits.{IsFittingWorld};
ghost use Rattle.sim_card.specs.Spares.{IsStockedWorld};

use crate::fetch::on_stocked_card;
use crate::spares::Spares;
use apdu::{Command, Response, Sw};
use arrayvec::ArrayVec;
use card_model::World;
use card_rows::reset_card;

/// Whether the slot holds a card.
pub fn holds_card(world: &World) -> bool
    ensures { result ≡ is_some (table.card_inside world.now) }
{
    match world.inside {
        Some(place) => world.cards.get(place as usize).is_some(),
        None => false,
    }
}

// What an empty slot answers.
fn nothing() -> Response
    ensures { result ≡ refusal 0 }
{
    Response {
        body: ArrayVec::new(),
        sw: Sw(0),
    }
}

#[tactic(auto, using(crate::proofs::Worlds::spares_count, crate::proofs::Worlds::stocked_with))]
fn step_of_card(world: &mut World, spares: &mut Spares, place: u8, command: &Command) -> Response
    requires world { IsFittingWorld world.old }
    requires stocked { IsStockedWorld world.old spares.old }
    ensures fits { IsFittingWorld world.new }
    ensures stocked { IsStockedWorld world.new spares.new }
    ensures value { (world.new, result)
        ≡ table.step_of_card world.old place (slice_get world.old.cards place) command.now }
{
    if place as usize >= world.cards.len() {
        return nothing();
    }
    let place = place as usize;
    on_stocked_card(
        &world.changes,
        world.cards.at_mut(place),
        spares.at_mut(place),
        command,
    )
}

/// The command's step; on an empty slot the world stays, and the response says nothing.
#[tactic(auto, unfolding(card_model::specs::Step::step))]
pub fn step(world: &mut World, spares: &mut Spares, command: &Command) -> Response
    requires world { IsFittingWorld world.old }
    requires stocked { IsStockedWorld world.old spares.old }
    ensures fits { IsFittingWorld world.new }
    ensures stocked { IsStockedWorld world.new spares.new }
    ensures value { (world.new, result) ≡ table.step world.old command.now }
{
    match world.inside {
        Some(place) => step_of_card(world, spares, place, command),
        None => nothing(),
    }
}

/// Puts the card at a place in, and resets it, where there is one.
pub fn insert(world: &mut World, place: u8)
    requires { IsFittingWorld world.old }
    ensures fits { IsFittingWorld world.new }
    ensures value { world.new ≡ table.inserted world.old place (slice_get world.old.cards place) }
{
    if (place as usize) < world.cards.len() {
        reset_card(world.cards.at_mut(place as usize));
        world.inside = Some(place);
    }
}

/// Resets the card in the slot.
#[tactic(auto, unfolding(card_model::specs::Step::after_reset))]
pub fn reset(world: &mut World)
    requires { IsFittingWorld world.old }
    ensures fits { IsFittingWorld world.new }
    ensures value { world.new ≡ table.after_reset world.old }
{
    if let Some(place) = world.inside {
        insert(world, place);
    }
}
