// The actors of a usual run, and the whole script.
ghost use Rattle.std.specs.Prelude.{◌≡◌, ◌<◌, ◌≤◌, ◌*◌, ◌++◌, [], ◌∷◌, IfOk, OnOk};
ghost use Rattle.script_generator.specs.Generated as spec;

use crate::book::book_rows;
use crate::draws::Draws;
use crate::files::{PIN, usual_card, usual_change};
use apdu::{Memory, Sequence, Text};
use script_reader::{
    ActorNumbers, ActorSpecs, CardSpecs, ChangeSpecs, Operation, Operations, Script,
};
use std::alloc::Global;

const RECORDS: u8 = 0;

const PHONEBOOK: u8 = 1;

const KEY: u8 = 1;

fn set(alloc: Global, at: u8, name: &str, number: &str) -> Result<Operation, Memory>
    ensures { IfOk result (λ op. op ≡ spec.set_entry at name.now number.now) }
{
    Ok(Operation::Set {
        family: PHONEBOOK,
        at: Some(at),
        name: Text::from_str(alloc, name)?,
        number: Text::from_str(alloc, number)?,
    })
}

/// Loads, and writes the first row and the last one in a session of the key.
fn writer(alloc: Global, size: u8) -> Result<Operations, Memory>
    ensures { IfOk result (λ ops. ops ≡ spec.writer size) }
{
    let mut operations = Sequence::new(alloc);
    operations.push(Operation::Insert { card: 0 })?;
    operations.push(Operation::Verify { key: KEY, pin: PIN })?;
    operations.push(Operation::Load { family: RECORDS })?;
    operations.push(Operation::Load { family: PHONEBOOK })?;
    operations.push(set(alloc, 1, "A", "+15551234")?)?;
    operations.push(set(alloc, size, "B", "1234567890123456789012")?)?;
    operations.push(Operation::Clear {
        family: PHONEBOOK,
        at: 1,
    })?;
    operations.push(Operation::End { key: KEY })?;
    Ok(operations)
}

/// Looks, and has the card announce its change.
fn watcher(alloc: Global) -> Result<Operations, Memory>
    ensures { IfOk result (λ ops. ops ≡ spec.watcher) }
{
    let mut operations = Sequence::new(alloc);
    operations.push(Operation::Look)?;
    operations.push(Operation::Load { family: PHONEBOOK })?;
    operations.push(Operation::Look)?;
    operations.push(Operation::Arm { change: 0 })?;
    operations.push(Operation::Poll)?;
    operations.push(Operation::Look)?;
    Ok(operations)
}

fn actors(alloc: Global, size: u8) -> Result<ActorSpecs, Memory>
    ensures { IfOk result (λ actors. actors ≡ spec.writer size ∷ spec.watcher ∷ []) }
{
    let mut actors = Sequence::new(alloc);
    actors.push(writer(alloc, size)?)?;
    actors.push(watcher(alloc)?)?;
    Ok(actors)
}

fn cards(alloc: Global, size: u8, draws: &mut Draws) -> Result<CardSpecs, Memory>
    ensures value { IfOk result (λ cards. cards
        ≡ spec.usual_card (spec.book_rows draws.old.state size) ∷ []) }
    ensures state { OnOk result (draws.new.state ≡ spec.behind_rows draws.old.state size) }
{
    let mut cards = Sequence::new(alloc);
    cards.push(usual_card(alloc, book_rows(alloc, size, draws)?)?)?;
    Ok(cards)
}

fn changes(alloc: Global) -> Result<ChangeSpecs, Memory>
    ensures { IfOk result (λ changes. changes ≡ spec.usual_change ∷ []) }
{
    let mut changes = Sequence::new(alloc);
    changes.push(usual_change(alloc)?)?;
    Ok(changes)
}

/// Whose turns the first are: the card is inserted and started up, and then the draws decide.
#[tactic(auto, using(crate::proofs::Rows::turns_more, crate::proofs::Rows::states_more))]
fn schedule(alloc: Global, size: u8, draws: &mut Draws) -> Result<ActorNumbers, Memory>
    ensures { IfOk result (λ turns. turns ≡ spec.schedule draws.old.state size) }
{
    let mut turns = Sequence::from_slice(alloc, &[1, 0, 0, 1])?;
    for _turn in 0..4 * size as u16 {
        turns.push((draws.draw() % 3) as u8)?;
    }
    Ok(turns)
}

/// The script of a usual run: a phonebook of so many rows, of which the seed decides half, two actors, and a schedule
/// that the seed decides.
pub fn generate(alloc: Global, seed: u32, size: u16) -> Result<Script, Memory>
    requires some { 1 ≤ size }
    requires most { size ≤ 250 }
    ensures value { IfOk result (λ script. script ≡ spec.generated seed size) }
{
    let rows = size as u8;
    let mut draws = Draws::from_seed(seed);
    Ok(Script {
        version: 1,
        cards: cards(alloc, rows, &mut draws)?,
        actors: actors(alloc, rows)?,
        changes: changes(alloc)?,
        schedule: schedule(alloc, rows, &mut draws)?,
        faults: Sequence::new(alloc),
        budget: None,
    })
}
