// Whether the commands that are due can be written.
ghost use Rattle.std.specs.Prelude.{◌≡◌, ◌∷◌, []};
ghost use Rattle.std.specs.List.{list_all};
ghost use Rattle.std.specs.Option.{option_copied};
ghost use Rattle.families.specs.Plans.{plan_updates, some_first};
ghost use Rattle.planner.specs.Room as room;

use crate::operations::begun_of;
use adn::{Plan, RowUpdate};
use editor::Attempt;
use rules::{Begun, Handle, Handles, Kept};

const HIGHEST_CHANNEL: u8 = 19;

const LONGEST_BODY: usize = 255;

fn handle_fits(held: &Handle) -> bool
    ensures { result ≡ room.handle_fits held.now }
{
    held.number <= HIGHEST_CHANNEL
}

/// Whether each number is that of a logical channel.
pub fn handles_fit(handles: &Handles) -> bool
    ensures { result ≡ room.handles_fit handles.now }
{
    handles.as_slice().iter().all(|held| handle_fits(held))
}

fn update_fits(update: &RowUpdate) -> bool
    ensures { result ≡ room.update_fits update.now }
{
    update.bytes.as_slice().len() <= LONGEST_BODY
}

fn last_fits(update: &Option<RowUpdate>) -> bool
    ensures { result ≡ list_all room.update_fits (some_first update.now []) }
{
    match update {
        None => true,
        Some(update) => update_fits(update),
    }
}

fn deciding_fits(plan: &Plan) -> bool
    ensures { result
        ≡ list_all room.update_fits (plan.now.deciding ∷ some_first plan.now.after []) }
{
    update_fits(&plan.deciding) && last_fits(&plan.after)
}

fn updates_fit(plan: &Plan) -> bool
    ensures { result ≡ list_all room.update_fits (plan_updates plan.now) }
{
    match &plan.before {
        None => deciding_fits(plan),
        Some(before) => update_fits(before) && deciding_fits(plan),
    }
}

fn attempt_fits(attempt: &Option<Attempt>) -> bool
    ensures { result ≡ room.attempt_fits attempt.now }
{
    match attempt {
        None => true,
        Some(attempt) => updates_fit(&attempt.plan),
    }
}

fn begun_fits(begun: Option<&Begun>) -> bool
    ensures { result ≡ room.begun_fits (option_copied begun.entry) }
{
    match begun {
        None => true,
        Some(begun) => attempt_fits(&begun.editing.attempt),
    }
}

/// Whether the bytes of each update fit into a command, of the actor whose turn it is.
pub fn turn_fits(kept: &Kept) -> bool
    ensures { result ≡ room.turn_fits kept.now.turn.actor kept.now.jobs }
{
    match kept.turn.actor {
        None => true,
        Some(actor) => begun_fits(begun_of(actor, &kept.jobs)),
    }
}
