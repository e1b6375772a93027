// Laws of turns, each the contract of a function that does nothing but to call the laws that it takes.
ghost use Rattle.performed.specs.Laws.{StaysPlain, TurnsMove};

use rules::{edit_is_planned_for_card, kept_agrees};

/// An actor dropped no more notices than there were publications, has answered at most 1000 operations,
/// and holds only channels from 1 to 19.
pub fn actors_stay_plain()
    ensures { StaysPlain }
{}

/// A whole turn that neither waits nor finds nothing left adds an event, answers an operation, or publishes what was
/// stale, where the lines before it show what the slot gave.
pub fn turns_that_do_not_wait_move()
    ensures { TurnsMove }
{
    kept_agrees();
    edit_is_planned_for_card();
}
