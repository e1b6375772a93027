// Laws of what a turn has to do, each the contract of a function that does nothing but to call the laws that it takes.
ghost use Rattle.performed.specs.Laws.{BeginsMove, MarksLeaveOpen, MarksMove, NobodyMoves, SomebodyMoves};

use rules::{edit_is_planned_for_card, kept_agrees};

/// A mark leaves open what is open: it adds no event, answers nothing, and publishes nothing.
pub fn marks_leave_open()
    ensures { MarksLeaveOpen }
{}

/// Once the run is finished, nobody's turn would move.
pub fn nobody_moves_once_finished()
    ensures { NobodyMoves }
{}

/// While the run is not finished, there is somebody whose turn would move.
pub fn somebody_moves_until_finished()
    ensures { SomebodyMoves }
{}

/// A turn that neither waits nor finds nothing left has something to do, where the lines before it show what the slot
/// gave.
pub fn turns_that_do_not_wait_do_something()
    ensures { MarksMove }
{
    kept_agrees();
    edit_is_planned_for_card();
}

/// So has a turn that begins an operation, also behind its first line.
pub fn begun_operations_do_something()
    ensures { BeginsMove }
{}
