//! Runs whose each line is the one that is due: they are legal, and their turns end and move. This crate has definitions, and laws, each
//! the contract of a function that does nothing.
#![tactic(auto)]

mod endings;
mod legality;
mod progress;
mod turns;

pub use endings::{counters_are_at_most_lines, ends_are_named, ends_are_told, turns_end};
pub use legality::{due_lines_are_legal, due_lines_are_performed, finished_runs_are_legal};
pub use progress::{
    begun_operations_do_something, marks_leave_open, nobody_moves_once_finished,
    somebody_moves_until_finished, turns_that_do_not_wait_do_something,
};
pub use turns::{actors_stay_plain, turns_that_do_not_wait_move};
