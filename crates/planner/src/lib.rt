//! What is due next: who waits, what a turn has to do, and its next line.
#![tactic(auto)]

mod access;
mod answers;
mod commands;
mod decisions;
mod edits;
mod events;
mod fits;
mod holdings;
mod left;
mod next_line;
mod open;
mod operations;
mod work;

pub use answers::due_answer;
pub use commands::{due_command, due_publication, is_reset_due, tried_event};
pub use decisions::{decision_at_begin, decision_at_turn, work_of_operation};
pub use edits::EditPlans;
pub use events::{answer_of_refusal, due_event, slot_answer};
pub use fits::{handles_fit, turn_fits};
pub use left::{LeftRows, left_rows};
pub use next_line::{due, due_with};
pub use open::{
    has_ended, has_operations_left, has_work, is_finished, is_idle, is_quiet, is_starting, waits_on,
};
pub use operations::{begun_of, operation_at, operation_now};
pub use work::{family_read, framework_work};
