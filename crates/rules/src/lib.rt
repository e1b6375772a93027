//! What the lines of a report say, what is due behind them, and the rules that make a report legal. This crate has types and
//! definitions, and laws of them, each the contract of a function that does nothing.
#![tactic(auto)]

mod due;
mod holdings;
mod judging;
mod kept;
mod laws;
mod standing;

pub use due::Due;
pub use holdings::{Handle, Handles, Session, Sessions};
pub use judging::{
    judges_broken_answers, judges_broken_channels, judges_broken_edits, judges_broken_ending,
    judges_broken_faults, judges_broken_responses, judges_broken_rest, judges_broken_snapshots,
    judges_broken_turns, judges_broken_verifications, judges_worked_channels, judges_worked_edits,
    judges_worked_faults, judges_worked_loads, judges_worked_notices, judges_worked_refreshes,
    judges_worked_runs, judges_worked_slots, performs_worked_channels, performs_worked_edits,
    performs_worked_faults, performs_worked_loads, performs_worked_notices,
    performs_worked_refreshes, performs_worked_slots,
};
pub use kept::{Begun, Decision, Facts, Job, Jobs, Kept, Outcome, Stage, Turn, Work};
pub use laws::{
    due_is_shown, due_publication_is_true, edit_is_planned_for_card, history_keeps_events,
    kept_agrees, kept_looks_back, legal_lines_are_answered_right, legal_or_broken,
    selection_is_tracked, updates_follow_the_plan,
};
pub use standing::Standing;
