//! The replay of a script over its cards: turns in the order of its schedule, and then round, within its budget.
#![tactic(auto)]

mod run;

pub use run::{Replayed, replay};
