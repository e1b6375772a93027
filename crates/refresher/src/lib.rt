//! Start-up of a card, and the answers to its proactive commands.
#![tactic(auto)]

mod response;
mod startup;

pub use response::{fetch_command, owed_by};
pub use startup::{STARTUP_STEPS, startup_after, startup_command};
