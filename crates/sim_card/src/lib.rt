//! A simulated card in its slot: what a command does to it is the table of `card_model`, call by call.
#![tactic(auto)]

mod calls;
mod event;
mod fetch;
mod slot;
mod spares;
mod step;

pub use calls::{Call, play};
pub use card_rows::{refusal_keeps, reset_keeps, success_announces, tries_keep};
pub use slot::SimSlot;
