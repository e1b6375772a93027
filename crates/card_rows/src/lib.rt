//! What a command does to a card: the table of `card_model`, row by row, and laws of it.
#![tactic(auto)]

mod access;
mod card;
mod channel;
mod command;
mod control;
mod fetch;
mod file;
mod get_response;
mod laws;
mod manage;
mod outcome;
mod part;
mod read;
mod reset;
mod response;
mod select;
mod toolkit;
mod update;
mod verify;

pub use access::rule_of;
pub use card::on_card;
pub use file::{file_of, place_in};
pub use laws::{refusal_keeps, reset_keeps, success_announces, tries_keep};
pub use outcome::Outcome;
pub use reset::reset_card;
