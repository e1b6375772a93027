//! A hub between the card of a slot and the actors of a script. It takes their turns: each line is the one that is due, and at the end
//! the lines are a report.
#![tactic(auto)]

mod engine;
mod hub;
mod names;
mod perform;
mod publish;
mod turn;

pub use hub::Hub;
pub use turn::Turn;
