//! The subcommands of the program `uicc_replay`, read from the words of a call.
#![tactic(auto)]

mod command;
mod spelling;
mod words;

pub use words::{Subcommand, read_words};
