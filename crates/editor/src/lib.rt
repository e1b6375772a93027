//! An edit of a phonebook that is under way.
#![tactic(auto)]

mod attempt;
mod editing;
mod paths;
mod rows;

pub use attempt::update_command;
pub use editing::{Attempt, Decided, Editing};
pub use paths::{family_paths, has_path};
