//! What is kept of the lines so far, line by line.
#![tactic(auto)]

mod actors;
mod at;
mod facts;
mod family;
mod fields;
mod first;
mod history;
mod holdings;
mod jobs;
mod kept;
mod lines;
mod lists;
mod marks;
mod operation;
mod own;
mod plain;
mod room;
mod standings;
mod tracker;
mod turn;

pub use family::family_at;
pub use lists::{Change, change_each};
pub use tracker::Tracker;
