//! What is kept of the lines, and beside it what the current files of each family are decoded to. An update of the framework's own changes
//! that by rows, so that a family is decoded once while its files are current.
#![tactic(auto)]

mod contents;
mod follow;
mod tracked;

pub use contents::Contents;
pub use tracked::ContentTracker;
