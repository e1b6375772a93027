//! What is kept of the lines, and beside it the watches of the actors: each publication is offered to each watch whose `watching` was answered.
#![tactic(auto)]

mod asked;
mod tracked;
mod watcher;

pub use asked::{mask_asked, mask_watches};
pub use tracked::WatchedTracker;
