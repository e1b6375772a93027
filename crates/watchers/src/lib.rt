//! The mailbox of a watcher, and the notices of watching actors.
#![tactic(auto)]

mod filter;
mod laws;
mod mailbox;
mod watch;

pub use filter::{Filter, MaskFilter, Notice};
pub use laws::watch_keeps_the_last;
pub use mailbox::Mailbox;
pub use watch::{Watch, WatchList};
