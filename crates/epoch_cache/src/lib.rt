//! The files whose rows are current, what moves them, and the epochs of a run.
#![tactic(auto)]

mod cache;
mod cached;
mod event;
mod files;
mod history;
mod lists;
mod moving;
mod past;
mod refresh;
mod session;
mod store;
mod touch;
mod versions;

pub use cache::Cache;
pub use cached::{CachedFile, CachedFiles, Touch, Written};
pub use event::Event;
pub use files::{
    all_current, exchange_files, first_missing, forget_file, forget_moved, is_current, is_row_of,
    patch_file, put_completed, put_file, taken, write_files,
};
pub use history::History;
pub use past::{Past, announced_after};
pub use refresh::{asks_reset, handed_refresh, is_moved_by, is_refreshed};
pub use session::{NeedsPin, PinSession, allowed};
pub use touch::is_update;
pub use versions::Versions;
