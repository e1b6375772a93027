//! How much a run did, counted over its report.
#![tactic(auto)]

mod summary;

pub use summary::{Summary, summary_of};
