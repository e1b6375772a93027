//! Scripts of usual runs, made from a seed and a size, and how many events a run of a script may have.
#![tactic(auto)]

mod book;
mod bound;
mod draws;
mod files;
mod laws;
mod reading;
mod reads;
mod rule_paths;
mod usual;

pub use bound::work;
pub use laws::generated_keeps;
pub use usual::generate;
