//! Families over the files that are current: a view of them, and the plan of an edit.
#![tactic(auto)]

mod current;
mod planning;

pub use current::CurrentFiles;
pub use planning::plan_of_family;
