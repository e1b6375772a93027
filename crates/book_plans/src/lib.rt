//! The updates of rows by which an edit of a phonebook is made: 3GPP TS 31.102 clauses 4.2.24 (FDN),
//! 4.2.37 (EXT2), 4.4.2.3 (ADN) and 4.4.2.4 (EXT1). Each plan makes its edit.
#![tactic(auto)]

mod laws;
mod phonebook;
mod plan;
mod row_bytes;
mod target;
mod words;

pub use laws::{plans_fit, plans_make_edits};
pub use plan::plan_edit;
