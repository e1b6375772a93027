//! The phonebook of two files, EF_ADN or EF_FDN and its extension file: 3GPP TS 31.102 clauses
//! 4.2.24, 4.4.2.3 and 4.4.2.4.
#![tactic(auto)]

mod book;
mod edit;
mod entry;
mod number;
mod update;

pub use book::decode_book;
pub use edit::{Edit, Plan, PlanError, RowUpdate};
pub use entry::{AdnEntry, Book, BookRow, copy_book};
pub use update::redecode;
