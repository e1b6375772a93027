//! Reading a report from its text, of which there is one spelling.
#![tactic(auto)]

mod answers;
mod content;
mod error;
mod laws;
mod lines;
mod read;
mod words;

pub use error::ReportError;
pub use laws::{
    first_line_without_place_is_named, reports_are_read_back, reports_have_one_spelling,
};
pub use read::read_report;
