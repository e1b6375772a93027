//! File control parameters (ETSI TS 102 221 clause 11.1.1.3), access rules (clause 9.2), and the contents of files.
#![tactic(auto)]

mod control;
mod objects;
mod reader;
mod rows;
mod rule;
mod writer;

pub use control::{ArrRef, Fcp, FcpError};
pub use reader::read_fcp;
pub use rows::{FileKind, FileView, Rows};
pub use rule::{Need, Rule, read_rule};
pub use writer::write_fcp;
