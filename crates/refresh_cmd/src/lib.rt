//! Proactive commands, of which REFRESH is one (ETSI TS 102 223 clauses 6.6.13 and 8).
#![tactic(auto)]

mod list;
mod proactive;
mod read;
mod write;

pub use proactive::{Proactive, ProactiveError};
pub use read::read_proactive;
pub use write::{write_proactive, write_refresh, write_terminal_response};

// The file id of the master file, TS 102 221 clause 8.3.
const MASTER_FILE: u16 = 0x3F00;
