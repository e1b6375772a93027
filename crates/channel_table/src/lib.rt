//! The logical channels that an application holds.
#![tactic(auto)]

mod answers;
mod channel;
mod error;
mod table;

pub use channel::Channel;
pub use error::{CloseError, OpenError};
pub use table::Table;
