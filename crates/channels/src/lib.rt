//! The commands of logical channels.
#![tactic(auto)]

mod commands;

pub use commands::{
    assigned_number, close_command, is_opening, on_channel, open_command, select_application,
};
