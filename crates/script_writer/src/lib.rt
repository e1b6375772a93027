//! A script's one text, which is read back as the script that it was written from.
#![tactic(auto)]

mod to_json;
mod write;

pub use write::write_script;
