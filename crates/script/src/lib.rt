//! Scripts: the cards, the changes and the actors of a run, read from JSON and written as JSON.
#![tactic(auto)]

pub use script_reader::{
    ActorNumbers, ActorSpecs, CardSpec, CardSpecs, ChangeSpec, ChangeSpecs, FileSpec, FileSpecs,
    KeySpec, KeySpecs, KindSpec, Operation, Operations, Part, RowSpecs, Script, ScriptError, Why,
    read_script,
};
pub use script_writer::write_script;

#[cfg(test)]
mod tests;
