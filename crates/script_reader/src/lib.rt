//! Scripts: the cards, the changes and the actors of a run, read from JSON, and the lists that a slot takes of them.
#![tactic(auto)]

mod cards;
mod error;
mod fields;
mod files;
mod operations;
mod pairing;
mod parts;
mod read;
mod types;
mod words;
mod world;

pub use error::{Part, ScriptError, Why};
pub use read::read_script;
pub use types::{
    ActorNumbers, ActorSpecs, CardSpec, CardSpecs, ChangeSpec, ChangeSpecs, FileSpec, FileSpecs,
    KeySpec, KeySpecs, KindSpec, Operation, Operations, RowSpecs, Script,
};
