// Why bytes are no script.

use apdu::Memory;
use thiserror::Error;

/// A part of a script, in the order in which the parts are read.
#[derive(Clone, Copy, Debug, PartialEq, Eq)]
pub enum Part {
    Json,
    Version,
    Cards,
    Changes,
    Actors,
    Schedule,
    Faults,
    Budget,
    /// A field that no script has.
    Other,
}

/// The rule that an item breaks, in the order in which the rules are tested.
#[derive(Clone, Copy, Debug, PartialEq, Eq)]
pub enum Why {
    /// The bytes are no JSON object.
    Json,
    /// A field is missing, unknown, of another type or out of its range.
    Form,
    /// There is more, or less, than a limit allows.
    Limit,
    /// A path has no or more than three ids or names the master file, or the files have a path twice or below one
    /// another.
    Path,
    /// A record has another length than is stated, a file of the USIM is on a card without one, or a file's own control
    /// parameters can be read as such.
    Shape,
    /// A change has files that its command does not tell.
    Honest,
    /// A number names no card, change, editable family or actor.
    Target,
    /// A channel or a session is not given back exactly once, or notices are taken without a watch.
    Pairing,
}

/// Why bytes are no script.
#[derive(Clone, Copy, Debug, PartialEq, Eq, Error)]
pub enum ScriptError {
    /// The first part that breaks a rule, the index of its first item that breaks one, and the first rule that this item
    /// breaks.
    #[error("no script: {part} {index} breaks the rule {why}")]
    Refused { part: Part, index: u32, why: Why },
    #[error("out of memory")]
    Memory,
}

/// Why an item cannot be read.
#[derive(Clone, Copy, Debug, PartialEq, Eq, Error)]
pub(crate) enum ItemError {
    /// The first rule that it breaks.
    #[error("it breaks the rule {0}")]
    Broken(Why),
    #[error("out of memory")]
    Memory,
}

impl From<Memory> for ItemError {
    ghost use Rattle.std.specs.Prelude.{◌≡◌};
    ghost use Rattle.script_reader.specs.declared.error.ItemError.{ItemError};

    ghost from_gives = { λ _ error. error ≡ ItemError.Memory };

    fn from(_: Memory) -> Self {
        ItemError::Memory
    }
}

impl From<Memory> for ScriptError {
    ghost use Rattle.std.specs.Prelude.{◌≡◌};
    ghost use Rattle.script_reader.specs.declared.error.ScriptError.{ScriptError};

    ghost from_gives = { λ _ error. error ≡ ScriptError.Memory };

    fn from(_: Memory) -> Self {
        ScriptError::Memory
    }
}
