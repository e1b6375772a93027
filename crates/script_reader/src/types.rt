// What a script says: the cards and their changes, what each actor does, and the order of turns.

use apdu::{Bytes, Command, Path, Sequence, Text};
use card_model::{AidList, Faults, PathList};
use fcp::ArrRef;

pub type FileSpecs = Sequence<FileSpec>;

pub type KeySpecs = Sequence<KeySpec>;

pub type CardSpecs = Sequence<CardSpec>;

pub type ChangeSpecs = Sequence<ChangeSpec>;

pub type Operations = Sequence<Operation>;

pub type ActorSpecs = Sequence<Operations>;

pub type ActorNumbers = Sequence<u8>;

pub type RowSpecs = Sequence<Bytes>;

/// A run: cards, the changes that may be armed, and the actors with their operations.
#[derive(Drop)]
pub struct Script {
    pub version: u8,
    pub cards: CardSpecs,
    /// The actors' operations. The first actor has number 1, and the framework itself is actor 0.
    pub actors: ActorSpecs,
    pub changes: ChangeSpecs,
    /// Whose turn each of the first turns is.
    pub schedule: ActorNumbers,
    /// The calls of the slot that fail, in their order.
    pub faults: Faults,
    /// How many events the run may have, where that is limited by the script.
    pub budget: Option<u64>,
}

/// A card as it is before the run.
#[derive(Drop)]
pub struct CardSpec {
    pub files: FileSpecs,
    /// The identifiers of the applications.
    pub aids: AidList,
    pub keys: KeySpecs,
    /// How many channels beside the basic one the card can open.
    pub channels: u8,
    /// Whether SELECT leaves the control parameters for a GET RESPONSE.
    pub get_response: bool,
}

/// A PIN, ETSI TS 102 221 clause 9.
#[derive(Clone, Copy, Debug, PartialEq, Eq)]
pub struct KeySpec {
    /// The key reference.
    pub key: u8,
    pub pin: [u8; 8],
    /// How many tries are left.
    pub tries: u8,
    /// How many tries there are after a success.
    pub max: u8,
}

/// A file.
#[derive(Drop)]
pub struct FileSpec {
    pub path: Path,
    pub kind: KindSpec,
    /// The access rule, if any.
    pub arr: Option<ArrRef>,
    pub active: bool,
    /// Whether each READ asks for another length.
    pub endless: bool,
    /// What SELECT gives in place of the file's own control parameters.
    pub fcp: Option<Bytes>,
}

/// What a file holds, by its structure (ETSI TS 102 221 clause 8.2.2).
#[derive(Drop)]
pub enum KindSpec {
    Transparent { bytes: Bytes },
    /// Records of one length.
    Linear { len: u16, rows: RowSpecs },
}

/// A change of the card, announced by a proactive command of this type, qualifier and file list.
#[derive(Drop)]
pub struct ChangeSpec {
    pub qualifier: u8,
    /// The type of the proactive command; 1 is REFRESH.
    pub kind: u8,
    pub list: PathList,
    /// The files as they are from the FETCH of the command on.
    pub files: FileSpecs,
}

/// What an actor asks for. A family of files is 0 for the records, 1 for the phonebook and 2 for the fixed dialling
/// numbers.
#[derive(Drop)]
pub enum Operation {
    /// Puts a card into the slot.
    Insert {
        card: u8,
    },
    /// Takes the card out.
    Out,
    /// Arms a change of the card in the slot.
    Arm {
        change: u8,
    },
    /// Reads a family of files.
    Load {
        family: u8,
    },
    /// Writes an entry, into this row or into the first free one.
    Set {
        family: u8,
        at: Option<u8>,
        name: Text,
        number: Text,
    },
    /// Frees a row.
    Clear {
        family: u8,
        at: u8,
    },
    /// Opens a channel to an application. `handle` names it for the operations that use it.
    OpenChannel {
        handle: u8,
        aid: Bytes,
    },
    /// Sends a command on a channel.
    Raw {
        handle: u8,
        apdu: Command,
    },
    /// Closes a channel.
    Close {
        handle: u8,
    },
    /// Verifies a PIN, which begins a session of its key.
    Verify {
        key: u8,
        pin: [u8; 8],
    },
    /// Ends the session of a key.
    End {
        key: u8,
    },
    /// Sends STATUS, so that the card can announce what it has.
    Poll,
    /// Looks at what is published.
    Look,
    /// Asks for notices of the kinds in this mask.
    Watch {
        mask: u8,
    },
    /// Takes the notices that were kept.
    Notices,
}
