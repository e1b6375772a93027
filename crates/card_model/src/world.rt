// The world: the cards, which of them is in the slot, and the changes that may be armed.

use crate::{ArmedList, CardFiles, ChannelList};
use apdu::{Bytes, Path, Sequence};
use arrayvec::ArrayVec;
use fcp::{ArrRef, Rows};
use std::marker::Model;

pub type FileList = Sequence<FileState>;

pub type AidList = Sequence<Bytes>;

pub type KeyList = Sequence<PinState>;

pub type PathList = Sequence<Path>;

pub type Images = Sequence<CardState>;

pub type Changes = Sequence<Change>;

pub type Faults = Sequence<Fault>;

/// The cards, which of them is in the slot, and the changes.
#[derive(Drop)]
pub struct World {
    pub cards: Images,
    pub inside: Option<u8>,
    pub changes: Changes,
}

/// A card. Its files, tries and armed changes outlive removal and reset.
#[derive(Drop)]
pub struct CardState {
    /// The files, each path once.
    pub files: CardFiles,
    /// The applications. The USIM is the first whose AID begins `A0000000871002`.
    pub aids: AidList,
    /// The PINs. Where several have one key reference, the first of them alone counts.
    pub keys: KeyList,
    /// The open channels.
    pub channels: ChannelList,
    /// How many channels beside the basic one the card can open.
    pub free: u8,
    /// The changes that wait to be fetched.
    pub armed: ArmedList,
    /// Whether a TERMINAL RESPONSE is expected.
    pub awaiting: bool,
    /// What a GET RESPONSE would fetch.
    pub waiting: Option<Waiting>,
    /// Whether SELECT leaves the control parameters for a GET RESPONSE.
    pub get_response: bool,
}

/// A file.
#[derive(Drop)]
pub struct FileState {
    pub path: Path,
    pub rows: Rows,
    pub active: bool,
    /// The access rule, if any.
    pub arr: Option<ArrRef>,
    /// Whether each READ asks for another length.
    pub endless: bool,
    /// What SELECT gives in place of the file's own control parameters.
    pub fcp: Option<Bytes>,
}

/// A PIN, ETSI TS 102 221 clause 9.
#[derive(Clone, Copy, Debug, PartialEq, Eq)]
pub struct PinState {
    pub key: u8,
    pub secret: [u8; 8],
    pub tries: u8,
    pub max: u8,
    pub verified: bool,
}

/// A logical channel: its application, an index among the card's, and its current file or
/// directory. None is the master file, and the path 7FFF alone is the application's directory,
/// or the USIM's file of that path.
#[derive(Default, Drop)]
pub struct ChannelState {
    pub number: u8,
    pub app: Option<u8>,
    pub current: Option<Path>,
}

/// Bytes that wait for a GET RESPONSE on a channel. Contracts see the record of the two.
#[derive(Drop)]
pub struct Waiting {
    pub channel: u8,
    pub bytes: ArrayVec<u8, 256>,
}

impl Model for Waiting {
    ghost use Rattle.card_model.specs.Waiting.{WaitingValue};

    ghost Value = { WaitingValue };

    ghost view = { λ w. record { channel = w.channel; bytes = w.bytes.items } };
}

/// A change of the card, announced by a proactive command of this type, qualifier and file list.
#[derive(Drop)]
pub struct Change {
    pub qualifier: u8,
    pub kind: u8,
    pub list: PathList,
    /// The files as they are from the FETCH of the command on.
    pub files: FileList,
}

/// A planned fault: the number of the exchange or reset that fails, from 1, and whether the card acts all the same.
#[derive(Clone, Copy, Debug, PartialEq, Eq)]
pub struct Fault {
    pub at: u64,
    pub acted: bool,
}

/// What happens to the card and its slot from outside.
#[derive(Clone, Copy, Debug, PartialEq, Eq)]
pub enum WorldEvent {
    /// The change of this number joins the armed ones of the card in the slot.
    Arm(u8),
    /// The card is taken out.
    Out,
    /// The card of this number is put in, and reset.
    Insert(u8),
}
