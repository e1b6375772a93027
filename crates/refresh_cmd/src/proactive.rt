// A proactive command as the terminal reads it.

use apdu::Path;
use arrayvec::ArrayVec;
use std::marker::Model;
use thiserror::Error;
use tlv::TlvError;

/// A proactive command: its details, and the files of its file list. Contracts see it as the record of its fields.
#[derive(Drop)]
pub struct Proactive {
    /// The command number, which the terminal's response repeats.
    pub number: u8,
    /// The type of command, 01 for REFRESH (TS 102 223 clause 9.4).
    pub kind: u8,
    pub qualifier: u8,
    /// The paths of the file list, without the master file; none where the command has no file list.
    pub list: ArrayVec<Path, 64>,
}

impl Model for Proactive {
    ghost use Rattle.refresh_cmd.specs.Values.{ProactiveValue};

    ghost Value = { ProactiveValue };

    ghost view = { λ p. record { number = p.number; kind = p.kind; qualifier = p.qualifier; list = p.list.items } };
}

/// Why bytes are no proactive command.
#[derive(Clone, Copy, Debug, PartialEq, Eq, Error)]
pub enum ProactiveError {
    /// The first byte, 0 where there is none, is not D0.
    #[error("the tag {0:02X} is not D0")]
    NotProactive(u8),
    /// The objects cannot be read.
    #[error("the objects cannot be read: {0}")]
    Tlv(TlvError),
    /// The object of this tag has to be there, and is not, or has not its length.
    #[error("no object of tag {0:02X} with its length")]
    Missing(u8),
    /// The file list is no count and as many paths from the master file.
    #[error("the file list is no count and as many paths from the master file")]
    BadList,
}
