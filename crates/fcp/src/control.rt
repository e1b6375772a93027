// The control parameters of a file or a directory, ETSI TS 102 221 clause 11.1.1.3.

use crate::FileKind;
use thiserror::Error;
use tlv::TlvError;

/// A reference to an access rule: the id of EF_ARR and the number of its record, from 1.
#[derive(Clone, Copy, Debug, PartialEq, Eq)]
pub struct ArrRef {
    pub file_id: u16,
    pub row: u8,
}

/// The control parameters. `width` and `count` are 0 where the kind is not linear.
#[derive(Clone, Copy, Debug, PartialEq, Eq)]
pub struct Fcp {
    pub kind: FileKind,
    pub size: u16,
    pub file_id: Option<u16>,
    pub width: u16,
    pub count: u8,
    pub active: bool,
    pub arr: Option<ArrRef>,
}

/// Why bytes are no control parameters.
#[derive(Clone, Copy, Debug, PartialEq, Eq, Error)]
pub enum FcpError {
    /// The objects cannot be read.
    #[error("the objects cannot be read: {0}")]
    Tlv(TlvError),
    /// An object of this tag has to be there, and is not.
    #[error("no object of tag {0:02X}")]
    Missing(u8),
    /// The value of the object of this tag is none that is read.
    #[error("the value of tag {tag:02X} is none that is read")]
    Bad { tag: u8 },
}
