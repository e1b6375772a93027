// Edits of a phonebook, and the plans by which they are made.

use crate::AdnEntry;
use apdu::Bytes;
use thiserror::Error;

/// An edit of the phonebook.
#[derive(Drop)]
pub enum Edit {
    /// Writes an entry into a row, counted from 1, or else into the first that is free.
    Set { at: Option<u8>, entry: AdnEntry },
    /// Frees a row, counted from 1.
    Clear { at: u8 },
}

/// New bytes for a row.
#[derive(Drop)]
pub struct RowUpdate {
    /// 0 for the main file, 1 for its extension file.
    pub file: u8,
    /// The row's number, counted from 1.
    pub row: u8,
    /// As many bytes as the file's rows have.
    pub bytes: Bytes,
}

/// The updates that make an edit, in their order. The edit is made once the deciding one is.
#[derive(Drop)]
pub struct Plan {
    /// Fills the extension row that the entry needs.
    pub before: Option<RowUpdate>,
    pub deciding: RowUpdate,
    /// Frees the extension row that the entry before it had.
    pub after: Option<RowUpdate>,
}

/// Why an edit cannot be planned, in the order in which the causes are tried.
#[derive(Clone, Copy, Debug, PartialEq, Eq, Error)]
pub enum PlanError {
    /// The main file is not linear, or its rows are too narrow for a number; its width, which is the
    /// size of a transparent file.
    #[error("the rows of {width} bytes hold no number")]
    BadFile { width: u16 },
    /// The book has no row of this number.
    #[error("no row {0}")]
    NoRecord(u8),
    /// None of so many rows is free.
    #[error("none of {count} rows is free")]
    Full { count: u8 },
    /// The name has this character, which no file can hold.
    #[error("no file can hold U+{code:04X}", code = u32::from(*.0))]
    NotWritable(char),
    /// The name needs so many bytes, and its row has this room for it.
    #[error("the name needs {need} bytes and has room for {room}")]
    NameTooLong { need: usize, room: usize },
    /// The number has no digit at this index.
    #[error("byte {0} of the number is no digit")]
    BadDigit(usize),
    /// The number has so many digits, which is more than 40.
    #[error("{0} digits, more than 40")]
    NumberTooLong(usize),
    /// The number needs an extension row, and none of so many is free.
    #[error("none of {count} extension rows is free")]
    ExtFull { count: u8 },
    /// Memory ran out.
    #[error("out of memory")]
    Memory,
}
