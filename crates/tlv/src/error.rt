use thiserror::Error;

/// Why bytes are no list of objects, with the index of the byte.
#[derive(Clone, Copy, Debug, PartialEq, Eq, Error)]
pub enum TlvError {
    /// The value or the length of the object at this index passes the end.
    #[error("the object at byte {at} passes the end")]
    Cut { at: usize },
    /// The byte at this index is no tag that is read.
    #[error("byte {at} is no tag that is read")]
    BadTag { at: usize },
    /// The length that begins at this index is neither one byte below 80 nor 81 and a byte.
    #[error("the length at byte {at} is neither one byte below 80 nor 81 and a byte")]
    BadLength { at: usize },
    /// An object to be written does not fit.
    #[error("no room for the object")]
    NoRoom,
}
