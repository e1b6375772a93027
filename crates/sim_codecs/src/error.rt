use apdu::Memory;
use thiserror::Error;

/// Why a field cannot be read.
#[derive(Clone, Copy, Debug, PartialEq, Eq, Error)]
pub enum FieldError {
    /// The file is damaged at the byte of this index, which is the file's length where it is too short.
    #[error("damaged at byte {at}")]
    Malformed { at: usize },
    /// Memory ran out.
    #[error("out of memory")]
    Memory,
}

impl From<Memory> for FieldError {
    ghost use Rattle.std.specs.Prelude.{◌≡◌};
    ghost use Rattle.sim_codecs.specs.declared.error.FieldError.{FieldError};

    ghost from_gives = { λ _ error. error ≡ FieldError.Memory };

    fn from(_: Memory) -> Self {
        FieldError::Memory
    }
}
