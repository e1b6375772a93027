// Why bytes are no report.
ghost use Rattle.std.specs.Prelude.{◌≡◌};
ghost use Rattle.report_reader.specs.Reads.{ReadsAs, rule, AnswersAs, at_line};

use apdu::Memory;
use std::alloc::AllocError;
use thiserror::Error;

/// Why bytes are no report.
#[derive(Clone, Copy, Debug, PartialEq, Eq, Error)]
pub enum ReportError {
    /// The first line, from 1, that has no place.
    #[error("no report: line {line} has no place")]
    Refused { line: u64 },
    #[error("out of memory")]
    Memory,
}

/// Why a line cannot be read.
#[derive(Clone, Copy, Debug, PartialEq, Eq, Error)]
pub(crate) enum LineError {
    /// It is the text of none.
    #[error("it has no place")]
    NoPlace,
    #[error("out of memory")]
    Memory,
}

impl LineError {
    /// The error where the line has this number.
    pub(crate) fn at(self, line: u64) -> ReportError
        ensures { result ≡ at_line line self }
    {
        match self {
            LineError::NoPlace => ReportError::Refused { line },
            LineError::Memory => ReportError::Memory,
        }
    }
}

/// The rule has to hold.
pub(crate) fn check(holds: bool) -> Result<(), LineError>
    ensures { ReadsAs (rule holds) result }
{
    if holds {
        Ok(())
    } else {
        Err(LineError::NoPlace)
    }
}

impl From<Memory> for LineError {
    ghost use Rattle.std.specs.Prelude.{◌≡◌};
    ghost use Rattle.report_reader.specs.declared.error.LineError.{LineError};

    ghost from_gives = { λ _ error. error ≡ LineError.Memory };

    fn from(_: Memory) -> Self {
        LineError::Memory
    }
}

impl From<AllocError> for LineError {
    ghost use Rattle.std.specs.Prelude.{◌≡◌};
    ghost use Rattle.report_reader.specs.declared.error.LineError.{LineError};

    ghost from_gives = { λ _ error. error ≡ LineError.Memory };

    fn from(_: AllocError) -> Self {
        LineError::Memory
    }
}

impl From<Memory> for ReportError {
    ghost use Rattle.std.specs.Prelude.{◌≡◌};
    ghost use Rattle.report_reader.specs.declared.error.ReportError.{ReportError};

    ghost from_gives = { λ _ error. error ≡ ReportError.Memory };

    fn from(_: Memory) -> Self {
        ReportError::Memory
    }
}
