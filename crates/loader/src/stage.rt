// What a turn of a load comes to.
ghost use Rattle.std.specs.Prelude.{◌≡◌};
ghost use Rattle.loader.specs.Load.{due_next};

use apdu::{Command, Sw};
use fcp::FcpError;
use thiserror::Error;

/// How far a turn has come.
#[derive(Drop)]
pub enum Stage {
    /// Nothing was sent.
    Fresh,
    /// This command is due.
    Next(Command),
    /// No further command is due.
    Over,
}

impl Stage {
    /// The command that is due behind another.
    pub(crate) fn next(&self) -> Option<Command>
        ensures { result ≡ due_next self.now }
    {
        match self {
            Stage::Next(command) => Some(command.copy()),
            Stage::Fresh | Stage::Over => None,
        }
    }
}

/// What a turn that was not refused leaves.
#[derive(Clone, Copy, Debug, PartialEq, Eq)]
pub enum LoadTurn {
    /// Every path is current.
    Ready,
    /// Some path is not current yet.
    Going,
}

/// Why a load is refused.
#[derive(Clone, Copy, Debug, PartialEq, Eq, Error)]
pub enum LoadError {
    /// A command was refused with this status word.
    #[error("refused with {:04X}", .0.0)]
    Status(Sw),
    /// The SELECT of a reading was answered by a body that is no template of control parameters.
    #[error("no control parameters: {0}")]
    BadFcp(FcpError),
    /// An exchange failed.
    #[error("an exchange failed")]
    Slot,
    /// The fourth exchange of a command was answered 61XX or 6CXX.
    #[error("the fourth response asks for one exchange more")]
    Loop(Sw),
    #[error("memory ran out")]
    Memory,
}
