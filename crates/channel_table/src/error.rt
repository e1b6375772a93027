// Why no channel was opened or closed.
use apdu::Sw;
use thiserror::Error;

/// Why no channel was opened.
#[derive(Clone, Copy, Debug, PartialEq, Eq, Error)]
pub enum OpenError {
    /// The card has no channel left: MANAGE CHANNEL was answered 6A81.
    #[error("no channel is left")]
    Exhausted,
    /// MANAGE CHANNEL or SELECT was refused, or MANAGE CHANNEL gave no new channel.
    #[error("refused with {:04X}", .0.0)]
    Status(Sw),
    /// An exchange failed, which is the last step of the trail.
    #[error("an exchange failed")]
    Slot,
    /// The fourth exchange of a command was answered 61XX or 6CXX.
    #[error("the fourth response asks for one exchange more")]
    Loop(Sw),
}

/// Why a channel was not closed on the card.
#[derive(Clone, Copy, Debug, PartialEq, Eq, Error)]
pub enum CloseError {
    /// The channel's epoch is gone, and nothing was sent.
    #[error("epoch {0} has ended")]
    EpochEnded(u64),
    /// MANAGE CHANNEL was refused.
    #[error("refused with {:04X}", .0.0)]
    Status(Sw),
    /// An exchange failed, which is the last step of the trail.
    #[error("an exchange failed")]
    Slot,
    /// The fourth exchange was answered 61XX or 6CXX.
    #[error("the fourth response asks for one exchange more")]
    Loop(Sw),
}
