// The line that is due.

use apdu::Command;
use card_model::WorldEvent;
use report::Answer;

/// The next line of a turn.
#[derive(Drop)]
pub enum Due {
    /// The end of this epoch, by this event.
    TellEnd(u64, u64),
    /// This command.
    Send(Command),
    /// A reset.
    ResetCard,
    /// The event, or the answer that the slot refuses it.
    TryEvent(WorldEvent),
    /// The refusal of the framework's reading of this family, by this event.
    TellRefusal(u8, u64),
    /// The family, with what the current files show of it.
    Publish(u8),
    /// The answer.
    Give(Answer),
    /// The operation of this index.
    Begin(u32),
    /// Nothing: the actor waits for this one.
    WaitFor(u8),
    /// Nothing: all operations of the actor are answered.
    EndOfActor,
    /// Nothing more in this turn.
    Rest,
}
