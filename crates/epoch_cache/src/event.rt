// What happens to the card and its slot.

use card_model::{Step, WorldEvent};

/// An event of a run, and who brought it about; actor 0 is the framework itself.
#[derive(Drop)]
pub enum Event {
    /// A command was sent.
    Exchange { actor: u8, step: Step },
    /// The card was reset, or was to be.
    Reset { actor: u8, ok: bool },
    World { actor: u8, event: WorldEvent },
}
