// Lists of calls on a simulated slot.
ghost use Rattle.std.specs.Prelude.{◌≡◌};
ghost use Rattle.sim_card.specs.Calls.{after_call, after_calls};

use crate::slot::SimSlot;
use apdu::Command;
use card_model::{ScriptedSlot, Slot, WorldEvent};

/// A call on a slot.
#[derive(Drop)]
pub enum Call {
    /// A command is sent to the card.
    Exchange(Command),
    /// The card is reset.
    Reset,
    /// Something happens to the card and its slot from outside.
    World(WorldEvent),
}

// Makes one call, and leaves its answer aside.
fn play_one(slot: &mut SimSlot, call: &Call)
    ensures { slot.new ≡ after_call slot.old call.now }
{
    match call {
        Call::Exchange(command) => {
            let _ = slot.exchange(command);
        }
        Call::Reset => {
            let _ = slot.reset();
        }
        Call::World(event) => {
            let _ = slot.world(event);
        }
    }
}

/// Makes the calls in order, and leaves their answers aside.
pub fn play(slot: &mut SimSlot, calls: &[Call])
    ensures { slot.new ≡ after_calls slot.old calls.now }
{
    for call in calls {
        play_one(slot, call);
    }
}
