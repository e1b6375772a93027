// The slot of a card, and what its calls mean where it tells its world.
ghost use Rattle.std.specs.Prelude.{◌≡◌, ℕ, Option, None, IfOk, OnOk, OnErr};
ghost use Rattle.apdu.specs.Stream.{HasCause};
ghost use Rattle.card_model.specs.declared.world.World.{World};
ghost use Rattle.card_model.specs.Slot.{Plan, StaysTold, ToldWith, Answers, MayHaveActed, Resets, MayHaveReset, Counts, ExchangesAsPlanned, ResetsAsPlanned, Happens, IsRefused};

use crate::WorldEvent;
use apdu::{Command, Response};
use thiserror::Error;

/// An exchange or a reset failed.
#[derive(Clone, Copy, Debug, PartialEq, Eq, Error)]
#[error("the exchange or the reset failed")]
pub struct SlotFault;

/// Why a world event was refused.
#[derive(Clone, Copy, Debug, PartialEq, Eq, Error)]
pub enum WorldRefusal {
    #[error("there is no card in the slot")]
    SlotEmpty,
    #[error("the slot holds a card already")]
    SlotFull,
    #[error("the card has 64 armed changes already")]
    ArmFull,
    #[error("there is no card {0}")]
    NoImage(u8),
    #[error("there is no change {0}")]
    NoChange(u8),
}

/// A slot for one card.
pub trait Slot {
    /// The world of the card, where the slot tells it.
    ghost world: { Self → Option World };

    /// The calls that fail, and how many calls there were, where the slot tells it.
    ghost plan: { Self → Option Plan } = { λ _. None };

    /// How often an exchange or a reset failed, up to the last value of a u64.
    ghost faults: { Self → ℕ };

    /// Sends a command, and gives the card's response.
    fn exchange(&mut self, command: &Command) -> Result<Response, SlotFault>
        ensures ok { IfOk result (Answers (world self.old) (world self.new) command.now) }
        ensures err { OnErr result (MayHaveActed (world self.old) (world self.new) command.now) }
        ensures tells { StaysTold (world self.old) (world self.new) }
        ensures tells_plan { StaysTold (plan self.old) (plan self.new) }
        ensures counts { Counts (plan self.old) (plan self.new) }
        ensures planned { ExchangesAsPlanned (plan self.old)
            (world self.old) (world self.new) command.now result }
        ensures cause { HasCause (faults self.old) (faults self.new) result };

    /// Resets the card.
    fn reset(&mut self) -> Result<(), SlotFault>
        ensures ok { OnOk result (Resets (world self.old) (world self.new)) }
        ensures err { OnErr result (MayHaveReset (world self.old) (world self.new)) }
        ensures tells { StaysTold (world self.old) (world self.new) }
        ensures tells_plan { StaysTold (plan self.old) (plan self.new) }
        ensures counts { Counts (plan self.old) (plan self.new) }
        ensures planned { ResetsAsPlanned (plan self.old) (world self.old) (world self.new) result }
        ensures cause { HasCause (faults self.old) (faults self.new) result };
}

/// A slot whose card comes, goes and changes by a script.
pub trait ScriptedSlot: Slot {
    /// Makes a world event happen.
    fn world(&mut self, event: &WorldEvent) -> Result<(), WorldRefusal>
        ensures ok { OnOk result (Happens (Self.Slot.world self.old)
            (Self.Slot.world self.new) event.now) }
        ensures err { OnErr result (Self.Slot.world self.new ≡ Self.Slot.world self.old) }
        ensures tells { StaysTold (Self.Slot.world self.old) (Self.Slot.world self.new) }
        ensures refused { IsRefused (Self.Slot.world self.old) event.now result }
        ensures plan { Self.Slot.plan self.new ≡ Self.Slot.plan self.old }
        ensures faults { Self.Slot.faults self.new ≡ Self.Slot.faults self.old };

    /// A slot that tells its world tells its plan.
    ghost tells_both: { (s : Self) → ToldWith (Self.Slot.world s) (Self.Slot.plan s) };
}
