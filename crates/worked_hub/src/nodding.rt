// A slot in memory whose card nods at everything but a VERIFY.
ghost use Rattle.std.specs.Prelude.{None};

use apdu::{Command, Response, Sw};
use arrayvec::ArrayVec;
use card_model::{ScriptedSlot, Slot, SlotFault, WorldEvent, WorldRefusal};

const VERIFY: u8 = 0x20;

/// It tells nothing of itself. It answers a VERIFY with 6C08 and any other command with 9000, without a body.
#[derive(Drop)]
pub struct Nodding {
    faults: u64,
}

impl Nodding {
    pub fn new() -> Nodding {
        Nodding { faults: 0 }
    }
}

impl Slot for Nodding {
    ghost world = { λ _. None };

    ghost faults = { λ s. s.faults };

    fn exchange(&mut self, command: &Command) -> Result<Response, SlotFault> {
        let sw = if command.ins == VERIFY {
            Sw(0x6C08)
        } else {
            Sw(0x9000)
        };
        Ok(Response {
            body: ArrayVec::new(),
            sw,
        })
    }

    fn reset(&mut self) -> Result<(), SlotFault> {
        Ok(())
    }
}

impl ScriptedSlot for Nodding {
    ghost tells_both = { λ _ told. told };

    fn world(&mut self, _event: &WorldEvent) -> Result<(), WorldRefusal> {
        Ok(())
    }
}
