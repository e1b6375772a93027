// What is sent to a slot that tells nothing of itself.
ghost use Rattle.std.specs.Prelude.{None};

use apdu::{Command, Path, Response, Sw};
use arrayvec::ArrayVec;
use card_model::{Slot, SlotFault};
use link::{FileAnswer, LinkError, Selection, Trail, file_command, transmit};
use std::test::Fail;

// It answers READ BINARY with 6C05 and 6103, GET RESPONSE with success, STATUS with 6C01 always,
// and refuses SELECT.
#[derive(Drop)]
struct Terse {
    faults: u64,
}

impl Slot for Terse {
    ghost world = { λ _. None };

    ghost faults = { λ s. s.faults };

    fn exchange(&mut self, command: &Command) -> Result<Response, SlotFault> {
        let sw = match (command.ins, command.le) {
            (0xB0, Some(5)) => Sw(0x6103),
            (0xB0, _) => Sw(0x6C05),
            (0xC0, Some(3)) => Sw(0x9000),
            (0xF2, _) => Sw(0x6C01),
            (_, _) => Sw(0x6A82),
        };
        Ok(Response {
            body: ArrayVec::new(),
            sw,
        })
    }

    fn reset(&mut self) -> Result<(), SlotFault> {
        Ok(())
    }
}

#[test]
fn sends_what_responses_ask_for(rt: HostRuntime) -> Result<(), Fail> {
    let mut slot = Terse { faults: 0 };
    let read = Command::read(&[0x01, 0xB0, 0x00, 0x00, 0x00])
        .ok()
        .ok_or("READ BINARY on channel 1")?;
    let mut trail = Trail::new();
    let answer = transmit(&mut slot, &read, &mut trail);
    assert!(rt; answer.is_ok());
    assert_eq!(rt; trail.len(), 3);
    let repeated = [0x01, 0xB0, 0x00, 0x00, 0x05];
    assert_eq!(rt;
        trail.as_slice()[1].command.write().as_slice(),
        repeated.as_slice()
    );
    let fetched = [0x01, 0xC0, 0x00, 0x00, 0x03];
    assert_eq!(rt;
        trail.as_slice()[2].command.write().as_slice(),
        fetched.as_slice()
    );

    let status = Command::read(&[0x80, 0xF2, 0x00, 0x0C])
        .ok()
        .ok_or("STATUS")?;
    let mut trail = Trail::new();
    let answer = transmit(&mut slot, &status, &mut trail);
    assert!(rt; matches!(&answer, Err(LinkError::Loop(Sw(0x6C01)))));
    assert_eq!(rt; trail.len(), 4);

    let path = Path::from_ids(&[0x7F10, 0x6F3A]).ok_or("two ids")?;
    let mut selection = Selection::none();
    let mut trail = Trail::new();
    let answer = file_command(&mut slot, &mut selection, &path, &read, &mut trail);
    assert!(rt; matches!(&answer, Ok(FileAnswer::Refused(_))));
    let select = [0x00, 0xA4, 0x08, 0x0C, 0x04, 0x7F, 0x10, 0x6F, 0x3A];
    assert_eq!(rt;
        trail.as_slice()[0].command.write().as_slice(),
        select.as_slice()
    );
    Ok(())
}
