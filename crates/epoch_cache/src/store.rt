// How the events of a history are stored.
ghost use Rattle.std.specs.Prelude.{◌≡◌, ◌+◌, ◌≤◌, ◌++◌, length};
ghost use Rattle.epoch_cache.specs.Past.{event_bytes, step_bytes};
ghost use Rattle.epoch_cache.specs.Store as spec;

use crate::Event;
use apdu::Reserved;
use card_model::{Step, WorldEvent};

/// An event without its bytes, which stand in a list of their own.
#[derive(Clone, Copy)]
pub enum Entry {
    Answered {
        actor: u8,
        command_length: u16,
        response_length: u16,
    },
    Failed {
        actor: u8,
        command_length: u16,
    },
    Reset {
        actor: u8,
        ok: bool,
    },
    World {
        actor: u8,
        event: WorldEvent,
    },
}

fn store_step(actor: u8, step: &Step, bytes: &mut Reserved<u8>) -> Entry
    requires { length (step_bytes step.now) ≤ bytes.old.spare }
    ensures bytes { bytes.new.items ≡ bytes.old.items ++ step_bytes step.now }
    ensures spare { bytes.old.spare ≤ bytes.new.spare + length (step_bytes step.now) }
    ensures event { spec.stored_event result (step_bytes step.now) ≡ Event.Exchange actor step.now }
    ensures length { spec.entry_length result ≡ length (step_bytes step.now) }
{
    let command = step.command.write();
    bytes.extend_within(command.as_slice());
    let command_length = command.len() as u16;
    match &step.outcome {
        Ok(response) => {
            let response = response.write();
            bytes.extend_within(response.as_slice());
            Entry::Answered {
                actor,
                command_length,
                response_length: response.len() as u16,
            }
        }
        Err(_) => Entry::Failed {
            actor,
            command_length,
        },
    }
}

/// Writes an event's bytes behind the others.
pub fn store(event: &Event, bytes: &mut Reserved<u8>) -> Entry
    requires { length (event_bytes event.now) ≤ bytes.old.spare }
    ensures bytes { bytes.new.items ≡ bytes.old.items ++ event_bytes event.now }
    ensures spare { bytes.old.spare ≤ bytes.new.spare + length (event_bytes event.now) }
    ensures event { spec.stored_event result (event_bytes event.now) ≡ event.now }
    ensures length { spec.entry_length result ≡ length (event_bytes event.now) }
{
    match event {
        Event::Exchange { actor, step } => store_step(*actor, step, bytes),
        Event::Reset { actor, ok } => Entry::Reset {
            actor: *actor,
            ok: *ok,
        },
        Event::World { actor, event } => Entry::World {
            actor: *actor,
            event: *event,
        },
    }
}
