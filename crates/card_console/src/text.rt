// The text of a conversation's lines.
ghost use Rattle.std.specs.Prelude.{◌≡◌, ◌++◌, decimal, OnOk, IfOk};
ghost use Rattle.hex.specs.Hex.{encode_upper};
ghost use Rattle.card_console.specs.Played as spec;
ghost use Rattle.card_console.specs.Top.{refused_line, bad_line};
ghost use Rattle.script_reader.specs.Reading.{refusal};

use apdu::{Bytes, Memory};
use card_model::{WorldEvent, WorldRefusal};
use script::{Part, Why};
use sim_card::Call;
use std::alloc::Global;

pub fn put(out: &mut Vec<u8>, text: &str) -> Result<(), Memory>
    ensures { OnOk result (out.new.items ≡ out.old.items ++ text.now) }
{
    out.extend_from_slice(text.as_bytes())?;
    Ok(())
}

fn put_number(alloc: Global, out: &mut Vec<u8>, number: u64) -> Result<(), Memory>
    ensures { OnOk result (out.new.items ≡ out.old.items ++ decimal number) }
{
    let text = number.to_string(alloc)?;
    put(out, text.as_str())
}

pub fn put_hex(alloc: Global, out: &mut Vec<u8>, bytes: &[u8]) -> Result<(), Memory>
    ensures { OnOk result (out.new.items ≡ out.old.items ++ encode_upper bytes.now) }
{
    let text = hex::encode_upper(alloc, bytes)?;
    put(out, text.as_str())
}

fn put_event(alloc: Global, out: &mut Vec<u8>, event: &WorldEvent) -> Result<(), Memory>
    ensures { OnOk result (out.new.items ≡ out.old.items ++ spec.event_text event.now) }
{
    match event {
        WorldEvent::Arm(change) => {
            put(out, "arm ")?;
            put_number(alloc, out, u64::from(*change))
        }
        WorldEvent::Out => put(out, "out"),
        WorldEvent::Insert(card) => {
            put(out, "in ")?;
            put_number(alloc, out, u64::from(*card))
        }
    }
}

pub fn put_call(alloc: Global, out: &mut Vec<u8>, call: &Call) -> Result<(), Memory>
    ensures { OnOk result (out.new.items ≡ out.old.items ++ spec.call_text call.now) }
{
    match call {
        Call::Exchange(command) => put_hex(alloc, out, command.write().as_slice()),
        Call::Reset => put(out, "reset"),
        Call::World(event) => put_event(alloc, out, event),
    }
}

/// The word for the refusal of an event.
pub fn refusal_word(refusal: WorldRefusal) -> &'static str
    ensures { result.now ≡ spec.refusal_word refusal }
{
    match refusal {
        WorldRefusal::SlotEmpty => "slot-empty",
        WorldRefusal::SlotFull => "slot-full",
        WorldRefusal::ArmFull => "arm-full",
        WorldRefusal::NoImage(_) => "no-card",
        WorldRefusal::NoChange(_) => "no-change",
    }
}

/// How it is told that a line makes no call.
pub fn bad_text(alloc: Global, number: u64) -> Result<Bytes, Memory>
    ensures { IfOk result (λ text. text ≡ bad_line number) }
{
    let mut out = Vec::new(alloc);
    put(&mut out, "refused line ")?;
    put_number(alloc, &mut out, number)?;
    put(&mut out, "\n")?;
    Ok(Bytes::from_vec(out))
}

/// How it is told that the first line is no script: the part, the index of its item, and the rule that it breaks.
pub fn refused_text(alloc: Global, part: Part, index: u32, why: Why) -> Result<Bytes, Memory>
    ensures { IfOk result (λ text. text ≡ refused_line (refusal part index why)) }
{
    let mut out = Vec::new(alloc);
    put(&mut out, "refused ")?;
    put(&mut out, part.word())?;
    put(&mut out, " ")?;
    put_number(alloc, &mut out, u64::from(index))?;
    put(&mut out, " ")?;
    put(&mut out, why.word())?;
    put(&mut out, "\n")?;
    Ok(Bytes::from_vec(out))
}
