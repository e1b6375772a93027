// A conversation from its script and its lines.
ghost use Rattle.std.specs.Prelude.{◌≡◌, ◌++◌, true, map, None, OnOk, IfOk};
ghost use Rattle.script_reader.specs.Rules.{keeps_rules};
ghost use Rattle.sim_card.specs.Calls.{after_call};
ghost use Rattle.card_console.specs.Played as spec;

use crate::lines::call_of;
use crate::text::{put, put_call, put_hex, refusal_word};
use apdu::Memory;
use card_model::{ScriptedSlot, Slot};
use script::Script;
use sim_card::{Call, SimSlot};
use std::alloc::Global;

/// An empty slot for the script's cards.
pub fn slot_of(alloc: Global, script: &Script) -> Result<SimSlot, Memory>
    requires { keeps_rules script.now ≡ true }
    ensures { IfOk result (λ slot. slot ≡ spec.slot_of script.now) }
{
    let images = script.images(alloc)?;
    let changes = script.changes(alloc)?;
    let faults = script.faults(alloc)?;
    SimSlot::new(alloc, images, changes, faults)
}

/// Makes a call, and puts its answer at the end.
fn put_answer(
    alloc: Global,
    out: &mut Vec<u8>,
    slot: &mut SimSlot,
    call: &Call,
) -> Result<(), Memory>
    ensures text { OnOk result (out.new.items
        ≡ out.old.items ++ spec.answer_text slot.old call.now) }
    ensures slot { slot.new ≡ after_call slot.old call.now }
{
    match call {
        Call::Exchange(command) => match slot.exchange(command) {
            Ok(response) => put_hex(alloc, out, response.write().as_slice()),
            Err(_) => put(out, "fault"),
        },
        Call::Reset => match slot.reset() {
            Ok(()) => put(out, "ok"),
            Err(_) => put(out, "fault"),
        },
        Call::World(event) => match slot.world(event) {
            Ok(()) => put(out, "ok"),
            Err(refusal) => put(out, refusal_word(refusal)),
        },
    }
}

/// Makes a line's call, and puts it with its answer at the end.
fn put_line(
    alloc: Global,
    out: &mut Vec<u8>,
    slot: &mut SimSlot,
    call: &Option<Call>,
) -> Result<(), Memory>
    ensures text { OnOk result (out.new.items ≡ out.old.items ++ spec.line_text slot.old call.now) }
    ensures slot { OnOk result (slot.new ≡ spec.after_line slot.old call.now) }
{
    let Some(call) = call else {
        return Ok(());
    };
    put_call(alloc, out, call)?;
    put(out, " ")?;
    put_answer(alloc, out, slot, call)?;
    put(out, "\n")
}

/// Makes the calls of the lines in order, and puts each with its answer at the end; gives the number of the first line that makes none and is
/// not empty. The first of them is line 2.
pub fn put_lines(
    alloc: Global,
    out: &mut Vec<u8>,
    slot: &mut SimSlot,
    lines: &[&[u8]],
) -> Result<Option<u64>, Memory>
    ensures bad { IfOk result (λ bad. bad ≡ spec.first_bad 2 (map (λ line. line.now) lines.now)) }
    ensures text { IfOk result (λ bad. bad ≡ None → out.new.items
        ≡ out.old.items ++ spec.played slot.old (map (λ line. line.now) lines.now)) }
{
    let mut number = 2u64;
    for line in lines {
        let call = call_of(alloc, line)?;
        if call.is_none() && !line.is_empty() {
            return Ok(Some(number));
        }
        put_line(alloc, out, slot, &call)?;
        number = number.saturating_add(1);
    }
    Ok(None)
}
