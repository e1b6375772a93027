// The rule of faults: a call fails exactly where its number is in the fault list or the slot is empty, the card acted as the fault says,
// and each end of an epoch is published once.
ghost use Rattle.std.specs.Prelude.{◌≡◌, ◌==◌, ◌+◌, ◌<◌, ◌^◌};
ghost use Rattle.std.specs.Option.{option_copied};
ghost use Rattle.card_model.specs.Slot as slots;
ghost use Rattle.rules.specs.Rules as rules;

use crate::card::card_inside;
use card_model::{Fault, World};
use report::Line;
use rules::{Kept, Turn};
use script::Script;

fn is_at(call: u64, fault: &Fault) -> bool
    ensures { result ≡ (fault.now.at == call) }
{
    fault.at == call
}

/// The fault of the call of this number, where one is planned.
fn fault_at(script: &Script, call: u64) -> Option<&Fault>
    ensures { option_copied result ≡ slots.fault_at call script.now.faults }
{
    script
        .faults
        .as_slice()
        .iter()
        .find(|fault| is_at(call, fault))
}

/// The fault of the next call.
fn next_fault<'a>(script: &'a Script, kept: &Kept) -> Option<&'a Fault>
    requires { kept.now.history.calls + 1 < 2 ^ 64 }
    ensures { option_copied result ≡ rules.next_fault script.now kept.now }
{
    fault_at(script, kept.history.calls + 1)
}

/// Whether the next call fails.
fn is_failing(script: &Script, world: &World, kept: &Kept) -> bool
    requires { kept.now.history.calls + 1 < 2 ^ 64 }
    ensures { result ≡ rules.is_failing script.now world.now kept.now }
{
    next_fault(script, kept).is_some() || card_inside(world).is_none()
}

/// Whether the card acts all the same.
fn is_acting(script: &Script, world: &World, kept: &Kept) -> bool
    requires { kept.now.history.calls + 1 < 2 ^ 64 }
    ensures { result ≡ rules.is_acting script.now world.now kept.now }
{
    match next_fault(script, kept) {
        None => false,
        Some(fault) => fault.acted && card_inside(world).is_some(),
    }
}

/// Whether the line publishes the end of an epoch that the turn brought.
fn is_end_right(kept: &Kept, number: u64, epoch: u64, event: u64) -> bool
    requires { kept.now.publications + 1 < 2 ^ 64 }
    ensures { result ≡ rules.is_end_right kept.now number epoch event }
{
    match kept.turn.ended {
        None => false,
        Some((ended, at)) => number == kept.publications + 1 && ended == epoch && at == event,
    }
}

/// The rule of faults at a line.
pub fn has_right_fault(script: &Script, world: &World, kept: &Kept, line: &Line) -> bool
    requires calls { kept.now.history.calls + 1 < 2 ^ 64 }
    requires publications { kept.now.publications + 1 < 2 ^ 64 }
    ensures { result ≡ rules.has_right_fault script.now world.now kept.now line.now }
{
    match line {
        Line::Exchange { .. } | Line::Reset { .. } => !is_failing(script, world, kept),
        Line::Failed { acted, .. } => {
            is_failing(script, world, kept) && *acted == is_acting(script, world, kept)
        }
        Line::ResetFailed { .. } => is_failing(script, world, kept),
        Line::EpochEnd {
            number,
            epoch,
            event,
        } => is_end_right(kept, *number, *epoch, *event),
        _ => true,
    }
}

/// Whether the turn has published the end of an epoch that it brought.
pub fn is_end_published(turn: &Turn) -> bool
    ensures { result ≡ rules.is_end_published turn.now }
{
    turn.ended.is_none()
}
