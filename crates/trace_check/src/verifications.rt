// The rule of verifications: each VERIFY stands in the lines of a verify operation, at most one in each, and is its command.
ghost use Rattle.std.specs.Prelude.{◌≡◌};
ghost use Rattle.std.specs.Option.{option_copied};
ghost use Rattle.apdu.specs.Apdu.{same_command as same_commands};
ghost use Rattle.rules.specs.Rules as rules;
ghost use Rattle.rules.specs.Sessions.{verify_command};

use crate::same::same_bytes;
use apdu::Command;
use planner::{begun_of, operation_now};
use report::Line;
use rules::{Begun, Kept};
use script::{Operation, Script};

const VERIFY: u8 = 0x20;

/// The operation of the turn that has begun and is not answered.
pub fn turn_operation<'a>(script: &'a Script, kept: &Kept) -> Option<&'a Operation>
    ensures { option_copied result ≡ rules.turn_operation script.now kept.now }
{
    match kept.turn.actor {
        None => None,
        Some(actor) => operation_now(script, actor, &kept.jobs),
    }
}

fn begun_in_turn(kept: &Kept) -> Option<&Begun>
    ensures { option_copied result ≡ rules.begun_in_turn kept.now kept.now.turn.actor }
{
    match kept.turn.actor {
        None => None,
        Some(actor) => begun_of(actor, &kept.jobs),
    }
}

fn has_verified(begun: Option<&Begun>) -> bool
    ensures { result ≡ rules.has_verified (option_copied begun.entry) }
{
    match begun {
        None => false,
        Some(begun) => begun.verified,
    }
}

/// Whether the command is VERIFY PIN of this key and PIN, ETSI TS 102 221 clause 11.1.9.
fn is_verify(command: &Command, key: u8, pin: &[u8; 8]) -> bool
    ensures { result ≡ same_commands command.now (verify_command key pin.now) }
{
    command.class == 0
        && command.ins == VERIFY
        && command.p1 == 0
        && command.p2 == key
        && same_bytes(command.body.as_slice(), pin)
        && command.le.is_none()
}

fn is_verify_of(operation: Option<&Operation>, command: &Command) -> bool
    ensures { result ≡ rules.is_verify_of (option_copied operation.entry) command.now }
{
    match operation {
        Some(Operation::Verify { key, pin }) => is_verify(command, *key, pin),
        _ => false,
    }
}

fn is_verify_right(script: &Script, kept: &Kept, command: &Command) -> bool
    ensures { result ≡ rules.is_verify_right script.now kept.now command.now }
{
    if command.ins == VERIFY {
        is_verify_of(turn_operation(script, kept), command) && !has_verified(begun_in_turn(kept))
    } else {
        true
    }
}

/// The rule of verifications at a line.
pub fn has_right_verify(script: &Script, kept: &Kept, line: &Line) -> bool
    ensures { result ≡ rules.has_right_verify script.now kept.now line.now }
{
    match line {
        Line::Exchange { command, .. } | Line::Failed { command, .. } => {
            is_verify_right(script, kept, command)
        }
        _ => true,
    }
}
