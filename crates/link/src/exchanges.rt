// A command with all its exchanges.
ghost use Rattle.std.specs.Prelude.{◌≡◌, ◌≤◌, ◌<◌, ◌+◌, ◌-◌, ◌∷◌, ◌++◌, [], None, Some, Ok, IfSome, length};
ghost use Rattle.std.specs.Option.{option_copied};
ghost use Rattle.link.specs.Commands.{chain_after, continued, count_of, most_exchanges};
ghost use Rattle.link.specs.Exchanges.{Grows, Ends, Plays, Exchanges, FailsOnFault, added, answer_of, exchanged, seen};

use crate::chain::{Chain, VERIFY};
use crate::status::wants_more;
use apdu::{Command, Response, Sw};
use card_model::{Slot, SlotFault, Step, Trail};
use thiserror::Error;

/// Why a command has no final response.
#[derive(Clone, Copy, Debug, PartialEq, Eq, Error)]
pub enum LinkError {
    /// An exchange failed, which is the last step of the trail.
    #[error("an exchange failed")]
    Slot,
    /// The fourth exchange was answered 61XX or 6CXX.
    #[error("the fourth response asks for one exchange more")]
    Loop(Sw),
}

/// Sends a command, and what its responses 61XX and 6CXX ask for, and gives the final response.
pub fn transmit<S: Slot>(
    slot: &mut S,
    command: &Command,
    trail: &mut Trail,
) -> Result<Response, LinkError>
    requires { length trail.old ≤ 12 }
    ensures trail { Grows 4 trail.old trail.new }
    ensures sends { exchanged command.now None (added trail.old trail.new) ≡ Some (result, []) }
    ensures ends { Ends most_exchanges trail.old trail.new result }
    ensures slot { Plays (seen (S.world slot.old) (S.plan slot.old) (S.faults slot.old))
        (added trail.old trail.new)
        (seen (S.world slot.new) (S.plan slot.new) (S.faults slot.new)) }
    ensures cause { FailsOnFault (S.faults slot.old) (S.faults slot.new) result }
{
    go_on(slot, command, None, trail)
}

// Sends the command that is due behind a chain, and what follows.
fn go_on<S: Slot>(
    slot: &mut S,
    due: &Command,
    before: Option<&Chain>,
    trail: &mut Trail,
) -> Result<Response, LinkError>
    requires due { continued due.now (option_copied before) ≡ option_copied before }
    requires few { count_of (option_copied before) < most_exchanges }
    requires room { length trail.old ≤ 12 + count_of (option_copied before) }
    ensures trail { Grows (most_exchanges - count_of (option_copied before.entry))
        trail.old trail.new }
    ensures sends { exchanged due.now (option_copied before.entry) (added trail.old trail.new)
        ≡ Some (result, []) }
    ensures ends { Ends (most_exchanges - count_of (option_copied before.entry))
        trail.old trail.new result }
    ensures slot { Plays (seen (S.world slot.old) (S.plan slot.old) (S.faults slot.old))
        (added trail.old trail.new)
        (seen (S.world slot.new) (S.plan slot.new) (S.faults slot.new)) }
    ensures cause { FailsOnFault (S.faults slot.old) (S.faults slot.new) result }
{
    let response = match exchange(slot, due, trail) {
        Ok(response) => response,
        Err(_) => return Err(LinkError::Slot),
    };
    match chain_behind(due, &response, before) {
        Some(chain) => go_on(slot, &chain.next, Some(&chain), trail),
        None => final_response(due, response),
    }
}

// The chain behind an exchange that was due behind a chain.
fn chain_behind(due: &Command, response: &Response, before: Option<&Chain>) -> Option<Chain>
    requires { continued due.now (option_copied before) ≡ option_copied before }
    ensures value { result ≡ chain_after due.now response.now (option_copied before.entry) }
    ensures rises { IfSome result
        (λ chain. chain.count ≡ count_of (option_copied before.entry) + 1) }
    ensures few { IfSome result (λ chain. chain.count < most_exchanges) }
    ensures due { IfSome result (λ chain. continued chain.next (Some chain) ≡ Some chain) }
{
    Chain::after(due, response, before)
}

// What the last response of a command comes to.
fn final_response(command: &Command, response: Response) -> Result<Response, LinkError>
    ensures { result ≡ answer_of command.now (Ok response) }
{
    if wants_more(response.sw) && command.ins != VERIFY {
        Err(LinkError::Loop(response.sw))
    } else {
        Ok(response)
    }
}

// Sends a command, and adds the step to the trail.
fn exchange<S: Slot>(
    slot: &mut S,
    command: &Command,
    trail: &mut Trail,
) -> Result<Response, SlotFault>
    requires { length trail.old < 16 }
    ensures step { trail.new
        ≡ trail.old ++ (record { command = command.now; outcome = result }) ∷ [] }
    ensures slot { Exchanges (seen (S.world slot.old) (S.plan slot.old) (S.faults slot.old))
        (record { command = command.now; outcome = result })
        (seen (S.world slot.new) (S.plan slot.new) (S.faults slot.new)) }
{
    let outcome = slot.exchange(command);
    trail.push(Step {
        command: command.copy(),
        outcome: copy_of(&outcome),
    });
    outcome
}

fn copy_of(outcome: &Result<Response, SlotFault>) -> Result<Response, SlotFault>
    ensures { result ≡ outcome.now }
{
    match outcome {
        Ok(response) => Ok(response.copy()),
        Err(fault) => Err(*fault),
    }
}
