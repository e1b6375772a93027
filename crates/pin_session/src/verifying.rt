// A VERIFY, which begins a PIN session.
ghost use Rattle.std.specs.Prelude.{◌≡◌, ◌<◌, Some, length};
ghost use Rattle.link.specs.Exchanges.{Grows, Plays, added, seen};
ghost use Rattle.pin_session.specs.Sessions as spec;
ghost use Rattle.pin_session.specs.Sessions.{FailsOnFault, verified};

use apdu::{Command, Response, Sw};
use arrayvec::ArrayVec;
use card_model::{Slot, SlotFault, Step, Trail};
use epoch_cache::PinSession;
use thiserror::Error;

const VERIFY: u8 = 0x20;

/// Why there is no session.
#[derive(Clone, Copy, Debug, PartialEq, Eq, Error)]
pub enum VerifyError {
    /// The card answered another status than a success.
    #[error("the PIN was not verified")]
    Status(Sw),
    /// The exchange failed, which is the last step of the trail.
    #[error("the exchange failed")]
    Slot,
}

/// Sends one VERIFY of a key reference with the eight bytes of a PIN, which nothing follows, and
/// gives the session of this epoch where it succeeds.
pub fn verify<S: Slot>(
    slot: &mut S,
    key: u8,
    pin: &[u8; 8],
    epoch: u64,
    trail: &mut Trail,
) -> Result<PinSession, VerifyError>
    requires { length trail.old < 16 }
    ensures trail { Grows 1 trail.old trail.new }
    ensures sends { verified key pin.now epoch (added trail.old trail.new) ≡ Some result }
    ensures slot { Plays (seen (S.world slot.old) (S.plan slot.old) (S.faults slot.old))
        (added trail.old trail.new)
        (seen (S.world slot.new) (S.plan slot.new) (S.faults slot.new)) }
    ensures cause { FailsOnFault (S.faults slot.old) (S.faults slot.new) result }
{
    let command = verify_command(key, pin);
    let outcome = slot.exchange(&command);
    let answer = session_by(key, epoch, &outcome);
    trail.push(Step { command, outcome });
    answer
}

fn verify_command(key: u8, pin: &[u8; 8]) -> Command
    ensures { result ≡ spec.verify_command key pin.now }
{
    let mut body = ArrayVec::new();
    let _ = body.try_extend_from_slice(pin.as_slice());
    Command {
        class: 0,
        ins: VERIFY,
        p1: 0,
        p2: key,
        body,
        le: None,
    }
}

// The session that the answer gives.
fn session_by(
    key: u8,
    epoch: u64,
    outcome: &Result<Response, SlotFault>,
) -> Result<PinSession, VerifyError>
    ensures { result ≡ spec.session_by key epoch outcome.now }
{
    match outcome {
        Ok(response) => {
            if response.sw.is_success() {
                Ok(PinSession::granted(key, epoch))
            } else {
                Err(VerifyError::Status(response.sw))
            }
        }
        Err(_) => Err(VerifyError::Slot),
    }
}
