// PIN sessions, and what an access asks for.
ghost use Rattle.std.specs.Prelude.{◌≡◌, Some, None, OnOk, IfErr};
ghost use Rattle.epoch_cache.specs.Sessions as spec;

use fcp::Need;
use std::marker::Model;
use thiserror::Error;

/// The PIN of a key reference was verified in an epoch (ETSI TS 102 221 clause 11.1.9). Contracts see the key and the epoch. A session
/// cannot be copied, and must be spent by its end.
pub struct PinSession {
    key: u8,
    epoch: u64,
}

impl Model for PinSession {
    ghost use Rattle.epoch_cache.specs.Sessions.{SessionValue};

    ghost Value = { SessionValue };

    ghost view = { λ s. record { key = s.key; epoch = s.epoch } };
}

impl PinSession {
    /// The session that a VERIFY of this key gave in this epoch.
    pub fn granted(key: u8, epoch: u64) -> PinSession
        ensures { result ≡ record { key = key; epoch = epoch } }
    {
        PinSession { key, epoch }
    }

    pub fn key(&self) -> u8
        ensures { result ≡ self.now.key }
    {
        self.key
    }

    pub fn epoch(&self) -> u64
        ensures { result ≡ self.now.epoch }
    {
        self.epoch
    }

    /// Spends the session, and sends nothing.
    pub fn end(self) {
        let PinSession { key: _, epoch: _ } = self;
    }

    fn is_of(&self, key: u8, epoch: u64) -> bool
        ensures { result ≡ spec.is_session key epoch self.now }
    {
        self.key == key && self.epoch == epoch
    }
}

/// The PIN of this key reference is to be verified first.
#[derive(Clone, Copy, Debug, PartialEq, Eq, Error)]
#[error("the PIN of key reference {0:02X} is not verified")]
pub struct NeedsPin(pub u8);

fn has_session(key: u8, sessions: &[PinSession], epoch: u64) -> bool
    ensures { result ≡ spec.has_session key epoch sessions.now }
{
    sessions.iter().any(|session| session.is_of(key, epoch))
}

/// Whether these sessions give in this epoch what an access asks for. What is never allowed is left to the card to refuse.
pub fn allowed(need: &Need, sessions: &[PinSession], epoch: u64) -> Result<(), NeedsPin>
    ensures ok { OnOk result (spec.missing_key need.now sessions.now epoch ≡ None) }
    ensures needs { IfErr result (λ error.
        spec.missing_key need.now sessions.now epoch ≡ Some error.0) }
{
    match *need {
        Need::Key(key) => {
            if has_session(key, sessions, epoch) {
                Ok(())
            } else {
                Err(NeedsPin(key))
            }
        }
        Need::Always | Need::Never => Ok(()),
    }
}
