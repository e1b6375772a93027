// The epochs and the PIN sessions that an actor may use.
ghost use Rattle.std.specs.Prelude.{◌≡◌, is_none};
ghost use Rattle.std.specs.Option.{option_copied};
ghost use Rattle.rules.specs.History as history_rules;
ghost use Rattle.rules.specs.Sessions as session_rules;

use epoch_cache::Past;
use fcp::Need;
use rules::{Session, Sessions};

/// Whether the epoch of this number lives.
pub fn is_living(history: Past, epoch: u64) -> bool
    ensures { result ≡ history_rules.is_living history epoch }
{
    history.living && history.epoch == epoch
}

/// The same of an epoch that there may be.
pub fn lives_in(history: Past, epoch: Option<u64>) -> bool
    ensures { result ≡ history_rules.lives_in history epoch }
{
    match epoch {
        None => false,
        Some(epoch) => is_living(history, epoch),
    }
}

fn is_session_of(actor: u8, key: u8, session: &Session) -> bool
    ensures { result ≡ session_rules.is_session_of actor key session.now }
{
    session.actor == actor && session.key == key
}

fn session_of(actor: u8, key: u8, sessions: &Sessions) -> Option<&Session>
    ensures { option_copied result ≡ session_rules.session_of actor key sessions.now }
{
    sessions
        .as_slice()
        .iter()
        .find(|session| is_session_of(actor, key, session))
}

fn has_living_session(history: Past, actor: u8, key: u8, sessions: &Sessions) -> bool
    ensures { result ≡ session_rules.has_living_session history actor key sessions.now }
{
    match session_of(actor, key, sessions) {
        None => false,
        Some(session) => is_living(history, session.epoch),
    }
}

/// Whether an actor has the session that an access asks for. What is never allowed is left to the card to refuse.
pub fn has_needed_session(history: Past, actor: u8, sessions: &Sessions, need: Need) -> bool
    ensures { result ≡ is_none (session_rules.lacking_key history actor sessions.now need) }
{
    match need {
        Need::Always | Need::Never => true,
        Need::Key(key) => has_living_session(history, actor, key, sessions),
    }
}
