// The epochs, channels and PIN sessions that an actor may use.
ghost use Rattle.std.specs.Prelude.{◌≡◌, true};
ghost use Rattle.std.specs.Option.{option_copied};
ghost use Rattle.rules.specs.History as history_rules;
ghost use Rattle.rules.specs.Channels as channel_rules;
ghost use Rattle.rules.specs.Sessions as session_rules;
ghost use Rattle.rules.specs.Work as spec;
ghost use Rattle.planner.specs.Room.{channel_fits, handles_fit};

use epoch_cache::Past;
use fcp::Need;
use rules::{Handle, Handles, Kept, Session, Sessions};

/// Whether the epoch of this number lives.
pub fn is_living(history: Past, epoch: u64) -> bool
    ensures { result ≡ history_rules.is_living history epoch }
{
    history.living && history.epoch == epoch
}

/// The same of an epoch that there may be.
pub fn lives_in(history: Past, epoch: Option<u64>) -> bool
    ensures { result ≡ history_rules.lives_in history epoch }
{
    match epoch {
        None => false,
        Some(epoch) => is_living(history, epoch),
    }
}

// ---- channels

fn is_handle_of(actor: u8, handle: u8, h: &Handle) -> bool
    ensures { result ≡ channel_rules.is_handle_of actor handle h.now }
{
    h.actor == actor && h.handle == handle
}

/// The channel that an actor holds under a reference.
pub fn handle_of(actor: u8, handle: u8, handles: &Handles) -> Option<&Handle>
    ensures { option_copied result ≡ channel_rules.handle_of actor handle handles.now }
{
    handles
        .as_slice()
        .iter()
        .find(|h| is_handle_of(actor, handle, h))
}

fn living_handle<'a>(kept: &Kept, held: Option<&'a Handle>) -> Option<&'a Handle>
    requires { channel_fits (option_copied held) ≡ true }
    ensures value { option_copied result ≡ spec.living_handle kept.now (option_copied held.entry) }
    ensures fits { channel_fits (option_copied result) ≡ true }
{
    let held = held?;
    if is_living(kept.history, held.epoch) {
        Some(held)
    } else {
        None
    }
}

/// The same while the epoch of the channel lives.
#[tactic(auto, using(crate::proofs::Found::handle_found))]
pub fn living_handle_of(kept: &Kept, actor: u8, handle: u8) -> Option<&Handle>
    requires { handles_fit kept.now.handles ≡ true }
    ensures value { option_copied result ≡ spec.living_handle kept.now
        (channel_rules.handle_of actor handle kept.now.handles) }
    ensures fits { channel_fits (option_copied result) ≡ true }
{
    living_handle(kept, handle_of(actor, handle, &kept.handles))
}

// ---- PIN sessions

fn is_session_of(actor: u8, key: u8, session: &Session) -> bool
    ensures { result ≡ session_rules.is_session_of actor key session.now }
{
    session.actor == actor && session.key == key
}

fn session_of(actor: u8, key: u8, sessions: &Sessions) -> Option<&Session>
    ensures { option_copied result ≡ session_rules.session_of actor key sessions.now }
{
    sessions
        .as_slice()
        .iter()
        .find(|session| is_session_of(actor, key, session))
}

/// Whether an actor has a session of this key, of whatever epoch.
pub fn has_session(actor: u8, key: u8, sessions: &Sessions) -> bool
    ensures { result ≡ session_rules.has_session actor key sessions.now }
{
    session_of(actor, key, sessions).is_some()
}

fn has_living_session(history: Past, actor: u8, key: u8, sessions: &Sessions) -> bool
    ensures { result ≡ session_rules.has_living_session history actor key sessions.now }
{
    match session_of(actor, key, sessions) {
        None => false,
        Some(session) => is_living(history, session.epoch),
    }
}

/// The key of the session that an actor lacks for what an access asks for. What is never allowed is
/// left to the card to refuse.
pub fn lacking_key(history: Past, actor: u8, sessions: &Sessions, need: Need) -> Option<u8>
    ensures { result ≡ session_rules.lacking_key history actor sessions.now need }
{
    match need {
        Need::Always | Need::Never => None,
        Need::Key(key) => {
            if has_living_session(history, actor, key, sessions) {
                None
            } else {
                Some(key)
            }
        }
    }
}
