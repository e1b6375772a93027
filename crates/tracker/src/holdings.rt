// Channels and PIN sessions that actors hold.
ghost use Rattle.std.specs.Prelude.{◌≡◌, ◌≤◌, vec_len, false, if◌then◌else◌, IfSome, IsOk, OnOk, OnErr};
ghost use Rattle.std.specs.Vec.{vec_capacity};
ghost use Rattle.std.specs.List.{list_any};
ghost use Rattle.std.specs.Option.{option_copied};
ghost use Rattle.apdu.specs.Words.{is_one_of};
ghost use Rattle.channels.specs.Channels.{opened_number as number_opened};
ghost use Rattle.rules.specs.Channels as channel_rules;
ghost use Rattle.rules.specs.Sessions as session_rules;
ghost use Rattle.tracker.specs.Held as holdings;

use crate::history::is_living;
use crate::lists::{Change, change_each};
use apdu::{Memory, Sequence};
use channels::assigned_number;
use epoch_cache::Past;
use link::Final;
use report::Answer;
use rules::{Facts, Handle, Handles, Session, Sessions};
use script::Operation;
use std::alloc::Global;
use std::mem;

// ---- channels

fn is_handle_of(actor: u8, handle: u8, h: &Handle) -> bool
    ensures { result ≡ channel_rules.is_handle_of actor handle h.now }
{
    h.actor == actor && h.handle == handle
}

/// The handle of an actor under a reference.
pub fn handle_of(actor: u8, handle: u8, handles: &Handles) -> Option<&Handle>
    ensures { option_copied result ≡ channel_rules.handle_of actor handle handles.now }
{
    handles
        .as_slice()
        .iter()
        .find(|h| is_handle_of(actor, handle, h))
}

fn is_held_under(history: Past, number: u8, h: &Handle) -> bool
    ensures { result ≡ holdings.is_held_under history number h.now }
{
    is_living(history, h.epoch) && h.number == number
}

fn is_one_held(history: Past, handles: &[Handle], number: u8) -> bool
    ensures { result ≡ list_any (holdings.is_held_under history number) handles.now }
{
    handles.iter().any(|h| is_held_under(history, number, h))
}

/// Whether a held channel has this number.
#[tactic(auto, using(crate::proofs::Held::held_any))]
fn is_held(history: Past, handles: &Handles, number: u8) -> bool
    ensures { result ≡ is_one_of number (channel_rules.held_numbers history handles.now) }
{
    is_one_held(history, handles.as_slice(), number)
}

fn unless_held(history: Past, handles: &Handles, number: Option<u8>) -> Option<u8>
    ensures value { result
        ≡ holdings.unless_held (channel_rules.held_numbers history handles.now) number }
    ensures within { IfSome number (λ n. n ≤ 19) → IfSome result (λ n. n ≤ 19) }
{
    let number = number?;
    if is_held(history, handles, number) {
        None
    } else {
        Some(number)
    }
}

/// The channel that a MANAGE CHANNEL opened: one that no actor holds.
#[tactic(auto, using(crate::proofs::Held::opened_anew))]
pub fn opened_number(history: Past, handles: &Handles, answered: &Final) -> Option<u8>
    ensures value { result
        ≡ number_opened (channel_rules.held_numbers history handles.now) answered.now }
    ensures within { IfSome result (λ n. n ≤ 19) }
{
    unless_held(history, handles, assigned_number(answered))
}

fn keep_other_handles(actor: u8, handle: u8, handles: &mut Vec<Handle>)
    ensures items { handles.new.items ≡ channel_rules.without_handle actor handle handles.old.items }
    ensures bound { vec_len handles.new ≤ vec_len handles.old }
    ensures room { vec_capacity handles.new ≡ vec_capacity handles.old }
{
    handles.retain(|h| !is_handle_of(actor, handle, h));
}

fn drop_handle(alloc: Global, actor: u8, handle: u8, handles: &mut Handles)
    ensures { handles.new ≡ channel_rules.without_handle actor handle handles.old }
{
    let mut items = mem::replace(handles, Sequence::new(alloc)).into_vec();
    keep_other_handles(actor, handle, &mut items);
    *handles = Sequence::from_vec(items);
}

/// The end of an epoch, by this event.
#[derive(Drop)]
struct Ending {
    epoch: u64,
    event: u64,
}

impl Change<Handle> for Ending {
    ghost use Rattle.std.specs.Prelude.{true};
    ghost use Rattle.rules.specs.Channels.{ended_handle};

    ghost after = { λ e. ended_handle e.epoch e.event };

    ghost fits = { λ e h. true };

    fn apply(&self, h: &mut Handle) {
        if h.epoch == self.epoch {
            h.ended = Some(self.event);
        }
    }
}

#[tactic(auto, using(crate::proofs::EachItem::all_pass))]
fn end_handles(alloc: Global, epoch: u64, event: u64, handles: &mut Handles)
    ensures { handles.new ≡ channel_rules.ended_handles epoch event handles.old }
{
    change_each(alloc, handles, &Ending { epoch, event });
}

/// What a line does to the handles, where it is no answer.
pub fn handles_beside(alloc: Global, epoch: u64, facts: &Facts, handles: &mut Handles)
    ensures { handles.new ≡ (if facts.now.ends
        then channel_rules.ended_handles epoch facts.now.event handles.old else handles.old) }
{
    if facts.ends {
        end_handles(alloc, epoch, facts.event, handles);
    }
}

// ---- PIN sessions

fn is_session_of(actor: u8, key: u8, session: &Session) -> bool
    ensures { result ≡ session_rules.is_session_of actor key session.now }
{
    session.actor == actor && session.key == key
}

fn keep_other_sessions(actor: u8, key: u8, sessions: &mut Vec<Session>)
    ensures items { sessions.new.items ≡ session_rules.without_session actor key sessions.old.items }
    ensures bound { vec_len sessions.new ≤ vec_len sessions.old }
    ensures room { vec_capacity sessions.new ≡ vec_capacity sessions.old }
{
    sessions.retain(|p| !is_session_of(actor, key, p));
}

fn drop_session(alloc: Global, actor: u8, key: u8, sessions: &mut Sessions)
    ensures { sessions.new ≡ session_rules.without_session actor key sessions.old }
{
    let mut items = mem::replace(sessions, Sequence::new(alloc)).into_vec();
    keep_other_sessions(actor, key, &mut items);
    *sessions = Sequence::from_vec(items);
}

// ---- what an answer gives and takes

fn put_handle(handle: Handle, handles: &mut Vec<Handle>) -> Result<(), Memory>
    ensures ok { OnOk result (handles.new.items ≡ channel_rules.with_handle handle handles.old.items) }
    ensures err { OnErr result (handles.new.items ≡ handles.old.items) }
{
    handles.reserve(1)?;
    keep_other_handles(handle.actor, handle.handle, handles);
    let _ = handles.push(handle);
    Ok(())
}

fn add_handle(alloc: Global, handle: Handle, handles: &mut Handles) -> Result<(), Memory>
    ensures ok { OnOk result (handles.new ≡ channel_rules.with_handle handle handles.old) }
    ensures err { OnErr result (handles.new ≡ handles.old) }
{
    let mut items = mem::replace(handles, Sequence::new(alloc)).into_vec();
    let put = put_handle(handle, &mut items);
    *handles = Sequence::from_vec(items);
    put
}

fn put_session(session: Session, sessions: &mut Vec<Session>) -> Result<(), Memory>
    ensures ok { OnOk result (sessions.new.items ≡ session_rules.with_session session sessions.old.items) }
    ensures err { OnErr result (sessions.new.items ≡ sessions.old.items) }
{
    sessions.reserve(1)?;
    keep_other_sessions(session.actor, session.key, sessions);
    let _ = sessions.push(session);
    Ok(())
}

fn add_session(alloc: Global, session: Session, sessions: &mut Sessions) -> Result<(), Memory>
    ensures ok { OnOk result (sessions.new ≡ session_rules.with_session session sessions.old) }
    ensures err { OnErr result (sessions.new ≡ sessions.old) }
{
    let mut items = mem::replace(sessions, Sequence::new(alloc)).into_vec();
    let put = put_session(session, &mut items);
    *sessions = Sequence::from_vec(items);
    put
}

/// What an answer gives an actor, or takes from it; `epoch` is the one before the line.
pub fn hold(
    alloc: Global,
    actor: u8,
    operation: &Operation,
    answer: &Answer,
    epoch: u64,
    handles: &mut Handles,
    sessions: &mut Sessions,
) -> Result<(), Memory>
    ensures handles { OnOk result (handles.new
        ≡ channel_rules.handles_after actor operation.now answer.now epoch handles.old) }
    ensures sessions { OnOk result (sessions.new
        ≡ session_rules.sessions_after actor operation.now answer.now epoch sessions.old) }
    ensures no_handle { OnErr result (handles.new ≡ handles.old) }
    ensures no_session { OnErr result (sessions.new ≡ sessions.old) }
    ensures room { holdings.gives_holding operation.now answer.now ≡ false → IsOk result }
{
    match (operation, answer) {
        (Operation::OpenChannel { handle, .. }, Answer::Opened { channel }) => {
            let handle = Handle {
                actor,
                handle: *handle,
                number: *channel,
                epoch,
                ended: None,
            };
            add_handle(alloc, handle, handles)
        }
        (Operation::Close { handle }, _) => {
            drop_handle(alloc, actor, *handle, handles);
            Ok(())
        }
        (Operation::Verify { key, .. }, Answer::Verified) => {
            let session = Session {
                actor,
                key: *key,
                epoch,
            };
            add_session(alloc, session, sessions)
        }
        (Operation::End { key }, _) => {
            drop_session(alloc, actor, *key, sessions);
            Ok(())
        }
        (_, _) => Ok(()),
    }
}
