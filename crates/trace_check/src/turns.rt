// The rule of turns: whose they are, what they send, publish and begin, and what a look shows.
ghost use Rattle.std.specs.Prelude.{◌≡◌, ◌≤◌, length, true};
ghost use Rattle.planner.specs.Room.{turn_fits};
ghost use Rattle.apdu.specs.Words.{has_value};
ghost use Rattle.rules.specs.Kept.{job_of};
ghost use Rattle.rules.specs.Rules as rules;
ghost use Rattle.trace_check.specs.Judging.{seen_state};

use crate::answers::is_turn_of;
use crate::boards::{Board, is_look_right};
use crate::same::{is_command, is_number, same_event};
use apdu::Command;
use card_model::{World, WorldEvent};
use planner::{
    begun_of, due_command, due_event, due_publication, has_operations_left, is_finished,
    is_reset_due, waits_on,
};
use report::{Answer, Line, Mode};
use rules::{Jobs, Kept, Turn};
use script::Script;

/// Whose turn comes behind so many turns: the schedule's, and then round from the framework to the last actor.
fn scheduled_actor(script: &Script, turns: u64) -> u64
    requires { length script.now.actors ≤ 254 }
    ensures { result ≡ rules.scheduled_actor script.now turns }
{
    match script.schedule.get(turns as usize) {
        Some(actor) => *actor as u64,
        None => {
            let behind = turns.saturating_sub(script.schedule.len() as u64);
            behind % (script.actors.len() as u64 + 1)
        }
    }
}

fn is_actor_right(script: &Script, mode: Mode, actor: u8, kept: &Kept) -> bool
    requires { length script.now.actors ≤ 254 }
    ensures { result ≡ rules.is_actor_right script.now mode actor kept.now }
{
    match mode {
        Mode::Replay => actor as u64 == scheduled_actor(script, kept.marks),
        Mode::Run => actor as usize <= script.actors.len(),
    }
}

fn is_bare_turn_right(mode: Mode, turn: &Turn) -> bool
    ensures { result ≡ rules.is_bare_turn_right mode turn.now }
{
    match mode {
        Mode::Replay => turn.idle,
        Mode::Run => false,
    }
}

/// Whether nothing that the turn has to do is left undone.
fn is_turn_done(world: &World, kept: &Kept) -> bool
    requires { turn_fits kept.now.turn.actor kept.now.jobs ≡ true }
    ensures { result ≡ rules.is_turn_done world.now kept.now }
{
    due_command(kept).is_none()
        && !is_reset_due(kept)
        && due_event(world, kept).is_none()
        && due_publication(kept).is_none()
}

/// The rule of turns at the end of a turn. Before the first mark there is none.
pub fn is_turn_right(mode: Mode, world: &World, kept: &Kept) -> bool
    requires { turn_fits kept.now.turn.actor kept.now.jobs ≡ true }
    ensures { result ≡ rules.is_turn_right mode world.now kept.now }
{
    if kept.turn.actor.is_none() {
        true
    } else if kept.turn.bare {
        is_bare_turn_right(mode, &kept.turn)
    } else {
        is_turn_done(world, kept)
    }
}

/// No turn begins where the run is finished.
fn is_mark_right(script: &Script, mode: Mode, world: &World, kept: &Kept, actor: u8) -> bool
    requires actors { length script.now.actors ≤ 254 }
    requires fits { turn_fits kept.now.turn.actor kept.now.jobs ≡ true }
    ensures { result ≡ rules.is_mark_right script.now mode world.now kept.now actor }
{
    !is_finished(script, kept)
        && is_actor_right(script, mode, actor, kept)
        && is_turn_right(mode, world, kept)
}

/// How many operations of an actor are answered.
fn answered_of(actor: u8, jobs: &Jobs) -> u32
    ensures { result ≡ (job_of actor jobs.now).answered }
{
    match jobs.get(actor as usize) {
        None => 0,
        Some(job) => job.answered,
    }
}

/// Operations begin in order, one at a time, directly behind the mark, and where they do not wait.
fn is_begin_right(script: &Script, kept: &Kept, actor: u8, op: u32) -> bool
    requires { length script.now.actors ≤ 254 }
    ensures { result ≡ rules.is_begin_right script.now kept.now actor op }
{
    kept.turn.bare
        && is_turn_of(actor, &kept.turn)
        && 0 < actor
        && begun_of(actor, &kept.jobs).is_none()
        && op == answered_of(actor, &kept.jobs)
        && has_operations_left(script, kept, actor)
        && waits_on(script, kept, actor).is_none()
}

fn is_command_right(kept: &Kept, actor: u8, command: &Command) -> bool
    requires { turn_fits kept.now.turn.actor kept.now.jobs ≡ true }
    ensures { result ≡ rules.is_command_right kept.now actor command.now }
{
    let due = due_command(kept);
    is_turn_of(actor, &kept.turn) && is_command(command, due.as_ref())
}

fn is_reset_right(kept: &Kept, actor: u8) -> bool
    ensures { result ≡ rules.is_reset_right kept.now actor }
{
    actor == 0 && is_turn_of(0, &kept.turn) && is_reset_due(kept)
}

fn is_event_due(event: WorldEvent, due: Option<WorldEvent>) -> bool
    ensures { result ≡ has_value (rules.same_event event) due }
{
    match due {
        None => false,
        Some(due) => same_event(event, due),
    }
}

fn is_event_right(world: &World, kept: &Kept, actor: u8, event: WorldEvent) -> bool
    ensures { result ≡ rules.is_event_right world.now kept.now actor event }
{
    is_turn_of(actor, &kept.turn) && is_event_due(event, due_event(world, kept))
}

/// The rule of turns at a line.
pub fn has_right_place(
    script: &Script,
    mode: Mode,
    world: &World,
    kept: &Kept,
    boards: &[Board],
    line: &Line,
) -> bool
    requires actors { length script.now.actors ≤ 254 }
    requires fits { turn_fits kept.now.turn.actor kept.now.jobs ≡ true }
    requires boards { length boards.now ≡ kept.now.publications }
    ensures { result ≡ rules.has_right_place script.now mode
        (seen_state world.now kept.now boards.now) line.now }
{
    match line {
        Line::Turn { actor } => is_mark_right(script, mode, world, kept, *actor),
        Line::Begin { actor, op } => is_begin_right(script, kept, *actor, *op),
        Line::Exchange { actor, command, .. } | Line::Failed { actor, command, .. } => {
            is_command_right(kept, *actor, command)
        }
        Line::Reset { actor } | Line::ResetFailed { actor } => is_reset_right(kept, *actor),
        Line::World { actor, event } => is_event_right(world, kept, *actor, *event),
        Line::Published { family, .. } => is_number(due_publication(kept), *family),
        Line::Answered { actor, answer, .. } => match answer {
            Answer::Look { seen } => is_look_right(mode, kept, boards, *actor, seen),
            _ => true,
        },
        Line::EpochEnd { .. } | Line::Refused { .. } => true,
    }
}
