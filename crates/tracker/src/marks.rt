// The lines that begin a turn, and an operation in it.
ghost use Rattle.std.specs.Prelude.{◌≡◌, ◌<◌, ◌≤◌, length};
ghost use Rattle.rules.specs.After as rules;
ghost use Rattle.rules.specs.After.{kept_after};
ghost use Rattle.tracker.specs.Marks as marks;
ghost use Rattle.tracker.specs.Room.{HasRoom};

use crate::at::{begin_at, mark_actor, mark_framework};
use crate::family::{family_at, family_of_begun};
use crate::kept::keep_plain;
use crate::own::fresh_begun;
use crate::turn::turn_begun;
use planner::{family_read, framework_work, is_idle, operation_at};
use report::Line;
use rules::{Decision, Kept, Stage, Turn, Work};
use script::Script;
use std::alloc::Global;

// A turn begins.
fn turn_at(actor: u8, idle: bool, family: Option<u8>, work: Work) -> Turn
    ensures { result ≡ marks.turn_marked actor idle family work }
{
    Turn {
        actor: Some(actor),
        bare: true,
        idle,
        work,
        family,
        stage: Stage::Fresh,
        opened: None,
        outcome: None,
        happened: false,
        updated: false,
        published: None,
        ended: None,
        refused: None,
    }
}

/// The framework begins a turn.
pub fn keep_turn_of_framework(alloc: Global, script: &Script, kept: &mut Kept)
    requires actors { length script.now.actors ≤ 254 }
    requires room { HasRoom kept.old }
    ensures { kept.new ≡ kept_after script.now (Line.Turn 0) kept.old }
{
    let idle = is_idle(script, kept, 0);
    let work = framework_work(kept);
    let family = family_read(kept);
    let _ = keep_plain(alloc, script, &Line::Turn { actor: 0 }, kept);
    mark_framework(family, &mut kept.jobs);
    kept.turn = turn_at(0, idle, family, work);
}

/// An actor begins a turn. `decision` is what that decides.
pub fn keep_turn_of_actor(
    alloc: Global,
    script: &Script,
    actor: u8,
    decision: Decision,
    kept: &mut Kept,
)
    requires actors { length script.now.actors ≤ 254 }
    requires actor { 0 < actor }
    requires decided { decision ≡ rules.decision_at script.now (Line.Turn actor) kept.old }
    requires room { HasRoom kept.old }
    ensures { kept.new ≡ kept_after script.now (Line.Turn actor) kept.old }
{
    let Decision { work, attempt } = decision;
    let idle = is_idle(script, kept, actor);
    let family = family_at(script, actor, kept);
    let _ = keep_plain(alloc, script, &Line::Turn { actor }, kept);
    mark_actor(actor, attempt, &mut kept.jobs);
    kept.turn = turn_at(actor, idle, family, work);
}

/// An operation begins. `decision` is what that decides.
pub fn keep_begin(
    alloc: Global,
    script: &Script,
    actor: u8,
    op: u32,
    decision: Decision,
    kept: &mut Kept,
)
    requires decided { decision ≡ rules.decision_at script.now (Line.Begin actor op) kept.old }
    requires room { HasRoom kept.old }
    ensures { kept.new ≡ kept_after script.now (Line.Begin actor op) kept.old }
{
    let Decision { work, attempt } = decision;
    let history = kept.history;
    let begun = fresh_begun(alloc, op, history);
    let family = family_of_begun(kept, Some(&begun), operation_at(script, actor, op));
    let _ = keep_plain(alloc, script, &Line::Begin { actor, op }, kept);
    begin_at(alloc, actor, op, history, attempt, &mut kept.jobs);
    turn_begun(work, family, &mut kept.turn);
}
