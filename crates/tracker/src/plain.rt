// The lines that belong to no operation.
ghost use Rattle.std.specs.Prelude.{◌≡◌, true};
ghost use Rattle.rules.specs.After.{kept_after};
ghost use Rattle.tracker.specs.Lines.{is_published};
ghost use Rattle.tracker.specs.Room.{HasRoom};

use crate::kept::keep_plain;
use crate::turn::{turn_happened, turn_published, turn_refused, turn_stopped, turn_told};
use card_model::WorldEvent;
use report::Line;
use rules::Kept;
use script::Script;
use std::alloc::Global;

/// The card was reset.
pub fn keep_reset(alloc: Global, script: &Script, actor: u8, kept: &mut Kept)
    requires { HasRoom kept.old }
    ensures { kept.new ≡ kept_after script.now (Line.Reset actor) kept.old }
{
    let epoch = kept.history.epoch;
    let facts = keep_plain(alloc, script, &Line::Reset { actor }, kept);
    turn_stopped(epoch, &facts, &mut kept.turn);
}

/// A reset failed.
pub fn keep_failed_reset(alloc: Global, script: &Script, actor: u8, kept: &mut Kept)
    requires { HasRoom kept.old }
    ensures { kept.new ≡ kept_after script.now (Line.ResetFailed actor) kept.old }
{
    let epoch = kept.history.epoch;
    let facts = keep_plain(alloc, script, &Line::ResetFailed { actor }, kept);
    turn_stopped(epoch, &facts, &mut kept.turn);
}

/// An event of the world happened.
pub fn keep_world(alloc: Global, script: &Script, actor: u8, event: WorldEvent, kept: &mut Kept)
    requires { HasRoom kept.old }
    ensures { kept.new ≡ kept_after script.now (Line.World actor event) kept.old }
{
    let epoch = kept.history.epoch;
    let facts = keep_plain(alloc, script, &Line::World { actor, event }, kept);
    turn_happened(epoch, &facts, &mut kept.turn);
}

/// The end of an epoch was published.
pub fn keep_epoch_end(
    alloc: Global,
    script: &Script,
    number: u64,
    epoch: u64,
    event: u64,
    kept: &mut Kept,
)
    requires { HasRoom kept.old }
    ensures { kept.new ≡ kept_after script.now (Line.EpochEnd number epoch event) kept.old }
{
    let line = Line::EpochEnd {
        number,
        epoch,
        event,
    };
    let _ = keep_plain(alloc, script, &line, kept);
    turn_told(&mut kept.turn);
}

/// The framework's reading of a family was refused.
pub fn keep_refused(alloc: Global, script: &Script, family: u8, event: u64, kept: &mut Kept)
    requires { HasRoom kept.old }
    ensures { kept.new ≡ kept_after script.now (Line.Refused family event) kept.old }
{
    let _ = keep_plain(alloc, script, &Line::Refused { family, event }, kept);
    turn_refused(&mut kept.turn);
}

/// A family was published.
pub fn keep_published(alloc: Global, script: &Script, line: &Line, kept: &mut Kept)
    requires kind { is_published line.now ≡ true }
    requires room { HasRoom kept.old }
    ensures { kept.new ≡ kept_after script.now line.now kept.old }
{
    let _ = keep_plain(alloc, script, line, kept);
    if let Line::Published { number, .. } = line {
        turn_published(*number, &mut kept.turn);
    }
}
