// All that is kept of the lines, line by line.
ghost use Rattle.std.specs.Prelude.{◌≡◌, ◌<◌, ◌≤◌, true, false, length, IsOk, IfOk, OnOk, OnErr};
ghost use Rattle.rules.specs.After.{decision_at, kept_after};
ghost use Rattle.rules.specs.Kept.{nothing_kept as nothing_is_kept};
ghost use Rattle.tracker.specs.Held.{line_gives_holding};
ghost use Rattle.tracker.specs.Lines as kind;
ghost use Rattle.tracker.specs.Room.{HasRoom, line_fits as line_fits_of};

use crate::first::nothing_kept;
use crate::marks::{keep_begin, keep_turn_of_actor, keep_turn_of_framework};
use crate::operation::{keep_answered, keep_exchange, keep_failed};
use crate::plain::{
    keep_epoch_end, keep_failed_reset, keep_published, keep_refused, keep_reset, keep_world,
};
use crate::room::{has_room, line_fits};
use apdu::Memory;
use card_model::WorldEvent;
use report::Line;
use rules::{Decision, Kept};
use script::Script;
use std::alloc::Global;
use std::marker::Model;

/// What is kept of the lines of a report so far. Contracts see that. Each method follows one line, in a bounded number of steps.
#[derive(Drop)]
pub struct Tracker {
    alloc: Global,
    kept: Kept,
}

impl Model for Tracker {
    ghost use Rattle.rules.specs.declared.kept.Kept.{Kept as KeptValue};

    ghost Value = { KeptValue };

    ghost view = { λ t. t.kept };
}

impl Tracker {
    /// Before the first line of a script's report.
    pub fn new(alloc: Global, script: &Script) -> Result<Tracker, Memory>
        requires { length script.now.actors ≤ 254 }
        ensures { IfOk result (λ tracker. tracker ≡ nothing_is_kept script.now) }
    {
        Ok(Tracker {
            alloc,
            kept: nothing_kept(alloc, script)?,
        })
    }

    /// All that is kept.
    pub fn kept(&self) -> &Kept
        ensures { result.now ≡ self.now }
    {
        &self.kept
    }

    /// Whether one more line can be followed, whichever it is: no counter overflows, and the updates of each attempt fit into commands.
    pub fn has_room(&self) -> bool
        ensures enough { result ≡ true → HasRoom self.now }
        ensures exact { HasRoom self.now → result ≡ true }
    {
        has_room(&self.kept)
    }

    /// Whether what the line's operation names fits into commands, as it does in every script that was read.
    pub fn fits(&self, script: &Script, line: &Line) -> bool
        ensures { result ≡ line_fits_of script.now line.now self.now.jobs }
    {
        line_fits(script, line, &self.kept.jobs)
    }

    /// The framework begins a turn.
    pub fn turn_of_framework(&mut self, script: &Script)
        requires actors { length script.now.actors ≤ 254 }
        requires room { HasRoom self.old }
        ensures { self.new ≡ kept_after script.now (Line.Turn 0) self.old }
    {
        keep_turn_of_framework(self.alloc, script, &mut self.kept);
    }

    /// An actor begins a turn, which decides this.
    pub fn turn_of_actor(&mut self, script: &Script, actor: u8, decision: Decision)
        requires actors { length script.now.actors ≤ 254 }
        requires actor { 0 < actor }
        requires decided { decision ≡ decision_at script.now (Line.Turn actor) self.old }
        requires room { HasRoom self.old }
        ensures { self.new ≡ kept_after script.now (Line.Turn actor) self.old }
    {
        keep_turn_of_actor(self.alloc, script, actor, decision, &mut self.kept);
    }

    /// An operation begins, which decides this.
    pub fn begin(&mut self, script: &Script, actor: u8, op: u32, decision: Decision)
        requires decided { decision ≡ decision_at script.now (Line.Begin actor op) self.old }
        requires room { HasRoom self.old }
        ensures { self.new ≡ kept_after script.now (Line.Begin actor op) self.old }
    {
        keep_begin(self.alloc, script, actor, op, decision, &mut self.kept);
    }

    /// A command was sent, and the card answered. Behind want of memory nothing is promised of what is kept.
    pub fn exchange(&mut self, script: &Script, line: &Line) -> Result<(), Memory>
        requires kind { kind.is_exchange line.now ≡ true }
        requires operation { line_fits_of script.now line.now self.old.jobs ≡ true }
        requires room { HasRoom self.old }
        ensures { OnOk result (self.new ≡ kept_after script.now line.now self.old) }
    {
        keep_exchange(self.alloc, script, line, &mut self.kept)
    }

    /// A command was sent, and no answer came.
    pub fn fail(&mut self, script: &Script, line: &Line)
        requires kind { kind.is_failed line.now ≡ true }
        requires room { HasRoom self.old }
        ensures { self.new ≡ kept_after script.now line.now self.old }
    {
        keep_failed(self.alloc, script, line, &mut self.kept);
    }

    /// The card was reset.
    pub fn reset(&mut self, script: &Script, actor: u8)
        requires { HasRoom self.old }
        ensures { self.new ≡ kept_after script.now (Line.Reset actor) self.old }
    {
        keep_reset(self.alloc, script, actor, &mut self.kept);
    }

    /// A reset failed.
    pub fn fail_reset(&mut self, script: &Script, actor: u8)
        requires { HasRoom self.old }
        ensures { self.new ≡ kept_after script.now (Line.ResetFailed actor) self.old }
    {
        keep_failed_reset(self.alloc, script, actor, &mut self.kept);
    }

    /// An event of the world happened.
    pub fn happen(&mut self, script: &Script, actor: u8, event: WorldEvent)
        requires { HasRoom self.old }
        ensures { self.new ≡ kept_after script.now (Line.World actor event) self.old }
    {
        keep_world(self.alloc, script, actor, event, &mut self.kept);
    }

    /// A family was published.
    pub fn publish(&mut self, script: &Script, line: &Line)
        requires kind { kind.is_published line.now ≡ true }
        requires room { HasRoom self.old }
        ensures { self.new ≡ kept_after script.now line.now self.old }
    {
        keep_published(self.alloc, script, line, &mut self.kept);
    }

    /// The end of an epoch was published.
    pub fn end_epoch(&mut self, script: &Script, number: u64, epoch: u64, event: u64)
        requires { HasRoom self.old }
        ensures { self.new ≡ kept_after script.now (Line.EpochEnd number epoch event) self.old }
    {
        keep_epoch_end(self.alloc, script, number, epoch, event, &mut self.kept);
    }

    /// The framework's reading of a family was refused.
    pub fn refuse(&mut self, script: &Script, family: u8, event: u64)
        requires { HasRoom self.old }
        ensures { self.new ≡ kept_after script.now (Line.Refused family event) self.old }
    {
        keep_refused(self.alloc, script, family, event, &mut self.kept);
    }

    /// An operation was answered. Want of memory changes nothing, and comes only where the answer gives its actor a channel or a session.
    pub fn answer(&mut self, script: &Script, line: &Line) -> Result<(), Memory>
        requires kind { kind.is_answered line.now ≡ true }
        requires room { HasRoom self.old }
        ensures ok { OnOk result (self.new ≡ kept_after script.now line.now self.old) }
        ensures err { OnErr result (self.new ≡ self.old) }
        ensures room { line_gives_holding script.now line.now ≡ false → IsOk result }
    {
        keep_answered(self.alloc, script, line, &mut self.kept)
    }
}
