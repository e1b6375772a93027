// All that is kept of the lines, and what the current files are decoded to.
ghost use Rattle.std.specs.Prelude.{◌≡◌, ◌<◌, ◌≤◌, true, false, length, IsOk, IfOk, OnOk, OnErr};
ghost use Rattle.families.specs.Contents.{family_count};
ghost use Rattle.rules.specs.After.{decision_at, kept_after};
ghost use Rattle.rules.specs.Due.{kept_text};
ghost use Rattle.rules.specs.Kept.{nothing_kept as nothing_is_kept};
ghost use Rattle.tracker.specs.Held.{line_gives_holding};
ghost use Rattle.tracker.specs.Lines as kind;
ghost use Rattle.tracker.specs.Room.{HasRoom, line_fits};
ghost use Rattle.content_tracker.specs.Contents as spec;

use crate::Contents;
use crate::follow::row_written;
use apdu::{Memory, Text};
use card_model::WorldEvent;
use report::Line;
use rules::{Decision, Kept};
use script::Script;
use std::alloc::Global;
use std::marker::Model;
use tracker::Tracker;

/// What is kept of the lines of a report so far, as a `Tracker` keeps it; contracts see that. Beside it stands what the current files of each
/// family are decoded to, once it was shown: an update of the framework's own changes that by rows, and where a path of the family moves, or
/// the epoch ends, it is dropped.
#[derive(Drop)]
pub struct ContentTracker {
    alloc: Global,
    tracker: Tracker,
    contents: Contents,
    decodings: u64,
}

impl Model for ContentTracker {
    ghost use Rattle.rules.specs.declared.kept.Kept.{Kept as KeptValue};
    ghost use Rattle.content_tracker.specs.Contents.{AreOf};

    ghost Value = { KeptValue };

    ghost view = { λ t. t.tracker };

    ghost invariant = { λ t. AreOf t.tracker.files t.contents };
}

impl ContentTracker {
    /// Before the first line of a script's report.
    pub fn new(alloc: Global, script: &Script) -> Result<ContentTracker, Memory>
        requires { length script.now.actors ≤ 254 }
        ensures { IfOk result (λ tracker. tracker ≡ nothing_is_kept script.now) }
    {
        Ok(ContentTracker {
            alloc,
            tracker: Tracker::new(alloc, script)?,
            contents: Contents::new(),
            decodings: 0,
        })
    }

    /// All that is kept.
    pub fn kept(&self) -> &Kept
        ensures { result.now ≡ self.now }
    {
        self.tracker.kept()
    }

    /// How often the files of a family were decoded.
    pub fn decodings(&self) -> u64 {
        self.decodings
    }

    /// The text that is shown of a family, as its files are kept.
    pub fn text(&mut self, family: u8) -> Result<Text, Memory>
        requires { family < family_count }
        ensures same { self.new ≡ self.old }
        ensures text { IfOk result (λ text. text ≡ kept_text family self.old) }
    {
        let files = &self.tracker.kept().files;
        self.contents
            .text(self.alloc, family, files, &mut self.decodings)
    }

    /// The framework begins a turn.
    pub fn turn_of_framework(&mut self, script: &Script)
        requires actors { length script.now.actors ≤ 254 }
        requires room { HasRoom self.old }
        ensures { self.new ≡ kept_after script.now (Line.Turn 0) self.old }
    {
        self.tracker.turn_of_framework(script);
    }

    /// An actor begins a turn, which decides this.
    pub fn turn_of_actor(&mut self, script: &Script, actor: u8, decision: Decision)
        requires actors { length script.now.actors ≤ 254 }
        requires actor { 0 < actor }
        requires decided { decision ≡ decision_at script.now (Line.Turn actor) self.old }
        requires room { HasRoom self.old }
        ensures { self.new ≡ kept_after script.now (Line.Turn actor) self.old }
    {
        self.tracker.turn_of_actor(script, actor, decision);
    }

    /// An operation begins, which decides this.
    pub fn begin(&mut self, script: &Script, actor: u8, op: u32, decision: Decision)
        requires decided { decision ≡ decision_at script.now (Line.Begin actor op) self.old }
        requires room { HasRoom self.old }
        ensures { self.new ≡ kept_after script.now (Line.Begin actor op) self.old }
    {
        self.tracker.begin(script, actor, op, decision);
    }

    /// A command was sent, and the card answered. Behind want of memory nothing is promised of what is kept.
    pub fn exchange(&mut self, script: &Script, line: &Line) -> Result<(), Memory>
        requires kind { kind.is_exchange line.now ≡ true }
        requires operation { line_fits script.now line.now self.old.jobs ≡ true }
        requires room { HasRoom self.old }
        ensures { OnOk result (self.new ≡ kept_after script.now line.now self.old) }
    {
        let Line::Exchange {
            command,
            response,
            ..
        } = line
        else {
            unreachable!()
        };
        let kept = self.tracker.kept();
        let selected = kept.selected.as_ref();
        let row = row_written(selected, command, response);
        self.contents
            .leave_readings(selected, command, kept.chain.as_ref());
        match self.tracker.exchange(script, line) {
            Ok(()) => {
                let files = &self.tracker.kept().files;
                self.contents
                    .follow_command(self.alloc, command, row.as_ref(), files);
                Ok(())
            }
            Err(memory) => {
                self.contents.clear();
                Err(memory)
            }
        }
    }

    /// A command was sent, and no answer came.
    pub fn fail(&mut self, script: &Script, line: &Line)
        requires kind { kind.is_failed line.now ≡ true }
        requires room { HasRoom self.old }
        ensures { self.new ≡ kept_after script.now line.now self.old }
    {
        self.contents.clear();
        self.tracker.fail(script, line);
    }

    /// The card was reset.
    pub fn reset(&mut self, script: &Script, actor: u8)
        requires { HasRoom self.old }
        ensures { self.new ≡ kept_after script.now (Line.Reset actor) self.old }
    {
        self.contents.clear();
        self.tracker.reset(script, actor);
    }

    /// A reset failed.
    pub fn fail_reset(&mut self, script: &Script, actor: u8)
        requires { HasRoom self.old }
        ensures { self.new ≡ kept_after script.now (Line.ResetFailed actor) self.old }
    {
        self.contents.clear();
        self.tracker.fail_reset(script, actor);
    }

    /// An event of the world happened.
    pub fn happen(&mut self, script: &Script, actor: u8, event: WorldEvent)
        requires { HasRoom self.old }
        ensures { self.new ≡ kept_after script.now (Line.World actor event) self.old }
    {
        self.contents.follow_event(&event);
        self.tracker.happen(script, actor, event);
    }

    /// A family was published.
    pub fn publish(&mut self, script: &Script, line: &Line)
        requires kind { kind.is_published line.now ≡ true }
        requires room { HasRoom self.old }
        ensures { self.new ≡ kept_after script.now line.now self.old }
    {
        self.tracker.publish(script, line);
    }

    /// The end of an epoch was published.
    pub fn end_epoch(&mut self, script: &Script, number: u64, epoch: u64, event: u64)
        requires { HasRoom self.old }
        ensures { self.new ≡ kept_after script.now (Line.EpochEnd number epoch event) self.old }
    {
        self.tracker.end_epoch(script, number, epoch, event);
    }

    /// The framework's reading of a family was refused.
    pub fn refuse(&mut self, script: &Script, family: u8, event: u64)
        requires { HasRoom self.old }
        ensures { self.new ≡ kept_after script.now (Line.Refused family event) self.old }
    {
        self.tracker.refuse(script, family, event);
    }

    /// An operation was answered. Want of memory changes nothing, and comes only where the answer gives its actor a channel or a session.
    pub fn answer(&mut self, script: &Script, line: &Line) -> Result<(), Memory>
        requires kind { kind.is_answered line.now ≡ true }
        requires room { HasRoom self.old }
        ensures ok { OnOk result (self.new ≡ kept_after script.now line.now self.old) }
        ensures err { OnErr result (self.new ≡ self.old) }
        ensures room { line_gives_holding script.now line.now ≡ false → IsOk result }
    {
        self.tracker.answer(script, line)
    }
}
