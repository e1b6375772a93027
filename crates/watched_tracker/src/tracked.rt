// All that is kept of the lines, with the watches of the actors.
ghost use Rattle.std.specs.Prelude.{◌≡◌, ◌<◌, ◌≤◌, [], ◌∷◌, None, Some, true, false, length, map, IsOk, IfOk, OnOk, OnErr};
ghost use Rattle.script_reader.specs.Rules.{keeps_rules};
ghost use Rattle.families.specs.Contents.{family_count};
ghost use Rattle.rules.specs.After.{decision_at, kept_after};
ghost use Rattle.rules.specs.Due.{kept_text};
ghost use Rattle.rules.specs.Kept.{job_of, nothing_kept as nothing_is_kept};
ghost use Rattle.rules.specs.Watching.{notices_of};
ghost use Rattle.tracker.specs.Held.{line_gives_holding};
ghost use Rattle.tracker.specs.Lines as kind;
ghost use Rattle.tracker.specs.Room.{HasRoom, line_fits};
ghost use Rattle.watched_tracker.specs.Asked as asked;
ghost use Rattle.watched_tracker.specs.Watched.{keeping};
ghost use Rattle.watched_tracker.specs.Watchers as spec;

use crate::asked::mask_asked;
use crate::watcher::{Offering, Watcher};
use apdu::{Memory, Sequence, Text};
use arrayvec::ArrayVec;
use card_model::WorldEvent;
use content_tracker::ContentTracker;
use planner::operation_at;
use report::{Answer, Line};
use rules::{Decision, Kept};
use script::{Operation, Script};
use std::alloc::Global;
use std::marker::Model;
use tracker::change_each;
use watchers::{Filter, Notice, WatchList};

/// What is kept of the lines of a report so far, as a `ContentTracker` keeps it, and the watches of the actors. Contracts see what is kept,
/// and the masks. Each watch whose `watching` was answered holds what is
/// kept of its actor's mailbox.
#[derive(Drop)]
pub struct WatchedTracker<P: Filter> {
    alloc: Global,
    tracker: ContentTracker,
    /// By actor.
    watchers: Sequence<Option<Watcher<P>>>,
}

impl<P: Filter> Model for WatchedTracker<P> {
    ghost use Rattle.std.specs.Prelude.{map};
    ghost use Rattle.watched_tracker.specs.Watched.{WatchedValue};
    ghost use Rattle.watched_tracker.specs.Watchers.{AreHeld, mask_of_actor};

    ghost Value = { WatchedValue };

    ghost view = { λ t. record { kept = t.tracker; masks = map mask_of_actor t.watchers } };

    ghost invariant = { λ t. AreHeld t.watchers t.tracker.jobs };
}

/// The watch of an actor with these operations, from the front of the list.
fn watcher_of<P: Filter + Drop>(
    operations: &[Operation],
    watches: &mut WatchList<P>,
) -> Option<Watcher<P>>
    requires { asked.BeginsWith operations.now watches.old }
    ensures watcher { result ≡ asked.watcher_asked operations.now }
    ensures watches { watches.new ≡ asked.watches_behind operations.now watches.old }
{
    match mask_asked(operations) {
        None => None,
        Some(_) => Some(Watcher::new(watches.remove(0))),
    }
}

/// The watches of a script's actors, of which none watches yet.
fn watchers_of<P: Filter + Drop>(
    alloc: Global,
    script: &Script,
    watches: WatchList<P>,
) -> Result<Sequence<Option<Watcher<P>>>, Memory>
    requires { watches ≡ asked.watches_asked script.now }
    ensures { IfOk result (λ watchers. watchers ≡ asked.watchers_asked script.now) }
{
    let mut watches = watches;
    let mut watchers = Sequence::new(alloc);
    watchers.push(None)?;
    for operations in script.actors.as_slice().iter() {
        watchers.push(watcher_of(operations.as_slice(), &mut watches))?;
    }
    Ok(watchers)
}

/// The actor who watches from this line on.
fn begins_watching(script: &Script, line: &Line) -> Option<u8>
    ensures { result ≡ asked.watching_behind script.now line.now }
{
    match line {
        Line::Answered {
            actor,
            op,
            answer: Answer::Watching,
        } => match operation_at(script, *actor, *op) {
            Some(Operation::Watch { .. }) => Some(*actor),
            _ => None,
        },
        _ => None,
    }
}

/// It was answered that this actor watches.
fn begin_watching<P: Filter + Drop>(watchers: &mut Sequence<Option<Watcher<P>>>, actor: u8)
    ensures { watchers.new ≡ spec.begun_at actor watchers.old }
{
    if (actor as usize) < watchers.len() {
        if let Some(watcher) = watchers.at_mut(actor as usize) {
            watcher.begin();
        }
    }
}

/// The notices that the watch of this actor holds.
fn notices_at<P: Filter + Drop>(watchers: &Sequence<Option<Watcher<P>>>, actor: u8) -> Answer
    ensures { result ≡ notices_of (spec.mailbox_at actor watchers.now) }
{
    match watchers.get(actor as usize) {
        Some(Some(watcher)) => watcher.notices(),
        Some(None) | None => Answer::Notices {
            dropped: 0,
            numbers: ArrayVec::new(),
        },
    }
}

impl<P: Filter + Drop> WatchedTracker<P> {
    /// Before the first line of a script's report. There is one watch for each `watch` of the script, in its order.
    pub fn new(
        alloc: Global,
        script: &Script,
        watches: WatchList<P>,
    ) -> Result<WatchedTracker<P>, Memory>
        requires actors { length script.now.actors ≤ 254 }
        requires watches { watches ≡ asked.watches_asked script.now }
        ensures { IfOk result (λ t. t ≡ record {
          kept = nothing_is_kept script.now;
          masks = asked.masks_asked script.now;
        }) }
    {
        let watchers = watchers_of(alloc, script, watches)?;
        Ok(WatchedTracker {
            alloc,
            tracker: ContentTracker::new(alloc, script)?,
            watchers,
        })
    }

    /// All that is kept.
    pub fn kept(&self) -> &Kept
        ensures { result.now ≡ self.now.kept }
    {
        self.tracker.kept()
    }

    /// How often the files of a family were decoded.
    pub fn decodings(&self) -> u64 {
        self.tracker.decodings()
    }

    /// The notices of an actor, as its watch holds them.
    pub fn notices(&self, actor: u8) -> Answer
        requires { 0 < length self.now.masks }
        ensures { result ≡ notices_of (job_of actor self.now.kept.jobs).mailbox }
    {
        notices_at(&self.watchers, actor)
    }

    /// The text that is shown of a family, as its files are kept.
    pub fn text(&mut self, family: u8) -> Result<Text, Memory>
        requires { family < family_count }
        ensures same { self.new ≡ self.old }
        ensures text { IfOk result (λ text. text ≡ kept_text family self.old.kept) }
    {
        self.tracker.text(family)
    }

    /// The framework begins a turn.
    pub fn turn_of_framework(&mut self, script: &Script)
        requires actors { length script.now.actors ≤ 254 }
        requires room { HasRoom self.old.kept }
        ensures { self.new
            ≡ keeping (kept_after script.now (Line.Turn 0) self.old.kept) self.old }
    {
        self.tracker.turn_of_framework(script);
    }

    /// An actor begins a turn, which decides this.
    pub fn turn_of_actor(&mut self, script: &Script, actor: u8, decision: Decision)
        requires actors { length script.now.actors ≤ 254 }
        requires actor { 0 < actor }
        requires decided { decision ≡ decision_at script.now (Line.Turn actor) self.old.kept }
        requires room { HasRoom self.old.kept }
        ensures { self.new
            ≡ keeping (kept_after script.now (Line.Turn actor) self.old.kept) self.old }
    {
        self.tracker.turn_of_actor(script, actor, decision);
    }

    /// An operation begins, which decides this.
    pub fn begin(&mut self, script: &Script, actor: u8, op: u32, decision: Decision)
        requires decided { decision ≡ decision_at script.now (Line.Begin actor op) self.old.kept }
        requires room { HasRoom self.old.kept }
        ensures { self.new
            ≡ keeping (kept_after script.now (Line.Begin actor op) self.old.kept) self.old }
    {
        self.tracker.begin(script, actor, op, decision);
    }

    /// A command was sent, and the card answered. Behind want of memory nothing is promised of what is kept, and all watches are let go.
    pub fn exchange(&mut self, script: &Script, line: &Line) -> Result<(), Memory>
        requires kind { kind.is_exchange line.now ≡ true }
        requires operation { line_fits script.now line.now self.old.kept.jobs ≡ true }
        requires room { HasRoom self.old.kept }
        ensures { OnOk result (self.new
            ≡ keeping (kept_after script.now line.now self.old.kept) self.old) }
    {
        match self.tracker.exchange(script, line) {
            Ok(()) => Ok(()),
            Err(memory) => {
                self.watchers = Sequence::new(self.alloc);
                Err(memory)
            }
        }
    }

    /// A command was sent, and no answer came.
    pub fn fail(&mut self, script: &Script, line: &Line)
        requires kind { kind.is_failed line.now ≡ true }
        requires room { HasRoom self.old.kept }
        ensures { self.new ≡ keeping (kept_after script.now line.now self.old.kept) self.old }
    {
        self.tracker.fail(script, line);
    }

    /// The card was reset.
    pub fn reset(&mut self, script: &Script, actor: u8)
        requires { HasRoom self.old.kept }
        ensures { self.new
            ≡ keeping (kept_after script.now (Line.Reset actor) self.old.kept) self.old }
    {
        self.tracker.reset(script, actor);
    }

    /// A reset failed.
    pub fn fail_reset(&mut self, script: &Script, actor: u8)
        requires { HasRoom self.old.kept }
        ensures { self.new
            ≡ keeping (kept_after script.now (Line.ResetFailed actor) self.old.kept) self.old }
    {
        self.tracker.fail_reset(script, actor);
    }

    /// An event of the world happened.
    pub fn happen(&mut self, script: &Script, actor: u8, event: WorldEvent)
        requires { HasRoom self.old.kept }
        ensures { self.new
            ≡ keeping (kept_after script.now (Line.World actor event) self.old.kept) self.old }
    {
        self.tracker.happen(script, actor, event);
    }

    /// A family was published.
    pub fn publish(&mut self, script: &Script, line: &Line)
        requires kind { kind.is_published line.now ≡ true }
        requires room { HasRoom self.old.kept }
        ensures { self.new ≡ keeping (kept_after script.now line.now self.old.kept) self.old }
    {
        let Line::Published {
            number,
            family,
            epoch,
            point,
            ..
        } = line
        else {
            unreachable!()
        };
        let notice = Notice {
            number: *number,
            family: Some(*family),
            epoch: *epoch,
            point: *point,
        };
        change_each(self.alloc, &mut self.watchers, &Offering { notice });
        self.tracker.publish(script, line);
    }

    /// The end of an epoch was published.
    pub fn end_epoch(&mut self, script: &Script, number: u64, epoch: u64, event: u64)
        requires { HasRoom self.old.kept }
        ensures { self.new
            ≡ keeping (kept_after script.now (Line.EpochEnd number epoch event) self.old.kept)
            self.old }
    {
        let notice = Notice {
            number,
            family: None,
            epoch,
            point: event,
        };
        change_each(self.alloc, &mut self.watchers, &Offering { notice });
        self.tracker.end_epoch(script, number, epoch, event);
    }

    /// The framework's reading of a family was refused.
    pub fn refuse(&mut self, script: &Script, family: u8, event: u64)
        requires { HasRoom self.old.kept }
        ensures { self.new
            ≡ keeping (kept_after script.now (Line.Refused family event) self.old.kept) self.old }
    {
        self.tracker.refuse(script, family, event);
    }

    /// An operation was answered. Want of memory changes nothing, and comes only where the answer gives its actor a channel or a session.
    pub fn answer(&mut self, script: &Script, line: &Line) -> Result<(), Memory>
        requires rules { keeps_rules script.now ≡ true }
        requires masks { self.old.masks ≡ asked.masks_asked script.now }
        requires kind { kind.is_answered line.now ≡ true }
        requires room { HasRoom self.old.kept }
        ensures ok { OnOk result (self.new
            ≡ keeping (kept_after script.now line.now self.old.kept) self.old) }
        ensures err { OnErr result (self.new ≡ self.old) }
        ensures room { line_gives_holding script.now line.now ≡ false → IsOk result }
    {
        self.tracker.answer(script, line)?;
        if let Some(actor) = begins_watching(script, line) {
            begin_watching(&mut self.watchers, actor);
        }
        Ok(())
    }
}
