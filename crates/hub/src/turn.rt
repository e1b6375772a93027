// A turn of an actor. The law of the crate performed that is called does nothing: the proofs rest on its contract.
ghost use Rattle.std.specs.Prelude.{◌≡◌, ◌≤◌, ◌<◌, ◌+◌, ◌^◌, not, true, false, nat_lt, if◌then◌else◌, None, is_some, length, IsOk, IfOk, OnOk, OnErr};
ghost use Rattle.report.specs.declared.line.Line.TheVariants as line;
ghost use Rattle.script_reader.specs.Rules.{keeps_rules};
ghost use Rattle.planner.specs.Room.{AreLeftInTurn, is_given, turn_fits, turn_is_decided};
ghost use Rattle.rules.specs.After.{kept_after};
ghost use Rattle.tracker.specs.Room.{HasRoom};
ghost use Rattle.rules.specs.Due as rules;
ghost use Rattle.rules.specs.Kept.{actor_count};
ghost use Rattle.rules.specs.Performed as performed;
ghost use Rattle.rules.specs.Work.{is_finished as is_run_finished, is_idle};
ghost use Rattle.watched_tracker.specs.Watched.{keeping};
ghost use Rattle.hub.specs.Hub as hub;
ghost use Rattle.hub.specs.Parts.{parts};
ghost use Rattle.hub.specs.Decided.{IsBegun, IsDecision, MayBegin};
ghost use Rattle.hub.specs.Settled.{BreaksBehind, HasOneMore, IsNext, IsReadyFor, IsSince, IsUnderWay, MayDo, HasBroken, HasLine, HasTurned, IsPrepared, IsSettled, IsTied, KeepsAll};

use crate::engine::{BYTES_OF_PUBLICATION, BYTES_OF_TURN, Engine, FilePlans, LINES_OF_TURN, Ready};
use crate::publish::{answered_of, family_ready};
use apdu::{Memory, Text};
use card_model::ScriptedSlot;
use performed::actors_stay_plain;
use planner::{
    LeftRows, begun_of, decision_at_begin, decision_at_turn, due_with, has_ended, is_finished,
    left_rows, waits_on,
};
use report::Line;
use rules::{Decision, Due};
use watchers::Filter;

/// What a turn of an actor came to.
#[derive(Clone, Copy, Debug, PartialEq, Eq)]
pub enum Turn {
    /// It did what was due.
    Moved,
    /// It waits for this actor; 0 is the framework.
    Waits { on: u8 },
    /// All operations of the actor are answered.
    Ended,
}

/// A mark takes so many bytes at most.
const BYTES_OF_MARK: usize = 32;

/// No memory holds so many lines.
const MOST_LINES: usize = usize::MAX - 512;

fn ends_turn(line: &Due) -> bool
    ensures { result ≡ performed.ends_turn line.now }
{
    matches!(line, Due::Rest | Due::WaitFor(_) | Due::EndOfActor)
}

impl<S: ScriptedSlot, P: Filter + Drop> Engine<S, P> {
    /// Whether the run is not finished.
    #[tactic(auto, using(crate::proofs::Scripts::few_actors))]
    pub fn pending(&self) -> bool
        requires { IsTied (parts S.Slot.world S.Slot.plan self.now) }
        ensures { result ≡ not (is_run_finished self.now.script self.now.tracker.kept) }
    {
        !is_finished(&self.script, self.tracker.kept())
    }

    /// What a turn of the actor answers.
    #[tactic(auto, using(crate::proofs::Scripts::few_actors))]
    pub fn turn_answer(&self, actor: u8) -> Turn
        requires { IsTied (parts S.Slot.world S.Slot.plan self.now) }
        ensures { result ≡ hub.turn_answer self.now.script self.now.tracker.kept actor }
    {
        let kept = self.tracker.kept();
        if has_ended(&self.script, kept, actor) {
            return Turn::Ended;
        }
        match waits_on(&self.script, kept, actor) {
            Some(on) => Turn::Waits { on },
            None => Turn::Moved,
        }
    }

    /// What the turn's mark decides.
    fn mark_decision(&self, actor: u8) -> Result<Decision, Memory>
        requires { IsTied (parts S.Slot.world S.Slot.plan self.now) }
        ensures { IfOk result (λ d. IsDecision self.now.script (line.Turn actor)
            self.now.tracker.kept d) }
    {
        actors_stay_plain();
        let kept = self.tracker.kept();
        decision_at_turn(self.alloc, &FilePlans, &self.script, kept, actor)
    }

    /// What the first line of the actor's next operation decides, unless one is under way.
    fn begin_decision(&self, actor: u8) -> Result<Option<Decision>, Memory>
        requires { IsTied (parts S.Slot.world S.Slot.plan self.now) }
        ensures { IfOk result (λ begin. MayBegin self.now.script self.now.tracker.kept actor begin) }
    {
        let kept = self.tracker.kept();
        if begun_of(actor, &kept.jobs).is_some() {
            return Ok(None);
        }
        actors_stay_plain();
        let op = answered_of(actor, kept);
        let decision = decision_at_begin(self.alloc, &FilePlans, &self.script, kept, actor, op)?;
        Ok(Some(decision))
    }

    /// Makes the text ready that the turn publishes before any event of its own, and room for the turn's lines.
    fn prepare_text(&mut self, actor: u8) -> Result<Option<Text>, Memory>
        requires { IsSettled (parts S.Slot.world S.Slot.plan self.old) }
        ensures same { KeepsAll (parts S.Slot.world S.Slot.plan self.old)
            (parts S.Slot.world S.Slot.plan self.new) }
        ensures ready { IfOk result (λ text. IsPrepared actor text
            (parts S.Slot.world S.Slot.plan self.new)) }
    {
        if self.lines.len() > MOST_LINES {
            return Err(Memory);
        }
        match family_ready(&self.script, self.tracker.kept(), actor) {
            None => {
                self.lines.reserve(LINES_OF_TURN, BYTES_OF_TURN)?;
                Ok(None)
            }
            Some(family) => {
                let text = self.tracker.text(family)?;
                let most = text
                    .as_str()
                    .len()
                    .checked_add(BYTES_OF_TURN + BYTES_OF_PUBLICATION);
                self.lines.reserve(LINES_OF_TURN, most.ok_or(Memory)?)?;
                Ok(Some(text))
            }
        }
    }

    /// Makes ready what the turn asks for before its first event.
    pub fn prepare(&mut self, actor: u8) -> Result<Ready, Memory>
        requires { IsSettled (parts S.Slot.world S.Slot.plan self.old) }
        ensures same { KeepsAll (parts S.Slot.world S.Slot.plan self.old)
            (parts S.Slot.world S.Slot.plan self.new) }
        ensures ready { IfOk result (λ ready. IsReadyFor actor ready
            (parts S.Slot.world S.Slot.plan self.new)) }
    {
        let mark = self.mark_decision(actor)?;
        let begin = self.begin_decision(actor)?;
        let left = left_rows(self.alloc, self.tracker.kept(), actor)?;
        let text = self.prepare_text(actor)?;
        Ok(Ready {
            text,
            mark,
            begin,
            left,
        })
    }

    /// Makes ready what a mark asks for.
    pub fn prepare_mark(&mut self, actor: u8) -> Result<Decision, Memory>
        requires { IsSettled (parts S.Slot.world S.Slot.plan self.old) }
        ensures same { KeepsAll (parts S.Slot.world S.Slot.plan self.old)
            (parts S.Slot.world S.Slot.plan self.new) }
        ensures decision { IfOk result (λ d. IsDecision self.old.script (line.Turn actor)
            self.old.tracker.kept d) }
        ensures few { IfOk result (λ d. length self.new.lines.lines + 512 < 2 ^ 64) }
        ensures spare { IfOk result (λ d. 0 < self.new.lines.spare) }
        ensures spare_bytes { IfOk result (λ d. 32 ≤ self.new.lines.spare_bytes) }
    {
        if self.lines.len() > MOST_LINES {
            return Err(Memory);
        }
        let decision = self.mark_decision(actor)?;
        self.lines.reserve(1, BYTES_OF_MARK)?;
        Ok(decision)
    }

    /// The mark of a turn of the actor, as it is kept.
    #[tactic(auto, using(crate::proofs::Scripts::few_actors))]
    fn keep_mark(&mut self, actor: u8, decision: Decision)
        requires tied { IsTied (parts S.Slot.world S.Slot.plan self.old) }
        requires decision { IsDecision self.old.script (line.Turn actor) self.old.tracker.kept
            decision }
        requires room { HasRoom self.old.tracker.kept }
        ensures { self.new ≡ record self.old {
          tracker = keeping (kept_after self.old.script (line.Turn actor) self.old.tracker.kept)
              self.old.tracker;
        } }
    {
        if actor == 0 {
            self.tracker.turn_of_framework(&self.script);
        } else {
            self.tracker.turn_of_actor(&self.script, actor, decision);
        }
    }

    /// The mark of a turn of the actor.
    pub fn mark(&mut self, actor: u8, decision: Decision)
        requires settled { IsSettled (parts S.Slot.world S.Slot.plan self.old) }
        requires decision { IsDecision self.old.script (line.Turn actor) self.old.tracker.kept
            decision }
        requires actor { actor ≤ actor_count self.old.script }
        requires pending { is_run_finished self.old.script self.old.tracker.kept ≡ false }
        requires few { length self.old.lines.lines + 512 < 2 ^ 64 }
        requires spare { 0 < self.old.lines.spare }
        requires spare_bytes { 32 ≤ self.old.lines.spare_bytes }
        ensures line { HasLine (line.Turn actor) (parts S.Slot.world S.Slot.plan self.old)
            (parts S.Slot.world S.Slot.plan self.new) }
        ensures spare_bytes { self.old.lines.spare_bytes ≤ self.new.lines.spare_bytes + 32 }
        ensures slot { self.new.slot ≡ self.old.slot }
        ensures script { self.new.script ≡ self.old.script }
    {
        actors_stay_plain();
        self.keep_mark(actor, decision);
        self.lines.push_within(&Line::Turn { actor });
    }

    /// The line that is due. Want of memory comes only where an edit is answered behind its deciding success, and the rows that it leaves
    /// marked are not ready.
    #[tactic(auto, using(crate::proofs::Scripts::few_actors))]
    fn next(&self, left: &mut LeftRows) -> Result<Due, Memory>
        requires rules { keeps_rules self.now.script ≡ true }
        requires fits { turn_fits self.now.tracker.kept.turn.actor self.now.tracker.kept.jobs ≡ true }
        requires left { AreLeftInTurn self.now.tracker.kept.turn.actor self.now.tracker.kept.jobs
            left.old.ready }
        ensures value { IfOk result (λ line.
            line ≡ rules.due self.now.script self.now.tracker.kept) }
        ensures ready { is_some left.old.ready ≡ true → IsOk result }
        ensures undecided { turn_is_decided self.now.tracker.kept.turn.actor
            self.now.tracker.kept.jobs ≡ false → IsOk result }
        ensures kept { IfOk result (λ line. is_given line ≡ false → left.new ≡ left.old) }
    {
        due_with(left, &self.script, self.tracker.kept())
    }

    /// What was made ready, unless an event came since there were so many.
    fn unless_moved<T: Drop>(&self, events: u64, ready: Option<T>) -> Option<T>
        ensures { result ≡ (if nat_lt events self.now.tracker.kept.history.events then None else ready) }
    {
        if events < self.tracker.kept().history.events {
            None
        } else {
            ready
        }
    }

    /// The line that is due, in a turn that began at so many events; gives the text that is ready for the next.
    fn do_line(
        &mut self,
        actor: u8,
        events: u64,
        line: Due,
        text: Option<Text>,
        begin: Option<Decision>,
    ) -> Result<Option<Text>, Memory>
        requires turn { IsUnderWay actor (parts S.Slot.world S.Slot.plan self.old) }
        requires since { IsSince events self.old.tracker.kept }
        requires due { rules.due self.old.script self.old.tracker.kept ≡ line }
        requires goes_on { performed.ends_turn line ≡ false }
        requires begin { IsBegun self.old.script actor self.old.tracker.kept line begin }
        requires may { MayDo events line text (parts S.Slot.world S.Slot.plan self.old) }
        ensures line { OnOk result (HasOneMore (parts S.Slot.world S.Slot.plan self.old)
            (parts S.Slot.world S.Slot.plan self.new)) }
        ensures text { IfOk result (λ next. IsNext events text next
            (parts S.Slot.world S.Slot.plan self.old) (parts S.Slot.world S.Slot.plan self.new)) }
        ensures err { OnErr result (BreaksBehind events
            (parts S.Slot.world S.Slot.plan self.old) (parts S.Slot.world S.Slot.plan self.new)) }
    {
        match line {
            Due::Publish(family) => {
                self.publish(actor, events, family, text)?;
                Ok(None)
            }
            line => {
                self.perform(actor, events, line, begin)?;
                Ok(self.unless_moved(events, text))
            }
        }
    }

    /// A turn of the actor: its mark, and what is due in it.
    pub fn take_turn(&mut self, actor: u8, ready: Ready) -> Result<(), Memory>
        requires settled { IsSettled (parts S.Slot.world S.Slot.plan self.old) }
        requires actor { actor ≤ actor_count self.old.script }
        requires awake { is_idle self.old.script self.old.tracker.kept actor ≡ false }
        requires prepared { IsReadyFor actor ready (parts S.Slot.world S.Slot.plan self.old) }
        ensures ok { OnOk result (HasTurned actor (parts S.Slot.world S.Slot.plan self.old)
            (parts S.Slot.world S.Slot.plan self.new)) }
        ensures err { OnErr result (HasBroken actor (parts S.Slot.world S.Slot.plan self.old)
            (parts S.Slot.world S.Slot.plan self.new)) }
    {
        let events = self.tracker.kept().history.events;
        let Ready {
            text,
            mark,
            begin,
            left,
        } = ready;
        let mut text = text;
        let mut begin = begin;
        let mut left = left;
        actors_stay_plain();
        self.mark(actor, mark);
        'lines: loop {
            let line = self.next(&mut left)?;
            if ends_turn(&line) {
                return Ok(());
            }
            let next = self.do_line(actor, events, line, text, begin)?;
            text = next;
            begin = None;
            left.ready = self.unless_moved(events, left.ready.take());
        }
    }
}
