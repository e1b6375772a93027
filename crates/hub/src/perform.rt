// The lines of a turn behind its mark: one function for each kind of line that may be due.
ghost use Rattle.std.specs.Prelude.{◌≡◌, ◌==◌, ◌≤◌, ◌<◌, ◌+◌, ◌^◌, length, true, false, is_some, None, IfSome, IfOk, OnOk, OnErr};
ghost use Rattle.apdu.specs.Words.{has_value};
ghost use Rattle.std.specs.Option.{option_copied};
ghost use Rattle.card_model.specs.Slot as slots;
ghost use Rattle.report.specs.Room.{most_of_answer};
ghost use Rattle.report.specs.declared.line.Line.TheVariants as line;
ghost use Rattle.families.specs.Contents.{family_count};
ghost use Rattle.rules.specs.Due as rules;
ghost use Rattle.rules.specs.Due.{answer_of_refusal, kept_text, tried_event};
ghost use Rattle.rules.specs.Kept.{begun_of as begun_in};
ghost use Rattle.rules.specs.declared.kept.Begun.{Begun};
ghost use Rattle.rules.specs.Rules.{next_fault};
ghost use Rattle.performed.specs.Followed.{is_given_or_refused, is_slot_answer};
ghost use Rattle.performed.specs.Told.{is_refusal_told};
ghost use Rattle.hub.specs.Decided.{IsBegun, IsSomeDecision};
ghost use Rattle.hub.specs.Parts.{parts};
ghost use Rattle.hub.specs.Performing.{is_holding, is_performed};
ghost use Rattle.hub.specs.Settled.{BreaksBehind, HasOneMore, IsSince, IsUnderWay, KeepsAll, LeavesRoom, MayPublish, most_of_text};

use crate::engine::{BYTES_OF_PUBLICATION, BYTES_OF_TURN, Engine};
use apdu::{Command, Memory, Text};
use card_model::{Fault, ScriptedSlot, Slot, WorldEvent, WorldRefusal};
use planner::{begun_of, operation_now};
use report::{Answer, Line};
use rules::{Decision, Due};
use script::{Operation, Script};
use watchers::Filter;

fn is_at(call: u64, fault: &Fault) -> bool
    ensures { result ≡ (fault.now.at == call) }
{
    fault.at as u64 == call
}

/// The fault of the call of this number, where one is planned.
fn fault_at(script: &Script, call: u64) -> Option<&Fault>
    ensures { option_copied result ≡ slots.fault_at call script.now.faults }
{
    script
        .faults
        .as_slice()
        .iter()
        .find(|fault| is_at(call, fault))
}

/// Whether the card acted where the call of this number failed.
fn acted_at(script: &Script, call: u64) -> bool
    ensures { result ≡ slots.acted_of (slots.fault_at call script.now.faults) }
{
    match fault_at(script, call) {
        None => false,
        Some(fault) => fault.acted,
    }
}

/// The answer to an operation whose event the slot refuses. A script that was read names no card and no change that there is not.
fn refused(refusal: WorldRefusal) -> Answer
    ensures slot { is_slot_answer result ≡ true }
    ensures value { IfSome (answer_of_refusal refusal) (λ given. result ≡ given) }
{
    match refusal {
        WorldRefusal::SlotEmpty => Answer::SlotEmpty,
        WorldRefusal::SlotFull | WorldRefusal::NoImage(_) => Answer::SlotFull,
        WorldRefusal::ArmFull | WorldRefusal::NoChange(_) => Answer::ArmFull,
    }
}

impl<S: ScriptedSlot, P: Filter + Drop> Engine<S, P> {
    fn tell_end(&mut self, actor: u8, epoch: u64, event: u64)
        requires turn { IsUnderWay actor (parts S.Slot.world S.Slot.plan self.old) }
        requires due { rules.due self.old.script self.old.tracker.kept ≡ Due.TellEnd epoch event }
        ensures line { HasOneMore (parts S.Slot.world S.Slot.plan self.old)
            (parts S.Slot.world S.Slot.plan self.new) }
        ensures spare_bytes { self.old.lines.spare_bytes ≤ self.new.lines.spare_bytes + 608 }
    {
        let number = self.tracker.kept().publications + 1;
        self.tracker.end_epoch(&self.script, number, epoch, event);
        self.lines.push_within(&Line::EpochEnd {
            number,
            epoch,
            event,
        });
    }

    fn tell_refusal(&mut self, actor: u8, family: u8, event: u64)
        requires turn { IsUnderWay actor (parts S.Slot.world S.Slot.plan self.old) }
        requires due { rules.due self.old.script self.old.tracker.kept ≡ Due.TellRefusal family event }
        ensures line { HasOneMore (parts S.Slot.world S.Slot.plan self.old)
            (parts S.Slot.world S.Slot.plan self.new) }
        ensures spare_bytes { self.old.lines.spare_bytes ≤ self.new.lines.spare_bytes + 608 }
    {
        self.tracker.refuse(&self.script, family, event);
        self.lines.push_within(&Line::Refused { family, event });
    }

    /// Whether the card acts where the next call fails.
    fn next_acts(&self) -> bool
        requires { self.now.tracker.kept.history.calls + 1 < 2 ^ 64 }
        ensures { result ≡ slots.acted_of (next_fault self.now.script self.now.tracker.kept) }
    {
        acted_at(&self.script, self.tracker.kept().history.calls + 1)
    }

    fn send(&mut self, actor: u8, from: u64, command: Command) -> Result<(), Memory>
        requires turn { IsUnderWay actor (parts S.Slot.world S.Slot.plan self.old) }
        requires since { IsSince from self.old.tracker.kept }
        requires due { rules.due self.old.script self.old.tracker.kept ≡ Due.Send command }
        ensures line { OnOk result (HasOneMore (parts S.Slot.world S.Slot.plan self.old)
            (parts S.Slot.world S.Slot.plan self.new)) }
        ensures spare_bytes { self.old.lines.spare_bytes ≤ self.new.lines.spare_bytes + 608 }
        ensures err { OnErr result (BreaksBehind from
            (parts S.Slot.world S.Slot.plan self.old) (parts S.Slot.world S.Slot.plan self.new)) }
    {
        let _row = command.p1;
        match self.slot.exchange(&command) {
            Ok(response) => {
                let line = Line::Exchange {
                    actor,
                    command,
                    response,
                };
                self.lines.push_within(&line);
                self.tracker.exchange(&self.script, &line)?;
                Ok(())
            }
            Err(_) => {
                let line = Line::Failed {
                    actor,
                    command,
                    acted: self.next_acts(),
                };
                self.lines.push_within(&line);
                self.tracker.fail(&self.script, &line);
                Ok(())
            }
        }
    }

    fn reset(&mut self, actor: u8)
        requires turn { IsUnderWay actor (parts S.Slot.world S.Slot.plan self.old) }
        requires due { rules.due self.old.script self.old.tracker.kept ≡ Due.ResetCard }
        ensures line { HasOneMore (parts S.Slot.world S.Slot.plan self.old)
            (parts S.Slot.world S.Slot.plan self.new) }
        ensures spare_bytes { self.old.lines.spare_bytes ≤ self.new.lines.spare_bytes + 608 }
    {
        match self.slot.reset() {
            Ok(()) => {
                self.tracker.reset(&self.script, actor);
                self.lines.push_within(&Line::Reset { actor });
            }
            Err(_) => {
                self.tracker.fail_reset(&self.script, actor);
                self.lines.push_within(&Line::ResetFailed { actor });
            }
        }
    }

    fn try_event(&mut self, actor: u8, from: u64, event: WorldEvent) -> Result<(), Memory>
        requires turn { IsUnderWay actor (parts S.Slot.world S.Slot.plan self.old) }
        requires due { rules.due self.old.script self.old.tracker.kept ≡ Due.TryEvent event }
        ensures line { OnOk result (HasOneMore (parts S.Slot.world S.Slot.plan self.old)
            (parts S.Slot.world S.Slot.plan self.new)) }
        ensures spare_bytes { self.old.lines.spare_bytes ≤ self.new.lines.spare_bytes + 608 }
        ensures err { OnErr result (BreaksBehind from
            (parts S.Slot.world S.Slot.plan self.old) (parts S.Slot.world S.Slot.plan self.new)) }
    {
        match self.slot.world(&event) {
            Ok(()) => {
                self.tracker.happen(&self.script, actor, event);
                self.lines.push_within(&Line::World { actor, event });
                Ok(())
            }
            Err(refusal) => self.answer(actor, from, refused(refusal)),
        }
    }

    /// The number of the operation that the actor has begun.
    fn begun(&self, actor: u8) -> u32
        requires { is_some (begun_in actor self.now.tracker.kept.jobs) ≡ true }
        ensures { has_value (λ (b : Begun). b.index == result)
            (begun_in actor self.now.tracker.kept.jobs) ≡ true }
    {
        match begun_of(actor, &self.tracker.kept().jobs) {
            Some(begun) => begun.index,
            None => unreachable!(),
        }
    }

    fn answer(&mut self, actor: u8, from: u64, answer: Answer) -> Result<(), Memory>
        requires turn { IsUnderWay actor (parts S.Slot.world S.Slot.plan self.old) }
        requires begun { is_some (begun_in actor self.old.tracker.kept.jobs) ≡ true }
        requires given { is_given_or_refused answer
            (rules.due self.old.script self.old.tracker.kept) ≡ true }
        requires told { IfSome (S.Slot.world self.old.slot)
            (λ w. is_refusal_told w answer (tried_event self.old.tracker.kept) ≡ true) }
        requires bytes { most_of_answer answer ≤ 608 }
        requires moved { is_holding answer ≡ true → from < self.old.tracker.kept.history.events }
        ensures line { OnOk result (HasOneMore (parts S.Slot.world S.Slot.plan self.old)
            (parts S.Slot.world S.Slot.plan self.new)) }
        ensures spare_bytes { self.old.lines.spare_bytes ≤ self.new.lines.spare_bytes + 608 }
        ensures err { OnErr result (BreaksBehind from
            (parts S.Slot.world S.Slot.plan self.old) (parts S.Slot.world S.Slot.plan self.new)) }
    {
        let line = Line::Answered {
            actor,
            op: self.begun(actor),
            answer,
        };
        self.lines.push_within(&line);
        self.tracker.answer(&self.script, &line)
    }

    /// The answer that is due: the notices of an actor are those that its watch holds.
    fn answer_held(&self, actor: u8, answer: Answer) -> Answer
        requires turn { IsUnderWay actor (parts S.Slot.world S.Slot.plan self.now) }
        requires due { rules.due self.now.script self.now.tracker.kept ≡ Due.Give answer }
        ensures { result ≡ answer }
    {
        match operation_now(&self.script, actor, &self.tracker.kept().jobs) {
            Some(Operation::Notices) => self.tracker.notices(actor),
            _ => answer,
        }
    }

    fn give(&mut self, actor: u8, from: u64, answer: Answer) -> Result<(), Memory>
        requires turn { IsUnderWay actor (parts S.Slot.world S.Slot.plan self.old) }
        requires since { IsSince from self.old.tracker.kept }
        requires due { rules.due self.old.script self.old.tracker.kept ≡ Due.Give answer }
        ensures line { OnOk result (HasOneMore (parts S.Slot.world S.Slot.plan self.old)
            (parts S.Slot.world S.Slot.plan self.new)) }
        ensures spare_bytes { self.old.lines.spare_bytes ≤ self.new.lines.spare_bytes + 608 }
        ensures err { OnErr result (BreaksBehind from
            (parts S.Slot.world S.Slot.plan self.old) (parts S.Slot.world S.Slot.plan self.new)) }
    {
        let answer = self.answer_held(actor, answer);
        self.answer(actor, from, answer)
    }

    fn begin(&mut self, actor: u8, op: u32, decision: Option<Decision>)
        requires turn { IsUnderWay actor (parts S.Slot.world S.Slot.plan self.old) }
        requires due { rules.due self.old.script self.old.tracker.kept ≡ Due.Begin op }
        requires decision { IsSomeDecision self.old.script (line.Begin actor op) self.old.tracker.kept
            decision }
        ensures line { HasOneMore (parts S.Slot.world S.Slot.plan self.old)
            (parts S.Slot.world S.Slot.plan self.new) }
        ensures spare_bytes { self.old.lines.spare_bytes ≤ self.new.lines.spare_bytes + 608 }
    {
        match decision {
            None => unreachable!(),
            Some(decision) => {
                self.tracker.begin(&self.script, actor, op, decision);
                self.lines.push_within(&Line::Begin { actor, op });
            }
        }
    }

    /// The line that is due, but for a publication, in a turn that began at so many events. `begin` is what the first line of an operation
    /// decides, where that is due.
    pub fn perform(
        &mut self,
        actor: u8,
        from: u64,
        line: Due,
        begin: Option<Decision>,
    ) -> Result<(), Memory>
        requires turn { IsUnderWay actor (parts S.Slot.world S.Slot.plan self.old) }
        requires since { IsSince from self.old.tracker.kept }
        requires due { rules.due self.old.script self.old.tracker.kept ≡ line }
        requires performed { is_performed line ≡ true }
        requires begin { IsBegun self.old.script actor self.old.tracker.kept line begin }
        ensures line { OnOk result (HasOneMore (parts S.Slot.world S.Slot.plan self.old)
            (parts S.Slot.world S.Slot.plan self.new)) }
        ensures spare_bytes { self.old.lines.spare_bytes ≤ self.new.lines.spare_bytes + 608 }
        ensures err { OnErr result (BreaksBehind from
            (parts S.Slot.world S.Slot.plan self.old) (parts S.Slot.world S.Slot.plan self.new)) }
    {
        match line {
            Due::TellEnd(epoch, event) => self.tell_end(actor, epoch, event),
            Due::Send(command) => return self.send(actor, from, command),
            Due::ResetCard => self.reset(actor),
            Due::TryEvent(event) => return self.try_event(actor, from, event),
            Due::TellRefusal(family, event) => self.tell_refusal(actor, family, event),
            Due::Give(answer) => return self.give(actor, from, answer),
            Due::Begin(op) => self.begin(actor, op, begin),
            Due::Publish(_) | Due::WaitFor(_) | Due::EndOfActor | Due::Rest => {}
        }
        Ok(())
    }

    // The text that is ready, or a new one, and room for it.
    fn text_for(&mut self, family: u8, ready: Option<Text>) -> Result<Text, Memory>
        requires family { family < family_count }
        requires ready { IfSome ready (λ t. t ≡ kept_text family self.old.tracker.kept) }
        requires bytes { most_of_text ready ≤ self.old.lines.spare_bytes }
        ensures same { KeepsAll (parts S.Slot.world S.Slot.plan self.old)
            (parts S.Slot.world S.Slot.plan self.new) }
        ensures text { IfOk result (λ t. t ≡ kept_text family self.old.tracker.kept) }
        ensures room { IfOk result (λ t. 32 + length t ≤ self.new.lines.spare_bytes) }
        ensures spare_bytes { IfOk result (λ t. LeavesRoom (32 + length t) (most_of_text ready)
            self.old.lines.spare_bytes self.new.lines.spare_bytes) }
        ensures err { OnErr result (ready ≡ None) }
    {
        match ready {
            Some(text) => Ok(text),
            None => {
                let text = self.tracker.text(family)?;
                let most = text
                    .as_str()
                    .len()
                    .checked_add(BYTES_OF_TURN + BYTES_OF_PUBLICATION);
                self.lines.reserve(1, most.ok_or(Memory)?)?;
                Ok(text)
            }
        }
    }

    /// The publication of a family: of the text that is ready, or of a new one.
    pub fn publish(
        &mut self,
        actor: u8,
        from: u64,
        family: u8,
        ready: Option<Text>,
    ) -> Result<(), Memory>
        requires turn { IsUnderWay actor (parts S.Slot.world S.Slot.plan self.old) }
        requires due { rules.due self.old.script self.old.tracker.kept ≡ Due.Publish family }
        requires may { MayPublish from family ready (parts S.Slot.world S.Slot.plan self.old) }
        ensures line { OnOk result (HasOneMore (parts S.Slot.world S.Slot.plan self.old)
            (parts S.Slot.world S.Slot.plan self.new)) }
        ensures spare_bytes { OnOk result (LeavesRoom 0 (most_of_text ready)
            self.old.lines.spare_bytes self.new.lines.spare_bytes) }
        ensures published { OnOk result (is_some self.new.tracker.kept.turn.published ≡ true) }
        ensures err { OnErr result (BreaksBehind from
            (parts S.Slot.world S.Slot.plan self.old) (parts S.Slot.world S.Slot.plan self.new)) }
    {
        let content = self.text_for(family, ready)?;
        let kept = self.tracker.kept();
        let line = Line::Published {
            number: kept.publications + 1,
            family,
            epoch: kept.history.epoch,
            point: kept.history.events,
            content,
        };
        self.tracker.publish(&self.script, &line);
        self.lines.push_within(&line);
        Ok(())
    }
}
