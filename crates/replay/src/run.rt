// The replay of a script: turns in the order of its schedule, and then round, within the budget. The laws of the crate performed that are
// called, and `lines_are_due`, do nothing: the proofs rest on their contracts.
ghost use Rattle.std.specs.Prelude.{◌≡◌, ◌≤◌, true, false, IfOk, OnOk};
ghost use Rattle.script_reader.specs.Rules.{keeps_rules};
ghost use Rattle.script_reader.specs.World.{first_world};
ghost use Rattle.rules.specs.Kept.{actor_count};
ghost use Rattle.rules.specs.Rules.{scheduled_actor};
ghost use Rattle.replay.specs.Budget as spec;
ghost use Rattle.replay.specs.Replay.{IsReplayed};
ghost use Rattle.replay.specs.Rounds as runs;
ghost use Rattle.replay.specs.Rounds.{IsUnderWay, HasTurned, HasGoneRound, AreRounds, BeginsRound, kept_in};

use apdu::Memory;
use hub::{Hub, Turn};
use performed::{due_lines_are_legal, marks_leave_open, somebody_moves_until_finished};
use report::{Mode, Report};
use script::Script;
use sim_card::SimSlot;
use std::alloc::Global;
use watched_tracker::mask_watches;
use watchers::MaskFilter;

/// How a replay ended.
#[derive(Drop)]
pub enum Replayed {
    /// The run is finished; this is its report.
    Finished(Report),
    /// The run is not finished, and its budget is spent by so many events.
    Spent { events: u64 },
}

/// A run of a script over a simulated card.
#[derive(Drop)]
struct Run {
    hub: Hub<SimSlot, MaskFilter>,
    /// The run may have so many events.
    budget: u64,
}

/// The events of a run whose script names no budget.
const MOST_EVENTS: u64 = 20_000_000;

fn budget_of(script: &Script) -> u64
    ensures { result ≡ spec.budget_of script.now }
{
    script.budget.unwrap_or(MOST_EVENTS)
}

/// An empty slot with the script's cards.
fn slot_of(alloc: Global, script: &Script) -> Result<SimSlot, Memory>
    requires { keeps_rules script.now ≡ true }
    ensures world { IfOk result (λ slot. slot.world ≡ first_world script.now) }
    ensures faults { IfOk result (λ slot. slot.plan.faults ≡ script.now.faults) }
    ensures calls { IfOk result (λ slot. slot.plan.calls ≡ 0) }
{
    let images = script.images(alloc)?;
    let changes = script.changes(alloc)?;
    let faults = script.faults(alloc)?;
    SimSlot::new(alloc, images, changes, faults)
}

impl Run {
    fn new(alloc: Global, script: Script) -> Result<Run, Memory>
        requires { keeps_rules script ≡ true }
        ensures under_way { IfOk result (IsUnderWay script) }
        ensures fresh { IfOk result (λ r. (kept_in script r).marks ≡ 0) }
    {
        let slot = slot_of(alloc, &script)?;
        let budget = budget_of(&script);
        let watches = mask_watches(alloc, &script)?;
        let hub = Hub::new(alloc, slot, script, watches)?;
        Ok(Run { hub, budget })
    }

    /// Whether a further turn comes.
    fn goes_on(&self) -> bool
        requires { IsUnderWay self.now.hub.script self.now }
        ensures { result ≡ runs.goes_on self.now.hub.script (kept_in self.now.hub.script self.now) }
    {
        self.hub.pending() && self.hub.events() < self.budget
    }

    /// A turn of the actor, which has at least its mark.
    fn take_turn(&mut self, actor: u8) -> Result<(), Memory>
        requires under_way { IsUnderWay self.old.hub.script self.old }
        requires going { runs.goes_on self.old.hub.script (kept_in self.old.hub.script self.old)
            ≡ true }
        requires known { actor ≤ actor_count self.old.hub.script }
        requires scheduled { actor ≡ scheduled_actor self.old.hub.script
            (kept_in self.old.hub.script self.old).marks }
        ensures { OnOk result (HasTurned actor self.old.hub.script self.old self.new) }
    {
        match self.hub.turn(actor)? {
            Turn::Moved => Ok(()),
            Turn::Waits { .. } | Turn::Ended => {
                marks_leave_open();
                self.hub.note_idle(actor)
            }
        }
    }

    /// The turns of the schedule, while the run goes on.
    fn by_schedule(&mut self) -> Result<(), Memory>
        requires under_way { IsUnderWay self.old.hub.script self.old }
        requires fresh { (kept_in self.old.hub.script self.old).marks ≡ 0 }
        ensures under_way { OnOk result (IsUnderWay self.old.hub.script self.new) }
        ensures round { OnOk result
            (BeginsRound self.old.hub.script (kept_in self.old.hub.script self.new)) }
    {
        for at in 0..self.hub.script().schedule.len() {
            if !self.goes_on() {
                return Ok(());
            }
            let actor = self.hub.script().schedule.as_slice()[at];
            self.take_turn(actor)?;
        }
        Ok(())
    }

    /// The number of the last actor.
    fn last_actor(&self) -> u8
        requires { IsUnderWay self.now.hub.script self.now }
        ensures value { result ≡ actor_count self.now.hub.script }
        ensures few { result ≤ 8 }
    {
        self.hub.script().actors.len() as u8
    }

    /// A turn of the framework and of each actor, while the run goes on.
    fn round(&mut self) -> Result<(), Memory>
        requires under_way { IsUnderWay self.old.hub.script self.old }
        requires going { runs.goes_on self.old.hub.script (kept_in self.old.hub.script self.old)
            ≡ true }
        requires round { AreRounds self.old.hub.script
            (kept_in self.old.hub.script self.old).marks }
        ensures { OnOk result (HasGoneRound self.old.hub.script self.old self.new) }
    {
        self.hub.lines_are_due();
        somebody_moves_until_finished();
        for actor in 0..self.last_actor() + 1 {
            if !self.goes_on() {
                return Ok(());
            }
            self.take_turn(actor)?;
        }
        Ok(())
    }

    /// Rounds, while the run goes on.
    fn by_rounds(&mut self) -> Result<(), Memory>
        requires under_way { IsUnderWay self.old.hub.script self.old }
        requires round { BeginsRound self.old.hub.script (kept_in self.old.hub.script self.old) }
        ensures under_way { OnOk result (IsUnderWay self.old.hub.script self.new) }
        ensures ends { OnOk result
            (runs.goes_on self.old.hub.script (kept_in self.old.hub.script self.new) ≡ false) }
    {
        'rounds: while self.goes_on() {
            self.round()?;
        }
        Ok(())
    }

    /// The report, or that the budget is spent.
    fn end(self) -> Result<Replayed, Memory>
        requires under_way { IsUnderWay self.hub.script self }
        requires ends { runs.goes_on self.hub.script (kept_in self.hub.script self) ≡ false }
        ensures { IfOk result (IsReplayed self.hub.script) }
    {
        if self.hub.pending() {
            self.hub.lines_are_due();
            due_lines_are_legal();
            let events = self.hub.events();
            return Ok(Replayed::Spent { events });
        }
        let Run { hub, budget: _ } = self;
        let report = hub.finish(Mode::Replay)?;
        Ok(Replayed::Finished(report))
    }
}

/// Runs the script over its cards: the turns of the schedule, then rounds of all actors from the
/// framework on, until the run is finished or its budget is spent.
pub fn replay(alloc: Global, script: Script) -> Result<Replayed, Memory>
    requires { keeps_rules script ≡ true }
    ensures { IfOk result (IsReplayed script) }
{
    let mut run = Run::new(alloc, script)?;
    run.by_schedule()?;
    run.by_rounds()?;
    run.end()
}
