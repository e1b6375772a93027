// What stands behind the lines so far, and how a line that breaks no rule changes it.
ghost use Rattle.std.specs.Prelude.{◌≡◌, ◌+◌, [], true, false, IfOk, OnOk};
ghost use Rattle.planner.specs.Room.{handles_fit as do_handles_fit};
ghost use Rattle.report.specs.declared.line.Line.TheVariants as line;
ghost use Rattle.rules.specs.After.{kept_after};
ghost use Rattle.script_reader.specs.Rules.{keeps_rules};
ghost use Rattle.script_reader.specs.World.{first_world};
ghost use Rattle.tracker.specs.Lines as kind;
ghost use Rattle.tracker.specs.Room.{HasRoom};
ghost use Rattle.trace_check.specs.Displays as display_spec;
ghost use Rattle.trace_check.specs.Judging as spec;

use crate::boards::{Boards, keep_board};
use crate::displays::{Displays, first_displays, refresh_all, tell_all};
use crate::edits::is_update_ins;
use crate::exchanging::{happen, reset};
use crate::plans::FamilyPlans;
use apdu::{Memory, Sequence};
use card_model::World;
use planner::{decision_at_begin, decision_at_turn, handles_fit, turn_fits};
use report::{Line, Mode, Report};
use script::Script;
use sim_card::SimSlot;
use std::alloc::Global;
use tracker::Tracker;

const FETCH: u8 = 0x12;

/// What stands behind the lines so far.
#[derive(Drop)]
pub struct Behind {
    /// The cards, with no planned faults.
    pub slot: SimSlot,
    pub tracker: Tracker,
    pub boards: Boards,
    pub displays: Displays,
}

/// An empty slot with the script's cards, and no planned faults.
fn slot_of(alloc: Global, script: &Script) -> Result<SimSlot, Memory>
    requires { keeps_rules script.now ≡ true }
    ensures world { IfOk result (λ slot. slot.world ≡ first_world script.now) }
    ensures faults { IfOk result (λ slot. slot.plan.faults ≡ []) }
{
    let images = script.images(alloc)?;
    let changes = script.changes(alloc)?;
    SimSlot::new(alloc, images, changes, Sequence::new(alloc))
}

impl Behind {
    /// Before the first line.
    #[tactic(auto, using(crate::proofs::Scripts::few_actors))]
    pub fn new(alloc: Global, script: &Script) -> Result<Behind, Memory>
        requires { keeps_rules script.now ≡ true }
        ensures { IfOk result (spec.IsFirst script.now) }
    {
        let slot = slot_of(alloc, script)?;
        let displays = first_displays(alloc, slot.state())?;
        Ok(Behind {
            slot,
            tracker: Tracker::new(alloc, script)?,
            boards: Sequence::new(alloc),
            displays,
        })
    }

    /// Whether one more line can be judged and followed, whichever it is. No memory holds so many lines that it cannot.
    pub fn has_room(&self) -> bool
        requires { spec.IsReady self.now }
        ensures { result ≡ true → spec.HasSpace self.now }
    {
        let kept = self.tracker.kept();
        self.tracker.has_room() && handles_fit(&kept.handles) && turn_fits(kept)
    }
}

/// A line that is no exchange happens to the world, if it is one that the slot takes.
fn step_world(line: &Line, slot: &mut SimSlot)
    requires faults { slot.old.plan.faults ≡ [] }
    requires taken { spec.is_refused slot.old.world line.now ≡ false }
    ensures world { slot.new.world ≡ spec.world_followed line.now slot.old.world }
    ensures faults { slot.new.plan.faults ≡ [] }
{
    match line {
        Line::Reset { .. } => reset(slot),
        Line::World { event, .. } => happen(slot, event),
        _ => {}
    }
}

/// Whether it is an exchange, done or failed, of a command that writes no file.
fn writes_nothing(line: &Line) -> bool
    ensures { result ≡ display_spec.writes_nothing line.now }
{
    match line {
        Line::Exchange { command, .. } | Line::Failed { command, .. } => {
            !(is_update_ins(command.ins) || command.ins == FETCH)
        }
        _ => false,
    }
}

/// What the card shows, and the board, behind a line, which left this world; `event` is its number where it is one. Where no file was
/// written, what the card showed before is what it shows.
fn keep_displays(
    alloc: Global,
    line: &Line,
    event: u64,
    world: &World,
    displays: &mut Displays,
) -> Result<(), Memory>
    requires { display_spec.writes_nothing line.now ≡ true
        → display_spec.AreShown world.now displays.old }
    ensures { OnOk result (displays.new
        ≡ spec.displays_behind line.now event world.now displays.old) }
{
    if writes_nothing(line) {
        return Ok(());
    }
    match line {
        Line::Exchange { .. }
        | Line::Failed { .. }
        | Line::Reset { .. }
        | Line::ResetFailed { .. }
        | Line::World { .. } => refresh_all(alloc, event, world, displays),
        Line::Published {
            family,
            content,
            ..
        } => tell_all(alloc, *family, content, displays),
        _ => Ok(()),
    }
}

/// What is kept behind a line that asks for no memory.
fn keep_plain(script: &Script, line: &Line, tracker: &mut Tracker)
    requires plain { spec.asks_memory line.now ≡ false }
    requires room { HasRoom tracker.old }
    ensures { tracker.new ≡ kept_after script.now line.now tracker.old }
{
    match line {
        Line::Failed { .. } => tracker.fail(script, line),
        Line::Reset { actor } => tracker.reset(script, *actor),
        Line::ResetFailed { actor } => tracker.fail_reset(script, *actor),
        Line::World { actor, event } => tracker.happen(script, *actor, *event),
        Line::Published { .. } => tracker.publish(script, line),
        Line::EpochEnd {
            number,
            epoch,
            event,
        } => tracker.end_epoch(script, *number, *epoch, *event),
        Line::Refused { family, event } => tracker.refuse(script, *family, *event),
        Line::Turn { .. } | Line::Begin { .. } | Line::Exchange { .. } | Line::Answered { .. } => {
            unreachable!()
        }
    }
}

/// By what lines are judged.
#[derive(Drop)]
pub struct Bench<'a> {
    pub alloc: Global,
    pub script: &'a Script,
    pub mode: Mode,
}

impl<'a> Bench<'a> {
    /// By the script and the mode of a report.
    pub fn new(alloc: Global, report: &'a Report) -> Bench<'a>
        ensures script { result.script.now ≡ report.now.script }
        ensures mode { result.mode ≡ report.now.mode }
    {
        Bench {
            alloc,
            script: &report.script,
            mode: report.mode,
        }
    }
}

impl Bench<'_> {
    #[tactic(auto, using(crate::proofs::Scripts::few_actors))]
    fn keep_turn(&self, actor: u8, tracker: &mut Tracker) -> Result<(), Memory>
        requires rules { keeps_rules self.now.script.now ≡ true }
        requires room { HasRoom tracker.old }
        requires handles { do_handles_fit tracker.old.handles ≡ true }
        ensures { OnOk result (tracker.new
            ≡ kept_after self.now.script.now (line.Turn actor) tracker.old) }
    {
        if actor == 0 {
            tracker.turn_of_framework(self.script);
            return Ok(());
        }
        let kept = tracker.kept();
        let decision = decision_at_turn(self.alloc, &FamilyPlans, self.script, kept, actor)?;
        tracker.turn_of_actor(self.script, actor, decision);
        Ok(())
    }

    fn keep_begin(&self, actor: u8, op: u32, tracker: &mut Tracker) -> Result<(), Memory>
        requires room { HasRoom tracker.old }
        requires handles { do_handles_fit tracker.old.handles ≡ true }
        ensures { OnOk result (tracker.new
            ≡ kept_after self.now.script.now (line.Begin actor op) tracker.old) }
    {
        let kept = tracker.kept();
        let decision = decision_at_begin(self.alloc, &FamilyPlans, self.script, kept, actor, op)?;
        tracker.begin(self.script, actor, op, decision);
        Ok(())
    }

    fn keep_exchange(&self, line: &Line, tracker: &mut Tracker) -> Result<(), Memory>
        requires kind { kind.is_exchange line.now ≡ true }
        requires room { HasRoom tracker.old }
        ensures { OnOk result (tracker.new
            ≡ kept_after self.now.script.now line.now tracker.old) }
    {
        if !tracker.fits(self.script, line) {
            return Err(Memory);
        }
        tracker.exchange(self.script, line)
    }

    /// What is kept behind the line.
    fn keep(&self, line: &Line, tracker: &mut Tracker) -> Result<(), Memory>
        requires rules { keeps_rules self.now.script.now ≡ true }
        requires room { HasRoom tracker.old }
        requires handles { do_handles_fit tracker.old.handles ≡ true }
        ensures { OnOk result (tracker.new
            ≡ kept_after self.now.script.now line.now tracker.old) }
    {
        match line {
            Line::Turn { actor } => self.keep_turn(*actor, tracker),
            Line::Begin { actor, op } => self.keep_begin(*actor, *op, tracker),
            Line::Exchange { .. } => self.keep_exchange(line, tracker),
            Line::Answered { .. } => tracker.answer(self.script, line),
            _ => {
                keep_plain(self.script, line, tracker);
                Ok(())
            }
        }
    }

    /// What stands behind a line that breaks no rule. The card has the command of an exchange already.
    pub fn follow(&self, line: &Line, behind: &mut Behind) -> Result<(), Memory>
        requires rules { keeps_rules self.now.script.now ≡ true }
        requires tested { spec.MayFollow line.now behind.old }
        ensures { OnOk result (spec.Followed self.now.script.now line.now behind.old behind.new) }
    {
        let event = behind.tracker.kept().history.events + 1;
        step_world(line, &mut behind.slot);
        keep_displays(
            self.alloc,
            line,
            event,
            behind.slot.state(),
            &mut behind.displays,
        )?;
        self.keep(line, &mut behind.tracker)?;
        keep_board(line, behind.tracker.kept(), &mut behind.boards)
    }
}
