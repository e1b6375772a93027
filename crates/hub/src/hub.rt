// What callers have of a hub. The laws of the crate performed that are called do nothing: the proofs rest on their contracts.
ghost use Rattle.std.specs.Prelude.{◌≡◌, ◌&&◌, ◌≤◌, ◌∷◌, [], not, true, false, reverse, slice_get, IsSome, IfSome, IsErr, IfOk, OnOk, OnErr};
ghost use Rattle.script_reader.specs.Rules.{keeps_rules};
ghost use Rattle.script_reader.specs.World.{first_world};
ghost use Rattle.report.specs.declared.line.Line.TheVariants as line;
ghost use Rattle.rules.specs.Kept.{actor_count};
ghost use Rattle.rules.specs.Work.{is_finished as is_run_finished, is_idle as is_actor_idle};
ghost use Rattle.rules.specs.Legal.{legal};
ghost use Rattle.performed.specs.Placed.{are_placed, is_turn_allowed};
ghost use Rattle.watched_tracker.specs.Asked.{watches_asked};
ghost use Rattle.hub.specs.DueSoFar.{IsDueSoFar};
ghost use Rattle.hub.specs.Hub.{ChangesNothingOrBreaks, IsAtRest, TakesTurn, kept_now, turn_answer};

use crate::engine::Engine;
use crate::names::script_names_are_utf8;
use crate::turn::Turn;
use apdu::Memory;
use card_model::ScriptedSlot;
use performed::{
    finished_runs_are_legal, turns_that_do_not_wait_do_something, turns_that_do_not_wait_move,
};
use report::{Line, Mode, Report, ReservedLines};
use script::Script;
use std::alloc::Global;
use std::marker::Model;
use watched_tracker::WatchedTracker;
use watchers::{Filter, WatchList};

/// A hub between the card of a slot and the actors of a script. Contracts see the script, the lines with the newest first, and the world
/// and the planned faults where the slot tells them. Behind want of memory in mid-turn it is not whole, and answers nothing but that.
#[derive(Drop)]
pub struct Hub<S: ScriptedSlot, P: Filter> {
    engine: Engine<S, P>,
    whole: bool,
}

impl<S: ScriptedSlot, P: Filter> Model for Hub<S, P> {
    ghost use Rattle.std.specs.Prelude.{◌≡◌, true};
    ghost use Rattle.hub.specs.Hub.{HubValue};

    ghost Value = { HubValue };

    ghost use Rattle.hub.specs.Parts.{parts};
    ghost use Rattle.hub.specs.Settled.{IsSettled};

    ghost view = { λ h. record {
      script = h.engine.script;
      lines = h.engine.lines.lines;
      world = S.Slot.world h.engine.slot;
      plan = S.Slot.plan h.engine.slot;
      whole = h.whole;
    } };

    ghost invariant = { λ h. h.whole ≡ true → IsSettled (parts S.Slot.world S.Slot.plan h.engine) };
}

impl<S: ScriptedSlot + Drop, P: Filter + Drop> Hub<S, P> {
    /// A hub with no lines, over an empty slot with the script's cards, with one watch for each `watch` of the script, in its order.
    #[tactic(auto, using(crate::proofs::Scripts::few_actors))]
    pub fn new(
        alloc: Global,
        slot: S,
        script: Script,
        watches: WatchList<P>,
    ) -> Result<Hub<S, P>, Memory>
        requires rules { keeps_rules script ≡ true }
        requires world { IfSome (S.Slot.world slot) (λ w. w ≡ first_world script) }
        requires plan { IfSome (S.Slot.plan slot)
            (λ p. p ≡ record { faults = script.faults; calls = 0 }) }
        requires watches { watches ≡ watches_asked script }
        ensures { IfOk result (λ h. h ≡ record {
          script = script;
          lines = [];
          world = S.Slot.world slot;
          plan = S.Slot.plan slot;
          whole = true;
        }) }
    {
        script_names_are_utf8(&script);
        let tracker = WatchedTracker::new(alloc, &script, watches)?;
        Ok(Hub {
            engine: Engine {
                alloc,
                slot,
                script,
                lines: ReservedLines::new(alloc),
                tracker,
            },
            whole: true,
        })
    }

    pub fn script(&self) -> &Script
        ensures { result.now ≡ self.now.script }
    {
        &self.engine.script
    }

    /// Whether the run is not finished. A run that broke off is.
    pub fn pending(&self) -> bool
        ensures value { result ≡ (self.now.whole
            && not (is_run_finished self.now.script (kept_now self.now))) }
        ensures rest { self.now.whole ≡ true → IsAtRest self.now }
    {
        self.whole && self.engine.pending()
    }

    /// How many events there were.
    pub fn events(&self) -> u64
        ensures { self.now.whole ≡ true → result ≡ (kept_now self.now).history.events }
    {
        self.engine.tracker.kept().history.events
    }

    /// How many publications there were.
    pub fn publications(&self) -> u64
        ensures { self.now.whole ≡ true → result ≡ (kept_now self.now).publications }
    {
        self.engine.tracker.kept().publications
    }

    /// A copy of the line of this index, counted from the first line.
    pub fn line(&self, at: usize) -> Result<Option<Line>, Memory>
        ensures { IfOk result (λ line. line ≡ slice_get (reverse self.now.lines) at) }
    {
        self.engine.lines.get(at)
    }

    /// How often the files of a family were decoded. A publication decodes nothing that is kept.
    pub fn decodings(&self) -> u64 {
        self.engine.tracker.decodings()
    }

    /// A turn of an actor; actor 0 is the framework. Want of memory before the turn's first event changes nothing; behind it the hub is
    /// not whole.
    pub fn turn(&mut self, actor: u8) -> Result<Turn, Memory>
        requires { actor ≤ actor_count self.old.script }
        ensures answer { IfOk result (λ t. t
            ≡ turn_answer self.old.script (kept_now self.old) actor) }
        ensures idle { OnOk result (is_actor_idle self.old.script (kept_now self.old) actor ≡ true
            → self.new ≡ self.old) }
        ensures moved { OnOk result (is_actor_idle self.old.script (kept_now self.old) actor ≡ false
            → TakesTurn actor self.old self.new) }
        ensures err { OnErr result (ChangesNothingOrBreaks actor self.old self.new) }
        ensures broken { self.old.whole ≡ false → IsErr result }
        ensures left { self.old.whole ≡ false → self.new ≡ self.old }
    {
        if !self.whole {
            return Err(Memory);
        }
        match self.engine.turn_answer(actor) {
            Turn::Moved => {}
            idle => return Ok(idle),
        }
        turns_that_do_not_wait_do_something();
        turns_that_do_not_wait_move();
        let ready = self.engine.prepare(actor)?;
        self.whole = false;
        self.engine.take_turn(actor, ready)?;
        self.whole = true;
        Ok(Turn::Moved)
    }

    /// A turn without lines, of an actor who waits or has nothing left. Want of memory changes nothing.
    pub fn note_idle(&mut self, actor: u8) -> Result<(), Memory>
        requires actor { actor ≤ actor_count self.old.script }
        requires pending { is_run_finished self.old.script (kept_now self.old) ≡ false }
        requires idle { is_actor_idle self.old.script (kept_now self.old) actor ≡ true }
        ensures ok { OnOk result (self.new ≡ record self.old {
          lines = line.Turn actor ∷ self.old.lines;
        }) }
        ensures err { OnErr result (self.new ≡ self.old) }
        ensures broken { self.old.whole ≡ false → IsErr result }
    {
        if !self.whole {
            return Err(Memory);
        }
        let mark = self.engine.prepare_mark(actor)?;
        self.engine.mark(actor, mark);
        Ok(())
    }

    /// The lines of a hub that is whole are due, whole turns of them, and show what its slot gave. Nothing is done by it: the clause is the law.
    pub fn lines_are_due(&self)
        ensures { self.now.whole ≡ true → IsDueSoFar self.now }
    {
        let _ = &self.whole;
    }

    /// The report of a run that is finished. It is legal where the slot tells its world.
    pub fn finish(self, mode: Mode) -> Result<Report, Memory>
        requires finished { is_run_finished self.script (kept_now self) ≡ true }
        requires placed { are_placed self.script mode self.lines ≡ true }
        requires allowed { is_turn_allowed mode (kept_now self).turn ≡ true }
        ensures script { IfOk result (λ r. r.script ≡ self.script) }
        ensures mode { IfOk result (λ r. r.mode ≡ mode) }
        ensures lines { IfOk result (λ r. r.lines ≡ self.lines) }
        ensures legal { IfOk result (λ r. IsSome self.world → legal r ≡ true) }
    {
        let Hub { engine, whole } = self;
        if !whole {
            return Err(Memory);
        }
        finished_runs_are_legal();
        let Engine {
            alloc: _,
            slot: _,
            script,
            lines,
            tracker: _,
        } = engine;
        Ok(Report {
            script,
            mode,
            lines: lines.into_lines(),
        })
    }
}
