// A load, turn by turn.
ghost use Rattle.std.specs.Prelude.{◌≡◌, ◌+◌, ◌<◌, ◌≤◌, ◌^◌, [], false, drop, length, Some, None, Ok, OnOk, IfOk};
ghost use Rattle.std.specs.Option.{option_copied};
ghost use Rattle.apdu.specs.Stream.{Rose};
ghost use Rattle.epoch_cache.specs.Cache.{first_missing, with_completed};
ghost use Rattle.epoch_cache.specs.Places.{highest_version};
ghost use Rattle.link.specs.Commands.{is_path_select};
ghost use Rattle.link.specs.Exchanges.{Grows, Plays, added, seen, selection_over};
ghost use Rattle.loader.specs.Load as spec;
ghost use Rattle.link.specs.Selected.{KeepsTrack};
ghost use Rattle.loader.specs.declared.stage.LoadError.TheVariants as error;
ghost use Rattle.loader.specs.declared.stage.Stage.TheVariants.{Fresh, Over};
ghost use Rattle.loader.specs.Reading.{unspoiled};

use crate::turning::{Turning, reading_command, refusal_behind, stage_behind};
use crate::{
    LoadError, LoadTurn, Reading, Readings, Stage, completed_by, drop_spoiled, reading_of,
};
use apdu::{Command, Memory, Path, Response, Sequence};
use arrayvec::ArrayVec;
use card_model::{Slot, Step, Trail};
use epoch_cache::{Cache, CachedFile, Touch, all_current, first_missing as first_missing_file};
use link::{Chain, Final, Selection, transmit};
use std::alloc::Global;
use std::marker::Model;
use std::mem;

/// A load of some paths. Contracts see them, and the readings under way.
#[derive(Drop)]
pub struct LoadJob {
    alloc: Global,
    paths: ArrayVec<Path, 8>,
    readings: Readings,
}

impl Model for LoadJob {
    ghost use Rattle.loader.specs.Values.{JobValue};

    ghost Value = { JobValue };

    ghost view = { λ j. record { paths = j.paths.items; readings = j.readings } };
}

fn completed_behind(
    alloc: Global,
    answered: &Option<Final>,
    selected: Option<&Path>,
    readings: &mut Readings,
) -> Result<Option<CachedFile>, Memory>
    ensures value { IfOk result (λ file. file
        ≡ spec.completed_behind answered.now (option_copied selected.entry) readings.old) }
    ensures readings { OnOk result (readings.new
        ≡ spec.readings_exchanged (option_copied selected.entry) answered.now readings.old) }
{
    match answered {
        None => Ok(None),
        Some(answered) => completed_by(alloc, true, answered, selected, readings),
    }
}

fn put_completed(completed: Option<CachedFile>, cache: &mut Cache) -> Result<(), Memory>
    ensures files { OnOk result (cache.new.files ≡ with_completed completed cache.old.files) }
    ensures bound { highest_version cache.new.places ≡ highest_version cache.old.places }
{
    match completed {
        None => Ok(()),
        Some(file) => {
            let CachedFile { path, content, arr } = file;
            cache.put(&path, content, arr)
        }
    }
}

// The steps of a trail behind so many.
fn steps_from(trail: &Trail, from: usize) -> &[Step]
    requires { from ≤ length trail.now }
    ensures { result.now ≡ drop from trail.now }
{
    &trail.as_slice()[from..]
}

impl LoadJob {
    pub fn begin(alloc: Global, paths: ArrayVec<Path, 8>) -> LoadJob
        ensures { result ≡ record { paths = paths.items; readings = [] } }
    {
        LoadJob {
            alloc,
            paths,
            readings: Sequence::new(alloc),
        }
    }

    /// The readings under way.
    pub fn readings(&self) -> &[Reading]
        ensures { result.now ≡ self.now.readings }
    {
        self.readings.as_slice()
    }

    /// The first path that is not current.
    pub fn wants_file(&self, cache: &Cache) -> Option<Path>
        ensures { result ≡ first_missing cache.now.files self.now.paths }
    {
        let paths = self.paths.as_slice();
        Some(first_missing_file(cache.files(), paths)?.copy())
    }

    /// Drops the readings of what an event of others moved or wrote; they begin anew. `selected`
    /// was current on the basic channel before that event. This takes no memory.
    pub fn forget(&mut self, touch: &Touch, selected: Option<&Path>)
        ensures { self.new ≡ record self.old {
          readings = unspoiled touch.now
              (option_copied selected.entry) self.old.readings;
        } }
    {
        drop_spoiled(self.alloc, touch, selected, &mut self.readings);
    }

    fn answered(
        &mut self,
        path: &Path,
        command: &Command,
        response: &Response,
        turning: &mut Turning,
        cache: &mut Cache,
    ) -> Result<(), Memory>
        requires { turning.old.events + 1 < 2 ^ 64 }
        ensures events { OnOk result (turning.new.events ≡ turning.old.events + 1) }
        ensures load { OnOk result (spec.load_of turning.new cache.new.files self.new.readings
            ≡ spec.load_by path.now command.now (Ok response.now)
            (spec.load_of turning.old cache.old.files self.old.readings)) }
        ensures paths { self.new.paths ≡ self.old.paths }
        ensures bound { highest_version cache.new.places ≡ highest_version cache.old.places }
    {
        let answered = Final::after(0, command, response, turning.events, turning.chain.as_ref());
        let selected = turning.selection.path();
        let completed = completed_behind(self.alloc, &answered, selected, &mut self.readings)?;
        put_completed(completed, cache)?;
        let stage = mem::replace(&mut turning.stage, Stage::Over);
        turning.stage = stage_behind(path, self.readings.as_slice(), &answered, stage);
        turning.refused = refusal_behind(&answered);
        turning.chain = Chain::after(command, response, turning.chain.as_ref());
        turning.selection.follow(command, response);
        turning.events += 1;
        Ok(())
    }

    fn follow(
        &mut self,
        path: &Path,
        step: &Step,
        turning: &mut Turning,
        cache: &mut Cache,
    ) -> Result<(), Memory>
        requires { turning.old.events + 1 < 2 ^ 64 }
        ensures events { OnOk result (turning.new.events ≡ turning.old.events + 1) }
        ensures load { OnOk result (spec.load_of turning.new cache.new.files self.new.readings
            ≡ spec.load_by path.now step.now.command step.now.outcome
            (spec.load_of turning.old cache.old.files self.old.readings)) }
        ensures paths { self.new.paths ≡ self.old.paths }
        ensures bound { highest_version cache.new.places ≡ highest_version cache.old.places }
    {
        match &step.outcome {
            Ok(response) => self.answered(path, &step.command, response, turning, cache),
            Err(_) => {
                turning.chain = None;
                turning.stage = Stage::Over;
                turning.selection.clear();
                turning.events += 1;
                turning.refused = Some(LoadError::Slot);
                Ok(())
            }
        }
    }

    fn follow_steps(
        &mut self,
        path: &Path,
        steps: &[Step],
        turning: &mut Turning,
        cache: &mut Cache,
    ) -> Result<(), Memory>
        requires { turning.old.events + length steps.now < 2 ^ 64 }
        ensures events { OnOk result (turning.new.events ≡ turning.old.events + length steps.now) }
        ensures load { OnOk result (spec.load_of turning.new cache.new.files self.new.readings
            ≡ spec.load_after path.now steps.now
            (spec.load_of turning.old cache.old.files self.old.readings)) }
        ensures paths { self.new.paths ≡ self.old.paths }
        ensures bound { highest_version cache.new.places ≡ highest_version cache.old.places }
    {
        for step in steps {
            self.follow(path, step, turning, cache)?;
        }
        Ok(())
    }

    // Sends the command that is due, with what its responses ask for.
    fn send<S: Slot>(
        &mut self,
        slot: &mut S,
        path: &Path,
        command: &Command,
        turning: &mut Turning,
        cache: &mut Cache,
        trail: &mut Trail,
    ) -> Result<(), Memory>
        requires room { length trail.old ≤ 12 }
        requires events { turning.old.events + 4 < 2 ^ 64 }
        requires chain { turning.old.chain ≡ None }
        requires due { spec.load_due path.now
            (spec.load_of turning.old cache.old.files self.old.readings) ≡ Some command.now }
        ensures trail { Grows 4 trail.old trail.new }
        ensures slot { Plays (seen (S.world slot.old) (S.plan slot.old) (S.faults slot.old))
            (added trail.old trail.new)
            (seen (S.world slot.new) (S.plan slot.new) (S.faults slot.new)) }
        ensures due { spec.AreDue path.now (added trail.old trail.new)
            (spec.load_of turning.old cache.old.files self.old.readings) }
        ensures load { OnOk result (spec.load_of turning.new cache.new.files self.new.readings
            ≡ spec.load_after path.now (added trail.old trail.new)
            (spec.load_of turning.old cache.old.files self.old.readings)) }
        ensures chain { OnOk result (turning.new.chain ≡ None) }
        ensures reads { OnOk result (spec.IsReadNext turning.new.stage) }
        ensures over { OnOk result (is_path_select command.now ≡ false → turning.new.stage
            ≡ Over) }
        ensures later { S.faults slot.old ≤ S.faults slot.new }
        ensures fault { OnOk result (turning.new.refused
            ≡ Some error.Slot → Rose (S.faults slot.old) (S.faults slot.new)) }
        ensures events { OnOk result (turning.new.events ≤ turning.old.events + 4) }
        ensures paths { self.new.paths ≡ self.old.paths }
        ensures bound { highest_version cache.new.places ≡ highest_version cache.old.places }
    {
        let from = trail.len();
        let _ = transmit(slot, command, trail);
        self.follow_steps(path, steps_from(trail, from), turning, cache)
    }

    // The command that reads the path on, and behind its SELECT the first READ.
    fn read_on<S: Slot>(
        &mut self,
        slot: &mut S,
        path: &Path,
        turning: &mut Turning,
        cache: &mut Cache,
        trail: &mut Trail,
    ) -> Result<(), Memory>
        requires room { length trail.old ≤ 8 }
        requires events { turning.old.events + 8 < 2 ^ 64 }
        requires chain { turning.old.chain ≡ None }
        requires fresh { turning.old.stage ≡ Fresh }
        ensures trail { Grows 8 trail.old trail.new }
        ensures slot { Plays (seen (S.world slot.old) (S.plan slot.old) (S.faults slot.old))
            (added trail.old trail.new)
            (seen (S.world slot.new) (S.plan slot.new) (S.faults slot.new)) }
        ensures due { spec.AreDue path.now (added trail.old trail.new)
            (spec.load_of turning.old cache.old.files self.old.readings) }
        ensures load { OnOk result (spec.load_of turning.new cache.new.files self.new.readings
            ≡ spec.load_after path.now (added trail.old trail.new)
            (spec.load_of turning.old cache.old.files self.old.readings)) }
        ensures later { S.faults slot.old ≤ S.faults slot.new }
        ensures fault { OnOk result (turning.new.refused
            ≡ Some error.Slot → Rose (S.faults slot.old) (S.faults slot.new)) }
        ensures over { OnOk result (spec.load_due path.now
            (spec.load_of turning.new cache.new.files self.new.readings) ≡ None) }
        ensures paths { self.new.paths ≡ self.old.paths }
        ensures bound { highest_version cache.new.places ≡ highest_version cache.old.places }
    {
        let g = reading_of(path, self.readings.as_slice());
        let command = reading_command(&turning.selection, path, g);
        self.send(slot, path, &command, turning, cache, trail)?;
        let Some(read) = turning.stage.next() else {
            return Ok(());
        };
        self.send(slot, path, &read, turning, cache, trail)
    }

    /// Reads on by at most one READ: that of the first path that is not current, behind the SELECT
    /// that it needs. `events` is how many events there were before. A job that refuses is not
    /// turned again.
    pub fn turn<S: Slot>(
        &mut self,
        slot: &mut S,
        selection: &mut Selection,
        cache: &mut Cache,
        events: u64,
        trail: &mut Trail,
    ) -> Result<LoadTurn, LoadError>
        requires room { length trail.old ≤ 8 }
        requires events { events + 8 < 2 ^ 64 }
        ensures trail { Grows 8 trail.old trail.new }
        ensures slot { Plays (seen (S.world slot.old) (S.plan slot.old) (S.faults slot.old))
            (added trail.old trail.new)
            (seen (S.world slot.new) (S.plan slot.new) (S.faults slot.new)) }
        ensures due { spec.IsDue (first_missing cache.old.files self.old.paths)
            (added trail.old trail.new)
            (spec.load_begun selection.old cache.old.files self.old.readings events) }
        ensures selection { selection.new
            ≡ selection_over (added trail.old trail.new) selection.old }
        ensures tracked { KeepsTrack (S.world slot.old)
            (S.world slot.new) selection.old selection.new }
        ensures cause { spec.FaultHasCause (S.faults slot.old) (S.faults slot.new) result }
        ensures done { spec.HadMemory result (spec.HasTurned
            (first_missing cache.old.files self.old.paths) self.old.paths
            (spec.load_behind (first_missing cache.old.files self.old.paths)
            (added trail.old trail.new)
            (spec.load_begun selection.old cache.old.files self.old.readings events))
            cache.new.files self.new.readings result) }
        ensures paths { self.new.paths ≡ self.old.paths }
        ensures bound { highest_version cache.new.places ≡ highest_version cache.old.places }
    {
        let from = trail.len();
        let turned = self.read_missing(slot, selection, cache, events, trail);
        selection.follow_steps(steps_from(trail, from));
        turned
    }

    // Reads the first path that is not current on, and says what that comes to.
    fn read_missing<S: Slot>(
        &mut self,
        slot: &mut S,
        selection: &Selection,
        cache: &mut Cache,
        events: u64,
        trail: &mut Trail,
    ) -> Result<LoadTurn, LoadError>
        requires room { length trail.old ≤ 8 }
        requires events { events + 8 < 2 ^ 64 }
        ensures trail { Grows 8 trail.old trail.new }
        ensures slot { Plays (seen (S.world slot.old) (S.plan slot.old) (S.faults slot.old))
            (added trail.old trail.new)
            (seen (S.world slot.new) (S.plan slot.new) (S.faults slot.new)) }
        ensures due { spec.IsDue (first_missing cache.old.files self.old.paths)
            (added trail.old trail.new)
            (spec.load_begun selection.now cache.old.files self.old.readings events) }
        ensures cause { spec.FaultHasCause (S.faults slot.old) (S.faults slot.new) result }
        ensures done { spec.HadMemory result (spec.HasTurned
            (first_missing cache.old.files self.old.paths) self.old.paths
            (spec.load_behind (first_missing cache.old.files self.old.paths)
            (added trail.old trail.new)
            (spec.load_begun selection.now cache.old.files self.old.readings events))
            cache.new.files self.new.readings result) }
        ensures paths { self.new.paths ≡ self.old.paths }
        ensures bound { highest_version cache.new.places ≡ highest_version cache.old.places }
    {
        let Some(path) = self.wants_file(cache) else {
            return self.answer(None, cache);
        };
        let mut turning = Turning {
            chain: None,
            stage: Stage::Fresh,
            selection: selection.copy(),
            events,
            refused: None,
        };
        match self.read_on(slot, &path, &mut turning, cache, trail) {
            Ok(()) => self.answer(turning.refused, cache),
            Err(_) => Err(LoadError::Memory),
        }
    }

    fn answer(&self, refused: Option<LoadError>, cache: &Cache) -> Result<LoadTurn, LoadError>
        ensures { result ≡ spec.load_answer self.now.paths refused cache.now.files }
    {
        match refused {
            Some(error) => Err(error),
            None => Ok(if all_current(cache.files(), self.paths.as_slice()) {
                LoadTurn::Ready
            } else {
                LoadTurn::Going
            }),
        }
    }
}
