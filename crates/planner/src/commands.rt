// The command, the reset, the event and the publication that are due.
ghost use Rattle.std.specs.Prelude.{◌≡◌, [], true};
ghost use Rattle.std.specs.Option.{option_copied};
ghost use Rattle.editor.specs.Editing as edits;
ghost use Rattle.families.specs.Families as families;
ghost use Rattle.link.specs.Commands as commands;
ghost use Rattle.loader.specs.Load as loads;
ghost use Rattle.rules.specs.Due as rules;
ghost use Rattle.rules.specs.Editing.{attempt_of as attempt_in};
ghost use Rattle.rules.specs.Kept.{first_job};
ghost use Rattle.planner.specs.Room.{attempt_fits, begun_fits, turn_fits, update_fits};

use adn::RowUpdate;
use apdu::{Command, Path};
use arrayvec::ArrayVec;
use card_model::WorldEvent;
use editor::{Attempt, family_paths, update_command};
use epoch_cache::all_current;
use link::{select_for_reading, select_only};
use loader::{Reading, reading_of};
use rules::{Begun, Job, Kept, Stage, Work};

const SELECT: u8 = 0xA4;

// P1 and P2 of a SELECT by path, without an answer.
const BY_PATH: u8 = 0x08;

const WITHOUT_ANSWER: u8 = 0x0C;

// ---- commands

fn is_at(selected: Option<&Path>, path: &Path) -> bool
    ensures { result ≡ commands.is_at (option_copied selected.entry) path.now }
{
    match selected {
        None => false,
        Some(selected) => path.equals(selected),
    }
}

fn selected_first(selected: Option<&Path>, path: &Path, command: Command) -> Command
    ensures { result ≡ loads.selected_first (option_copied selected.entry) path.now command }
{
    if is_at(selected, path) {
        command
    } else {
        select_only(path)
    }
}

fn reading_command(selected: Option<&Path>, path: &Path, g: Option<&Reading>) -> Command
    ensures { result ≡ loads.reading_command (option_copied selected.entry) path.now
        (option_copied g.entry) }
{
    match g {
        None => select_for_reading(path),
        Some(g) => match g.next_read() {
            None => select_for_reading(path),
            Some(command) => selected_first(selected, path, command),
        },
    }
}

// The same of the master file, in which no update is made.
fn master_first(selected: Option<&Path>, command: Command) -> Command
    ensures { result ≡ loads.selected_first (option_copied selected.entry) [] command }
{
    match selected {
        Some(path) if path.ids().is_empty() => command,
        _ => Command {
            class: 0,
            ins: SELECT,
            p1: BY_PATH,
            p2: WITHOUT_ANSWER,
            body: ArrayVec::new(),
            le: None,
        },
    }
}

// An update of a file of the family.
fn update_first(selected: Option<&Path>, family: u8, update: &RowUpdate) -> Command
    requires { update_fits update.now ≡ true }
    ensures { result ≡ loads.selected_first (option_copied selected.entry)
        (families.family_path family update.now.file) (edits.update_command update.now) }
{
    let paths = family_paths(family);
    match paths.as_slice().get(update.file as usize) {
        None => master_first(selected, update_command(update)),
        Some(path) => selected_first(selected, path, update_command(update)),
    }
}

fn writing_command(selected: Option<&Path>, attempt: Option<&Attempt>) -> Option<Command>
    requires { attempt_fits (option_copied attempt) ≡ true }
    ensures { result ≡ rules.writing_command (option_copied selected.entry)
        (option_copied attempt.entry) }
{
    let attempt = attempt?;
    let update = attempt.next_update()?;
    Some(update_first(selected, attempt.family, update))
}

fn attempt_of(begun: Option<&Begun>) -> Option<&Attempt>
    ensures { option_copied result ≡ attempt_in (option_copied begun.entry) }
{
    begun?.editing.attempt.as_ref()
}

// The first command of a turn.
fn first_command(selected: Option<&Path>, job: &Job, work: &Work) -> Option<Command>
    requires { begun_fits job.now.begun ≡ true }
    ensures { result ≡ rules.first_command (option_copied selected.entry) job.now work.now }
{
    match work {
        Work::Sends(command) => Some(command.copy()),
        Work::Reads(path) => {
            let g = reading_of(path, job.readings.as_slice());
            Some(reading_command(selected, path, g))
        }
        Work::Writes => writing_command(selected, attempt_of(job.begun.as_ref())),
        _ => None,
    }
}

// The same of an actor of whom nothing is kept.
fn first_command_anew(selected: Option<&Path>, work: &Work) -> Option<Command>
    ensures { result ≡ rules.first_command (option_copied selected.entry) first_job work.now }
{
    match work {
        Work::Sends(command) => Some(command.copy()),
        Work::Reads(path) => Some(reading_command(selected, path, None)),
        _ => None,
    }
}

fn first_of_turn(kept: &Kept) -> Option<Command>
    requires { turn_fits kept.now.turn.actor kept.now.jobs ≡ true }
    ensures { result ≡ rules.first_of_turn kept.now.selected kept.now.jobs kept.now.turn.work
        kept.now.turn.actor }
{
    let actor = kept.turn.actor?;
    match kept.jobs.get(actor as usize) {
        None => first_command_anew(kept.selected.as_ref(), &kept.turn.work),
        Some(job) => first_command(kept.selected.as_ref(), job, &kept.turn.work),
    }
}

fn command_by_stage(kept: &Kept) -> Option<Command>
    requires { turn_fits kept.now.turn.actor kept.now.jobs ≡ true }
    ensures { result ≡ rules.command_by_stage kept.now kept.now.turn.stage }
{
    match &kept.turn.stage {
        Stage::Fresh => first_of_turn(kept),
        Stage::Next(command) => Some(command.copy()),
        Stage::Resetting | Stage::Over => None,
    }
}

/// The command that the turn sends next: what follows a response 61XX or 6CXX, or what its work asks
/// for.
pub fn due_command(kept: &Kept) -> Option<Command>
    requires { turn_fits kept.now.turn.actor kept.now.jobs ≡ true }
    ensures { result ≡ rules.due_command kept.now }
{
    match &kept.chain {
        Some(chain) => Some(chain.next.copy()),
        None => command_by_stage(kept),
    }
}

// ---- resets and events of the world

/// Whether the turn resets the card next.
pub fn is_reset_due(kept: &Kept) -> bool
    ensures { result ≡ rules.is_reset_due kept.now }
{
    match &kept.turn.stage {
        Stage::Fresh => matches!(&kept.turn.work, Work::Resets),
        Stage::Next(_) => false,
        Stage::Resetting => true,
        Stage::Over => false,
    }
}

fn event_of(work: &Work) -> Option<WorldEvent>
    ensures { result ≡ rules.event_of work.now }
{
    match work {
        Work::Happens(event) => Some(*event),
        _ => None,
    }
}

/// The event of the world that the turn tries next.
pub fn tried_event(kept: &Kept) -> Option<WorldEvent>
    ensures { result ≡ rules.tried_event kept.now }
{
    match &kept.turn.stage {
        Stage::Fresh => event_of(&kept.turn.work),
        _ => None,
    }
}

// ---- publications

fn published_by(kept: &Kept, family: u8) -> Option<u8>
    ensures { result ≡ rules.published_by kept.now family }
{
    if kept.turn.published.is_none() && all_current(&kept.files, family_paths(family).as_slice()) {
        Some(family)
    } else {
        None
    }
}

/// The family that the turn publishes next.
pub fn due_publication(kept: &Kept) -> Option<u8>
    ensures { result ≡ rules.due_publication kept.now }
{
    published_by(kept, kept.turn.family?)
}
