// What a line leaves of the turn that it belongs to.
ghost use Rattle.std.specs.Prelude.{◌≡◌, ◌≤◌, true, length, IfSome, option_and_then, option_map};
ghost use Rattle.std.specs.Option.{option_copied};
ghost use Rattle.apdu.specs.Words.{or_else as first_or_else};
ghost use Rattle.channels.specs.Channels as channel_commands;
ghost use Rattle.channels.specs.Channels.{is_opening as is_opening_command};
ghost use Rattle.editor.specs.Editing as edits;
ghost use Rattle.loader.specs.Load as load;
ghost use Rattle.loader.specs.Reading as readings;
ghost use Rattle.rules.specs.After as rules;
ghost use Rattle.rules.specs.Channels.{held_numbers};
ghost use Rattle.rules.specs.Editing.{attempt_of as attempt_in};
ghost use Rattle.rules.specs.declared.kept.Outcome.TheVariants as outcome;
ghost use Rattle.tracker.specs.Room.{attempt_fits, begun_fits, operation_fits};

use crate::holdings::opened_number;
use crate::own::is_update_ins;
use apdu::{Command, Path};
use channels::{close_command, is_opening, select_application};
use editor::{Attempt, has_path, update_command};
use epoch_cache::{Past, asks_reset};
use link::{Final, is_path_select, wants_more};
use loader::{Reading, RefusedReading, has_bad_fcp, reading_of};
use refresh_cmd::Proactive;
use rules::{Begun, Facts, Handles, Job, Outcome, Stage, Turn, Work};
use script::Operation;

const SELECT: u8 = 0xA4;

// Status words, ETSI TS 102 221 clause 10.2.1.
const NO_CHANNEL_LEFT: u16 = 0x6A81;

// ---- the stage behind a command

fn next_or_over(command: Option<Command>) -> Stage
    ensures { result ≡ rules.next_or_over command }
{
    match command {
        None => Stage::Over,
        Some(command) => Stage::Next(command),
    }
}

fn select_opened(aid: &[u8], opened: Option<u8>) -> Stage
    requires channel { IfSome opened (λ n. n ≤ 19) }
    requires short { length aid.now ≤ 255 }
    ensures { result ≡ rules.next_or_over
        (option_map (λ n. channel_commands.select_application n aid.now) opened) }
{
    match opened {
        None => Stage::Over,
        Some(number) => Stage::Next(select_application(number, aid)),
    }
}

fn close_opened(opened: Option<u8>) -> Stage
    ensures { result ≡ rules.next_or_over (option_map channel_commands.close_command opened) }
{
    match opened {
        None => Stage::Over,
        Some(number) => Stage::Next(close_command(number)),
    }
}

fn stage_of_open(aid: &[u8], opened: Option<u8>, answered: &Final) -> Stage
    requires channel { is_opening_command answered.now.command ≡ true
        → IfSome opened (λ n. n ≤ 19) }
    requires short { length aid.now ≤ 255 }
    ensures { result ≡ rules.stage_of_open aid.now opened answered.now }
{
    if is_opening(&answered.command) {
        select_opened(aid, opened)
    } else if answered.command.ins == SELECT && !answered.response.sw.is_success() {
        close_opened(opened)
    } else {
        Stage::Over
    }
}

fn stage_of_framework(refresh: Option<&Proactive>) -> Stage
    ensures { result ≡ rules.stage_of_framework (option_copied refresh.entry) }
{
    match refresh {
        None => Stage::Over,
        Some(refresh) => if asks_reset(refresh) {
            Stage::Resetting
        } else {
            Stage::Over
        },
    }
}

fn stage_of_sent(
    operation: Option<&Operation>,
    opened: Option<u8>,
    refresh: Option<&Proactive>,
    answered: &Final,
) -> Stage
    requires channel { is_opening_command answered.now.command ≡ true
        → IfSome opened (λ n. n ≤ 19) }
    requires fits { operation_fits (option_copied operation) ≡ true }
    ensures { result ≡ rules.stage_of_sent (option_copied operation.entry) opened
        (option_copied refresh.entry) answered.now }
{
    match operation {
        None => stage_of_framework(refresh),
        Some(Operation::OpenChannel { aid, .. }) => stage_of_open(aid.as_slice(), opened, answered),
        Some(_) => Stage::Over,
    }
}

fn is_selected(answered: &Final) -> bool
    ensures { result ≡ load.is_selected answered.now }
{
    is_path_select(&answered.command) && answered.response.sw.is_success()
}

fn next_of(path: &Path, list: &[Reading]) -> Option<Command>
    ensures { result
        ≡ option_and_then readings.next_read (readings.reading_of path.now list.now) }
{
    reading_of(path, list)?.next_read()
}

fn read_behind(path: &Path, list: &[Reading], answered: &Final) -> Option<Command>
    ensures { result ≡ load.read_behind path.now list.now answered.now }
{
    if is_selected(answered) {
        next_of(path, list)
    } else {
        None
    }
}

fn stage_of_read(path: &Path, list: &[Reading], answered: &Final) -> Stage
    ensures { result ≡ rules.stage_of_read path.now list.now answered.now }
{
    next_or_over(read_behind(path, list, answered))
}

fn update_of(attempt: Option<&Attempt>) -> Option<Command>
    requires { attempt_fits (option_copied attempt) ≡ true }
    ensures { result ≡ option_map edits.update_command
        (option_and_then edits.next_update (option_copied attempt.entry)) }
{
    let update = attempt?.next_update()?;
    Some(update_command(update))
}

fn stage_of_write(attempt: Option<&Attempt>, answered: &Final) -> Stage
    requires { attempt_fits (option_copied attempt) ≡ true }
    ensures { result ≡ rules.stage_of_write (option_copied attempt.entry) answered.now }
{
    if is_selected(answered) {
        next_or_over(update_of(attempt))
    } else {
        Stage::Over
    }
}

fn attempt_of(begun: &Option<Begun>) -> Option<&Attempt>
    ensures { option_copied result ≡ attempt_in begun.now }
{
    match begun {
        None => None,
        Some(begun) => begun.editing.attempt.as_ref(),
    }
}

/// Where the turn goes on behind a command. `job` is that of its actor behind the line.
fn stage_after(
    work: &Work,
    operation: Option<&Operation>,
    opened: Option<u8>,
    job: &Job,
    refresh: Option<&Proactive>,
    answered: &Final,
) -> Stage
    requires channel { is_opening_command answered.now.command ≡ true
        → IfSome opened (λ n. n ≤ 19) }
    requires operation { operation_fits (option_copied operation) ≡ true }
    requires attempt { begun_fits job.now.begun ≡ true }
    ensures { result ≡ rules.stage_after work.now (option_copied operation.entry) opened job.now
        (option_copied refresh.entry) answered.now }
{
    match work {
        Work::Sends(_) => stage_of_sent(operation, opened, refresh, answered),
        Work::Reads(path) => stage_of_read(path, job.readings.as_slice(), answered),
        Work::Writes => stage_of_write(attempt_of(&job.begun), answered),
        _ => Stage::Over,
    }
}

// ---- what a command comes to

fn status_outcome(answered: &Final) -> Outcome
    ensures { result ≡ outcome.Status (record { 0 = answered.now.response.sw }) answered.now.event }
{
    Outcome::Status {
        sw: answered.response.sw,
        event: answered.event,
    }
}

fn refused_outcome(answered: &Final) -> Option<Outcome>
    ensures { result ≡ rules.refused_outcome answered.now }
{
    let event = answered.event;
    if wants_more(answered.response.sw) {
        Some(Outcome::Loop { event })
    } else if answered.is_refused() {
        Some(status_outcome(answered))
    } else if has_bad_fcp(answered) {
        Some(Outcome::BadFcp { event })
    } else {
        None
    }
}

fn success_or_refusal(good: Outcome, answered: &Final) -> Option<Outcome>
    ensures { result ≡ rules.success_or_refusal good answered.now }
{
    if answered.response.sw.is_success() {
        Some(good)
    } else {
        refused_outcome(answered)
    }
}

fn opening_outcome(opened: Option<u8>, answered: &Final) -> Option<Outcome>
    ensures { result ≡ rules.opening_outcome opened answered.now }
{
    if opened.is_some() {
        return None;
    }
    if answered.response.sw.0 == NO_CHANNEL_LEFT {
        Some(Outcome::Exhausted {
            event: answered.event,
        })
    } else if answered.response.sw.is_success() {
        Some(status_outcome(answered))
    } else {
        refused_outcome(answered)
    }
}

fn selecting_outcome(opened: Option<u8>, answered: &Final) -> Option<Outcome>
    ensures { result ≡ rules.selecting_outcome opened answered.now }
{
    match opened {
        None => refused_outcome(answered),
        Some(channel) => success_or_refusal(Outcome::Opened { channel }, answered),
    }
}

fn open_outcome(opened: Option<u8>, answered: &Final) -> Option<Outcome>
    ensures { result ≡ rules.open_outcome opened answered.now }
{
    if is_opening(&answered.command) {
        opening_outcome(opened, answered)
    } else if answered.command.ins == SELECT {
        selecting_outcome(opened, answered)
    } else {
        None
    }
}

fn raw_outcome(answered: &Final) -> Option<Outcome>
    ensures { result ≡ rules.raw_outcome answered.now }
{
    if wants_more(answered.response.sw) {
        Some(Outcome::Loop {
            event: answered.event,
        })
    } else {
        Some(Outcome::Raw {
            response: answered.response.copy(),
        })
    }
}

fn verify_outcome(answered: &Final) -> Option<Outcome>
    ensures { result ≡ rules.verify_outcome answered.now }
{
    if answered.response.sw.is_success() {
        Some(Outcome::Verified)
    } else {
        Some(status_outcome(answered))
    }
}

/// What a command comes to, where that is the cause of an answer.
fn outcome_of(
    operation: Option<&Operation>,
    opened: Option<u8>,
    answered: &Final,
) -> Option<Outcome>
    ensures { result ≡ rules.outcome_of (option_copied operation.entry) opened answered.now }
{
    match operation {
        Some(Operation::OpenChannel { .. }) => open_outcome(opened, answered),
        Some(Operation::Raw { .. }) => raw_outcome(answered),
        Some(Operation::Close { .. }) => success_or_refusal(Outcome::Closed, answered),
        Some(Operation::Verify { .. }) => verify_outcome(answered),
        Some(Operation::Poll) => success_or_refusal(Outcome::Polled, answered),
        _ => refused_outcome(answered),
    }
}

fn or_else(first: Option<Outcome>, second: Option<Outcome>) -> Option<Outcome>
    ensures { result ≡ first_or_else first second }
{
    match first {
        None => second,
        Some(outcome) => Some(outcome),
    }
}

fn refused_family(
    family: Option<u8>,
    answered: &Final,
    refused: &RefusedReading,
    before: Option<(u8, u64)>,
) -> Option<(u8, u64)>
    ensures { result ≡ rules.refused_family family answered.now refused.now before }
{
    match family {
        None => before,
        Some(family) => if answered.actor == 0 && has_path(family, &refused.path) {
            Some((family, answered.event))
        } else {
            before
        },
    }
}

fn refused_event(
    turn: &Turn,
    answered: &Final,
    refused: Option<&RefusedReading>,
) -> Option<(u8, u64)>
    ensures { result ≡ rules.refused_event turn.now answered.now (option_copied refused.entry) }
{
    match refused {
        None => turn.refused,
        Some(refused) => refused_family(turn.family, answered, refused, turn.refused),
    }
}

// ---- the turn behind a line

/// An event that the turn goes no further behind.
pub fn turn_stopped(epoch: u64, facts: &Facts, turn: &mut Turn)
    ensures { turn.new ≡ rules.turn_stopped epoch facts.now turn.old }
{
    turn.bare = false;
    turn.stage = Stage::Over;
    if facts.ends {
        turn.ended = Some((epoch, facts.event));
    }
}

pub fn turn_failed(epoch: u64, command: &Command, facts: &Facts, turn: &mut Turn)
    ensures { turn.new ≡ rules.turn_failed epoch command.now facts.now turn.old }
{
    turn_stopped(epoch, facts, turn);
    turn.updated = turn.updated || is_update_ins(command.ins);
}

pub fn turn_happened(epoch: u64, facts: &Facts, turn: &mut Turn)
    ensures { turn.new ≡ rules.turn_happened epoch facts.now turn.old }
{
    turn_stopped(epoch, facts, turn);
    turn.happened = true;
}

pub fn turn_published(number: u64, turn: &mut Turn)
    ensures { turn.new ≡ rules.turn_published number turn.old }
{
    turn.bare = false;
    turn.stage = Stage::Over;
    turn.published = Some(number);
}

pub fn turn_told(turn: &mut Turn)
    ensures { turn.new ≡ rules.turn_told turn.old }
{
    turn.bare = false;
    turn.ended = None;
}

pub fn turn_refused(turn: &mut Turn)
    ensures { turn.new ≡ rules.turn_refused turn.old }
{
    turn.bare = false;
    turn.refused = None;
}

pub fn turn_given(turn: &mut Turn)
    ensures { turn.new ≡ rules.turn_given turn.old }
{
    turn.bare = false;
    turn.stage = Stage::Over;
    turn.family = None;
}

/// An operation begins, with this work and the family that it publishes once all files of it are current.
pub fn turn_begun(work: Work, family: Option<u8>, turn: &mut Turn)
    ensures { turn.new ≡ rules.turn_begun work family turn.old }
{
    turn.bare = false;
    turn.work = work;
    turn.family = family;
}

fn turn_led(
    stage: Stage,
    came: Option<Outcome>,
    opened: Option<u8>,
    refused: Option<&RefusedReading>,
    answered: &Final,
    turn: &mut Turn,
)
    ensures { turn.new ≡ rules.turn_led stage came opened (option_copied refused.entry)
        answered.now turn.old }
{
    turn.refused = refused_event(turn, answered, refused);
    turn.bare = false;
    turn.stage = stage;
    turn.opened = opened;
    turn.outcome = or_else(turn.outcome.take(), came);
    turn.updated = turn.updated || is_update_ins(answered.command.ins);
}

fn opened_behind(
    history: Past,
    handles: &Handles,
    answered: &Final,
    before: Option<u8>,
) -> Option<u8>
    ensures value { result
        ≡ rules.opened_behind (held_numbers history handles.now) answered.now before }
    ensures within { is_opening_command answered.now.command ≡ true
        → IfSome result (λ n. n ≤ 19) }
{
    if is_opening(&answered.command) {
        opened_number(history, handles, answered)
    } else {
        before
    }
}

/// A command of the turn was answered, or asks for one exchange more. `job` is that of its actor behind the line, and `handles` and `history` are
/// those before it.
pub fn turn_exchanged(
    operation: Option<&Operation>,
    job: &Job,
    history: Past,
    handles: &Handles,
    facts: &Facts,
    refused: Option<&RefusedReading>,
    turn: &mut Turn,
)
    requires operation { operation_fits (option_copied operation) ≡ true }
    requires attempt { begun_fits job.now.begun ≡ true }
    ensures { turn.new ≡ rules.turn_exchanged (option_copied operation.entry) job.now
        (held_numbers history handles.now) facts.now (option_copied refused.entry) turn.old }
{
    match &facts.answered {
        None => turn.bare = false,
        Some(answered) => {
            let opened = opened_behind(history, handles, answered, turn.opened);
            let refresh = facts.touch.refresh.as_ref();
            let stage = stage_after(&turn.work, operation, opened, job, refresh, answered);
            let came = outcome_of(operation, opened, answered);
            turn_led(stage, came, opened, refused, answered, turn);
        }
    }
}
