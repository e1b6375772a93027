// What a line does to the job of its actor.
ghost use Rattle.std.specs.Prelude.{◌≡◌, ◌==◌, ◌+◌, ◌<◌, ◌^◌, true, Some, IfOk, IfSome, OnOk, option_map};
ghost use Rattle.std.specs.Option.{option_copied};
ghost use Rattle.apdu.specs.Apdu.{is_update_ins as is_update_instruction, verify_ins};
ghost use Rattle.apdu.specs.Words.{same_number as same_numbers};
ghost use Rattle.loader.specs.Load as load;
ghost use Rattle.rules.specs.After as rules;
ghost use Rattle.rules.specs.Watching.{mailbox_after as mailbox_after_answer};
ghost use Rattle.tracker.specs.Finished as finished;
ghost use Rattle.tracker.specs.Room.{attempt_has_room, begun_fits, begun_has_room};

use apdu::{Command, Memory, Path, Response, Sequence};
use editor::{Attempt, Editing};
use epoch_cache::{CachedFile, Past, is_update};
use link::{Chain, Final};
use loader::{Readings, completed_by};
use report::Answer;
use rules::{Begun, Job};
use script::Operation;
use std::alloc::Global;
use watchers::Mailbox;

const VERIFY: u8 = 0x20;

pub fn is_update_ins(ins: u8) -> bool
    ensures { result ≡ is_update_instruction ins }
{
    matches!(ins, 0xD6 | 0xDC)
}

fn is_verify(command: &Command) -> bool
    ensures { result ≡ (command.now.ins == verify_ins) }
{
    command.ins == VERIFY
}

// ---- marks and beginnings

fn same_family(a: Option<u8>, b: Option<u8>) -> bool
    ensures { result ≡ same_numbers a b }
{
    match (a, b) {
        (None, None) => true,
        (Some(a), Some(b)) => a == b,
        (_, _) => false,
    }
}

/// The framework begins a turn, in which it reads this family.
pub fn framework_marked(family: Option<u8>, job: &mut Job)
    ensures { job.new ≡ rules.framework_marked family job.old }
{
    if !same_family(family, job.family) {
        job.readings.truncate(0);
    }
    job.family = family;
}

fn begin_attempt(attempt: Option<Attempt>, begun: &mut Option<Begun>)
    ensures { begun.new ≡ option_map (rules.begun_with attempt) begun.old }
{
    if let Some(begun) = begun {
        begun.editing.begin(attempt);
    }
}

/// An actor begins a turn, in which an edit of it may begin an attempt.
pub fn job_marked(attempt: Option<Attempt>, job: &mut Job)
    ensures { job.new ≡ rules.job_marked attempt job.old }
{
    begin_attempt(attempt, &mut job.begun);
}

/// An operation that begins.
pub fn fresh_begun(alloc: Global, op: u32, history: Past) -> Begun
    ensures { result ≡ rules.fresh_begun op history }
{
    Begun {
        index: op,
        epoch: if history.living {
            Some(history.epoch)
        } else {
            None
        },
        ended: None,
        told: None,
        verified: false,
        editing: Editing::new(alloc),
    }
}

/// An operation begins, and with it an attempt, where it is an edit that can be made at once.
pub fn job_begun(alloc: Global, op: u32, history: Past, attempt: Option<Attempt>, job: &mut Job)
    ensures { job.new ≡ rules.job_begun op history attempt job.old }
{
    let mut begun = fresh_begun(alloc, op, history);
    begun.editing.begin(attempt);
    job.begun = Some(begun);
    job.readings.truncate(0);
}

// ---- commands

fn editing_sent(command: &Command, chain: Option<&Chain>, editing: &mut Editing)
    requires { attempt_has_room editing.old.attempt ≡ true }
    ensures { editing.new ≡ rules.editing_sent command.now (option_copied chain.entry) editing.old }
{
    if chain.is_none() && is_update_ins(command.ins) {
        editing.send();
    }
}

fn editing_answered(
    alloc: Global,
    operation: Option<&Operation>,
    selected: Option<&Path>,
    event: u64,
    command: &Command,
    response: &Response,
    editing: &mut Editing,
) -> Result<(), Memory>
    ensures { OnOk result (editing.new ≡ rules.editing_answered
        (rules.edit_of (option_copied operation.entry)) (option_copied selected.entry)
        event command.now response.now editing.old) }
{
    match operation {
        Some(Operation::Set { family, .. } | Operation::Clear { family, .. }) => {
            if is_update(command, response) {
                editing.update(alloc, *family, selected, event, command)
            } else {
                Ok(())
            }
        }
        _ => Ok(()),
    }
}

fn editing_lost(
    operation: Option<&Operation>,
    selected: Option<&Path>,
    event: u64,
    command: &Command,
    editing: &mut Editing,
)
    ensures { editing.new ≡ rules.editing_lost (rules.edit_of (option_copied operation.entry))
        (option_copied selected.entry) event command.now editing.old }
{
    match operation {
        Some(Operation::Set { family, .. } | Operation::Clear { family, .. }) => {
            if is_update_ins(command.ins) {
                editing.lose(*family, selected, event);
            }
        }
        _ => {}
    }
}

/// A command of an actor, and what was kept before it.
#[derive(Drop)]
pub struct Sent<'a> {
    pub alloc: Global,
    /// The operation that the actor has begun.
    pub operation: Option<&'a Operation>,
    /// What was current on the basic channel.
    pub selected: Option<&'a Path>,
    /// The chain of exchanges of which the line before is one.
    pub chain: Option<&'a Chain>,
    /// The number of the event.
    pub event: u64,
    pub command: &'a Command,
}

fn begun_exchanged(sent: &Sent, response: &Response, begun: &mut Begun) -> Result<(), Memory>
    requires { attempt_has_room begun.old.editing.attempt ≡ true }
    ensures { OnOk result (begun.new ≡ rules.begun_exchanged
        (rules.edit_of (option_copied sent.now.operation)) (option_copied sent.now.selected)
        (option_copied sent.now.chain) sent.now.event sent.now.command.now response.now begun.old) }
{
    begun.verified = begun.verified || is_verify(sent.command);
    editing_sent(sent.command, sent.chain, &mut begun.editing);
    editing_answered(
        sent.alloc,
        sent.operation,
        sent.selected,
        sent.event,
        sent.command,
        response,
        &mut begun.editing,
    )
}

fn begun_failed(sent: &Sent, begun: &mut Begun)
    requires { attempt_has_room begun.old.editing.attempt ≡ true }
    ensures { begun.new ≡ rules.begun_failed (rules.edit_of (option_copied sent.now.operation))
        (option_copied sent.now.selected) (option_copied sent.now.chain)
        sent.now.event sent.now.command.now begun.old }
{
    begun.verified = begun.verified || is_verify(sent.command);
    editing_sent(sent.command, sent.chain, &mut begun.editing);
    editing_lost(
        sent.operation,
        sent.selected,
        sent.event,
        sent.command,
        &mut begun.editing,
    );
}

fn exchange_begun(sent: &Sent, response: &Response, begun: &mut Option<Begun>) -> Result<(), Memory>
    requires { begun_has_room begun.old ≡ true }
    ensures { OnOk result (begun.new ≡ option_map (rules.begun_exchanged
        (rules.edit_of (option_copied sent.now.operation)) (option_copied sent.now.selected)
        (option_copied sent.now.chain) sent.now.event sent.now.command.now response.now)
        begun.old) }
{
    match begun {
        None => Ok(()),
        Some(begun) => begun_exchanged(sent, response, begun),
    }
}

fn fail_begun(sent: &Sent, begun: &mut Option<Begun>)
    requires { begun_has_room begun.old ≡ true }
    ensures { begun.new ≡ option_map (rules.begun_failed
        (rules.edit_of (option_copied sent.now.operation)) (option_copied sent.now.selected)
        (option_copied sent.now.chain) sent.now.event sent.now.command.now) begun.old }
{
    if let Some(begun) = begun {
        begun_failed(sent, begun);
    }
}

/// Leads the readings on. Gives the file of the one that the command completed, where it was answered.
pub fn readings_exchanged(
    alloc: Global,
    started: bool,
    answered: Option<&Final>,
    selected: Option<&Path>,
    readings: &mut Readings,
) -> Result<Option<CachedFile>, Memory>
    ensures value { IfOk result (λ file. file ≡ finished.file_completed started (option_copied answered.entry)
        (option_copied selected.entry) readings.old) }
    ensures ok { OnOk result (readings.new ≡ load.readings_exchanged
        (option_copied selected.entry) (option_copied answered.entry) readings.old) }
{
    match answered {
        None => Ok(None),
        Some(answered) => completed_by(alloc, started, answered, selected, readings),
    }
}

/// A command of the actor was answered. Gives the file of the reading that it completed; `started` says that start-up is finished.
#[tactic(auto, using(crate::proofs::RoomLeft::exchanged_fits))]
pub fn job_exchanged(
    sent: &Sent,
    response: &Response,
    started: bool,
    answered: Option<&Final>,
    job: &mut Job,
) -> Result<Option<CachedFile>, Memory>
    requires { begun_has_room job.old.begun ≡ true }
    ensures value { IfOk result (λ file. file ≡ finished.file_completed started (option_copied answered.entry)
        (option_copied sent.now.selected) job.old.readings) }
    ensures ok { OnOk result (job.new ≡ record job.old {
      begun = option_map (rules.begun_exchanged
          (rules.edit_of (option_copied sent.now.operation)) (option_copied sent.now.selected)
          (option_copied sent.now.chain) sent.now.event sent.now.command.now response.now)
          job.old.begun;
      readings = load.readings_exchanged (option_copied sent.now.selected)
          (option_copied answered.entry) job.old.readings;
    }) }
    ensures fits { OnOk result (begun_fits job.new.begun ≡ true) }
{
    exchange_begun(sent, response, &mut job.begun)?;
    readings_exchanged(
        sent.alloc,
        started,
        answered,
        sent.selected,
        &mut job.readings,
    )
}

/// A command of the actor failed.
pub fn job_failed(sent: &Sent, job: &mut Job)
    requires { begun_has_room job.old.begun ≡ true }
    ensures { job.new ≡ record job.old {
      begun = option_map (rules.begun_failed
          (rules.edit_of (option_copied sent.now.operation)) (option_copied sent.now.selected)
          (option_copied sent.now.chain) sent.now.event sent.now.command.now) job.old.begun;
    } }
{
    fail_begun(sent, &mut job.begun);
}

// ---- answers

fn mailbox_after(operation: &Operation, answer: &Answer, mailbox: &mut Option<Mailbox>)
    ensures { mailbox.new ≡ mailbox_after_answer operation.now answer.now mailbox.old }
{
    if let (Operation::Watch { mask }, Answer::Watching) = (operation, answer) {
        *mailbox = Some(Mailbox::new(*mask));
    }
}

/// An operation of the actor is answered, after so many publications.
pub fn job_answered(
    operation: Option<&Operation>,
    answer: &Answer,
    publications: u64,
    job: &mut Job,
)
    requires { job.old.answered + 1 < 2 ^ 32 }
    ensures { job.new ≡ rules.job_answered (option_copied operation.entry) answer.now
        publications job.old }
{
    job.answered += 1;
    job.seen = publications;
    job.begun = None;
    job.readings.truncate(0);
    if let Some(operation) = operation {
        mailbox_after(operation, answer, &mut job.mailbox);
    }
}
