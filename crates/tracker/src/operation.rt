// The lines that belong to an operation.
ghost use Rattle.std.specs.Prelude.{◌≡◌, true, false, option_map, IsOk, IfOk, OnOk, OnErr};
ghost use Rattle.std.specs.List.{list_all};
ghost use Rattle.std.specs.Option.{option_copied};
ghost use Rattle.apdu.specs.Words.{has_value};
ghost use Rattle.link.specs.Commands.{final_after};
ghost use Rattle.loader.specs.Load as load;
ghost use Rattle.rules.specs.After as rules;
ghost use Rattle.rules.specs.After.{kept_after};
ghost use Rattle.rules.specs.Cache.{files_behind as files_after_line};
ghost use Rattle.rules.specs.Channels.{held_numbers};
ghost use Rattle.rules.specs.Kept.{begun_of, change_at, job_of, operation_at as operation_in, operation_now as operation_now_of};
ghost use Rattle.rules.specs.declared.kept.Job.{Job};
ghost use Rattle.tracker.specs.Held.{gives_holding, line_gives_holding};
ghost use Rattle.tracker.specs.Lines.{is_answered, is_exchange, is_failed};
ghost use Rattle.tracker.specs.Room.{HasRoom, begun_fits, line_fits, operation_fits, own_has_room};

use crate::actors::{first_job, readings_of};
use crate::at::{answer_at, exchange_at, fail_at};
use crate::facts::facts_of;
use crate::fields::files_behind;
use crate::holdings::hold;
use crate::kept::{keep_fields, keep_jobs, keep_rest};
use crate::turn::{turn_exchanged, turn_failed, turn_given};
use apdu::{Command, Memory, Path, Response};
use epoch_cache::CachedFile;
use link::Final;
use loader::{RefusedReading, refused_by};
use planner::{operation_at, operation_now};
use refresher::STARTUP_STEPS;
use report::{Answer, Line};
use rules::{Facts, Handles, Jobs, Kept, Sessions};
use script::{Operation, Script};
use std::alloc::Global;

fn keep_failed_of(
    alloc: Global,
    script: &Script,
    line: &Line,
    actor: u8,
    command: &Command,
    acted: bool,
    kept: &mut Kept,
)
    requires line { line.now ≡ Line.Failed actor command.now acted }
    requires room { HasRoom kept.old }
    ensures { kept.new ≡ kept_after script.now (Line.Failed actor command.now acted) kept.old }
{
    let facts = facts_of(script, line, kept);
    let epoch = kept.history.epoch;
    let operation = operation_now(script, actor, &kept.jobs);
    keep_jobs(alloc, line, &facts, kept);
    fail_at(
        alloc,
        operation,
        kept.selected.as_ref(),
        kept.chain.as_ref(),
        facts.event,
        command,
        actor,
        &mut kept.jobs,
    );
    keep_rest(alloc, script, line, &facts, kept);
    turn_failed(epoch, command, &facts, &mut kept.turn);
}

/// A command was sent, and no answer came.
pub fn keep_failed(alloc: Global, script: &Script, line: &Line, kept: &mut Kept)
    requires kind { is_failed line.now ≡ true }
    requires room { HasRoom kept.old }
    ensures { kept.new ≡ kept_after script.now line.now kept.old }
{
    if let Line::Failed {
        actor,
        command,
        acted,
    } = line
    {
        keep_failed_of(alloc, script, line, *actor, command, *acted, kept);
    }
}

fn refused_of(
    selected: Option<&Path>,
    jobs: &Jobs,
    answered: Option<&Final>,
) -> Option<RefusedReading>
    ensures { result ≡ rules.refused_of (option_copied selected.entry) jobs.now
        (option_copied answered.entry) }
{
    let answered = answered?;
    refused_by(answered, selected, readings_of(answered.actor, jobs))
}

// The turn behind an exchange. Handles and history are those before it, and the jobs those behind it.
fn lead_turn(
    alloc: Global,
    operation: Option<&Operation>,
    actor: u8,
    facts: &Facts,
    refused: Option<&RefusedReading>,
    kept: &mut Kept,
)
    requires operation { operation_fits (option_copied operation) ≡ true }
    requires attempt { begun_fits (begun_of actor kept.old.jobs) ≡ true }
    ensures { kept.new ≡ record kept.old {
      turn = rules.turn_exchanged (option_copied operation.entry)
          (job_of actor kept.old.jobs) (held_numbers kept.old.history kept.old.handles) facts.now
          (option_copied refused.entry) kept.old.turn;
    } }
{
    match kept.jobs.get(actor as usize) {
        Some(job) => turn_exchanged(
            operation,
            job,
            kept.history,
            &kept.handles,
            facts,
            refused,
            &mut kept.turn,
        ),
        None => turn_exchanged(
            operation,
            &first_job(alloc),
            kept.history,
            &kept.handles,
            facts,
            refused,
            &mut kept.turn,
        ),
    }
}

// An exchange in the job of its actor, behind what it does to every job. Gives the file of the reading that it completed.
#[tactic(auto, using(crate::proofs::OwnFinal::completed_at))]
fn exchange_own(
    alloc: Global,
    operation: Option<&Operation>,
    actor: u8,
    command: &Command,
    response: &Response,
    facts: &Facts,
    kept: &mut Kept,
) -> Result<Option<CachedFile>, Memory>
    requires room { list_all own_has_room kept.old.jobs ≡ true }
    requires answered { facts.now.answered ≡ final_after actor command.now response.now
        kept.old.history.events kept.old.chain }
    ensures value { IfOk result (λ file. file ≡ rules.completed_of
        (rules.is_started kept.old.startup) kept.old.selected kept.old.jobs facts.now.answered) }
    ensures kept { OnOk result (kept.new ≡ record kept.old {
      jobs = change_at actor (λ (job : Job). record job {
        begun = option_map (rules.begun_exchanged
            (rules.edit_of (option_copied operation.entry)) kept.old.selected kept.old.chain
            facts.now.event command.now response.now) job.begun;
        readings = load.readings_exchanged kept.old.selected facts.now.answered job.readings;
      }) kept.old.jobs;
    }) }
    ensures fits { OnOk result (begun_fits (begun_of actor kept.new.jobs) ≡ true) }
{
    exchange_at(
        alloc,
        operation,
        kept.selected.as_ref(),
        kept.chain.as_ref(),
        facts.event,
        command,
        response,
        kept.startup == STARTUP_STEPS,
        facts.answered.as_ref(),
        actor,
        &mut kept.jobs,
    )
}

fn exchange_current_files(
    alloc: Global,
    line: &Line,
    facts: &Facts,
    completed: Option<CachedFile>,
    kept: &mut Kept,
) -> Result<(), Memory>
    ensures { OnOk result (kept.new ≡ record kept.old {
      files = files_after_line line.now
          facts.now.touch kept.old.selected completed kept.old.files;
    }) }
{
    files_behind(
        alloc,
        line,
        &facts.touch,
        kept.selected.as_ref(),
        completed,
        &mut kept.files,
    )
}

fn keep_exchange_of(
    alloc: Global,
    script: &Script,
    line: &Line,
    actor: u8,
    command: &Command,
    response: &Response,
    kept: &mut Kept,
) -> Result<(), Memory>
    requires line { line.now ≡ Line.Exchange actor command.now response.now }
    requires room { HasRoom kept.old }
    requires operation { operation_fits (operation_now_of script.now actor kept.old.jobs) ≡ true }
    ensures { OnOk result (kept.new
        ≡ kept_after script.now (Line.Exchange actor command.now response.now) kept.old) }
{
    let facts = facts_of(script, line, kept);
    let operation = operation_now(script, actor, &kept.jobs);
    keep_jobs(alloc, line, &facts, kept);
    let refused = refused_of(kept.selected.as_ref(), &kept.jobs, facts.answered.as_ref());
    let completed = exchange_own(alloc, operation, actor, command, response, &facts, kept)?;
    lead_turn(alloc, operation, actor, &facts, refused.as_ref(), kept);
    exchange_current_files(alloc, line, &facts, completed, kept)?;
    keep_fields(script, line, &facts, refused.as_ref(), kept);
    Ok(())
}

/// A command was sent, and the card answered.
pub fn keep_exchange(
    alloc: Global,
    script: &Script,
    line: &Line,
    kept: &mut Kept,
) -> Result<(), Memory>
    requires kind { is_exchange line.now ≡ true }
    requires room { HasRoom kept.old }
    requires operation { line_fits script.now line.now kept.old.jobs ≡ true }
    ensures { OnOk result (kept.new ≡ kept_after script.now line.now kept.old) }
{
    match line {
        Line::Exchange {
            actor,
            command,
            response,
        } => keep_exchange_of(alloc, script, line, *actor, command, response, kept),
        _ => Ok(()),
    }
}

// ---- answers

// What the answer gives its actor, or takes from it.
fn hold_at(
    alloc: Global,
    script: &Script,
    actor: u8,
    op: u32,
    answer: &Answer,
    epoch: u64,
    handles: &mut Handles,
    sessions: &mut Sessions,
) -> Result<(), Memory>
    ensures handles { OnOk result (handles.new ≡ rules.handles_given script.now
        (Line.Answered actor op answer.now) epoch handles.old) }
    ensures sessions { OnOk result (sessions.new ≡ rules.sessions_behind script.now
        (Line.Answered actor op answer.now) epoch sessions.old) }
    ensures no_handle { OnErr result (handles.new ≡ handles.old) }
    ensures no_session { OnErr result (sessions.new ≡ sessions.old) }
    ensures room { has_value (λ o. gives_holding o answer.now) (operation_in script.now actor op)
        ≡ false → IsOk result }
{
    match operation_at(script, actor, op) {
        None => Ok(()),
        Some(operation) => hold(alloc, actor, operation, answer, epoch, handles, sessions),
    }
}

fn keep_answered_of(
    alloc: Global,
    script: &Script,
    line: &Line,
    actor: u8,
    op: u32,
    answer: &Answer,
    kept: &mut Kept,
) -> Result<(), Memory>
    requires line { line.now ≡ Line.Answered actor op answer.now }
    requires room { HasRoom kept.old }
    ensures ok { OnOk result (kept.new
        ≡ kept_after script.now (Line.Answered actor op answer.now) kept.old) }
    ensures err { OnErr result (kept.new ≡ kept.old) }
    ensures room { has_value (λ o. gives_holding o answer.now) (operation_in script.now actor op)
        ≡ false → IsOk result }
{
    let facts = facts_of(script, line, kept);
    let operation = operation_at(script, actor, op);
    hold_at(
        alloc,
        script,
        actor,
        op,
        answer,
        kept.history.epoch,
        &mut kept.handles,
        &mut kept.sessions,
    )?;
    keep_jobs(alloc, line, &facts, kept);
    answer_at(actor, operation, answer, kept.publications, &mut kept.jobs);
    keep_rest(alloc, script, line, &facts, kept);
    turn_given(&mut kept.turn);
    Ok(())
}

/// An operation was answered.
pub fn keep_answered(
    alloc: Global,
    script: &Script,
    line: &Line,
    kept: &mut Kept,
) -> Result<(), Memory>
    requires kind { is_answered line.now ≡ true }
    requires room { HasRoom kept.old }
    ensures ok { OnOk result (kept.new ≡ kept_after script.now line.now kept.old) }
    ensures err { OnErr result (kept.new ≡ kept.old) }
    ensures room { line_gives_holding script.now line.now ≡ false → IsOk result }
{
    match line {
        Line::Answered { actor, op, answer } => {
            keep_answered_of(alloc, script, line, *actor, *op, answer, kept)
        }
        _ => Ok(()),
    }
}
