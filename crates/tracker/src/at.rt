// What a line does to the job of its actor, in the list of all jobs.
ghost use Rattle.std.specs.Prelude.{◌≡◌, ◌+◌, ◌<◌, ◌^◌, [], true, option_map, IfOk, OnOk};
ghost use Rattle.std.specs.List.{list_all};
ghost use Rattle.std.specs.Option.{option_copied};
ghost use Rattle.loader.specs.Load as load;
ghost use Rattle.rules.specs.After as rules;
ghost use Rattle.rules.specs.Kept.{begun_of, change_at, job_of};
ghost use Rattle.rules.specs.declared.kept.Job.{Job};
ghost use Rattle.tracker.specs.Finished.{file_completed};
ghost use Rattle.tracker.specs.Room.{begun_fits, own_has_room};

use crate::own::{
    Sent, framework_marked, job_answered, job_begun, job_exchanged, job_failed, job_marked,
    readings_exchanged,
};
use apdu::{Command, Memory, Path, Response, Sequence};
use editor::Attempt;
use epoch_cache::{CachedFile, Past};
use link::{Chain, Final};
use report::Answer;
use rules::Jobs;
use script::Operation;
use std::alloc::Global;

pub fn mark_framework(family: Option<u8>, jobs: &mut Jobs)
    ensures { jobs.new ≡ change_at 0 (rules.framework_marked family) jobs.old }
{
    if !jobs.is_empty() {
        framework_marked(family, jobs.at_mut(0));
    }
}

pub fn mark_actor(actor: u8, attempt: Option<Attempt>, jobs: &mut Jobs)
    ensures { jobs.new ≡ change_at actor (rules.job_marked attempt) jobs.old }
{
    if (actor as usize) < jobs.len() {
        job_marked(attempt, jobs.at_mut(actor as usize));
    }
}

pub fn begin_at(
    alloc: Global,
    actor: u8,
    op: u32,
    history: Past,
    attempt: Option<Attempt>,
    jobs: &mut Jobs,
)
    ensures { jobs.new ≡ change_at actor (rules.job_begun op history attempt) jobs.old }
{
    if (actor as usize) < jobs.len() {
        job_begun(alloc, op, history, attempt, jobs.at_mut(actor as usize));
    }
}

/// A command of the actor failed. `operation` is the one that it has begun, `selected` was current on the basic channel, and `chain` is the one of
/// which the line before is an exchange.
pub fn fail_at<'x>(
    alloc: Global,
    operation: Option<&'x Operation>,
    selected: Option<&'x Path>,
    chain: Option<&'x Chain>,
    event: u64,
    command: &'x Command,
    actor: u8,
    jobs: &mut Jobs,
)
    requires { list_all own_has_room jobs.old ≡ true }
    ensures { jobs.new ≡ change_at actor (λ (job : Job). record job {
      begun = option_map (rules.begun_failed (rules.edit_of (option_copied operation.entry))
          (option_copied selected.entry) (option_copied chain.entry) event command.now) job.begun;
    }) jobs.old }
{
    let sent = Sent {
        alloc,
        operation,
        selected,
        chain,
        event,
        command,
    };
    if (actor as usize) < jobs.len() {
        job_failed(&sent, jobs.at_mut(actor as usize));
    }
}

pub fn answer_at(
    actor: u8,
    operation: Option<&Operation>,
    answer: &Answer,
    publications: u64,
    jobs: &mut Jobs,
)
    requires { list_all own_has_room jobs.old ≡ true }
    ensures { jobs.new ≡ change_at actor
        (rules.job_answered (option_copied operation.entry) answer.now publications) jobs.old }
{
    if (actor as usize) < jobs.len() {
        job_answered(operation, answer, publications, jobs.at_mut(actor as usize));
    }
}

fn file_without_job(
    alloc: Global,
    started: bool,
    answered: Option<&Final>,
    selected: Option<&Path>,
) -> Result<Option<CachedFile>, Memory>
    ensures { IfOk result (λ file. file ≡ file_completed started (option_copied answered.entry)
        (option_copied selected.entry) []) }
{
    let mut none = Sequence::new(alloc);
    readings_exchanged(alloc, started, answered, selected, &mut none)
}

/// A command of the actor was answered. Gives the file of the reading that it completed. The names are those of `fail_at`; `started` says that start-up
/// is finished, and `answered` is the command to which the line gives the final response.
pub fn exchange_at<'x>(
    alloc: Global,
    operation: Option<&'x Operation>,
    selected: Option<&'x Path>,
    chain: Option<&'x Chain>,
    event: u64,
    command: &'x Command,
    response: &Response,
    started: bool,
    answered: Option<&Final>,
    actor: u8,
    jobs: &mut Jobs,
) -> Result<Option<CachedFile>, Memory>
    requires room { list_all own_has_room jobs.old ≡ true }
    ensures value { IfOk result (λ file. file ≡ file_completed started
        (option_copied answered.entry) (option_copied selected.entry) (job_of actor jobs.old).readings) }
    ensures jobs { OnOk result (jobs.new ≡ change_at actor (λ (job : Job). record job {
      begun = option_map (rules.begun_exchanged (rules.edit_of (option_copied operation.entry))
          (option_copied selected.entry) (option_copied chain.entry) event command.now response.now) job.begun;
      readings = load.readings_exchanged (option_copied selected.entry) (option_copied answered.entry) job.readings;
    }) jobs.old) }
    ensures fits { OnOk result (begun_fits (begun_of actor jobs.new) ≡ true) }
{
    let sent = Sent {
        alloc,
        operation,
        selected,
        chain,
        event,
        command,
    };
    if (actor as usize) < jobs.len() {
        let job = jobs.at_mut(actor as usize);
        job_exchanged(&sent, response, started, answered, job)
    } else {
        file_without_job(alloc, started, answered, selected)
    }
}
