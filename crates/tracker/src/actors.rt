// What is kept of an actor.
ghost use Rattle.std.specs.Prelude.{◌≡◌};
ghost use Rattle.rules.specs.Kept as rules;

use apdu::Sequence;
use loader::Reading;
use rules::{Job, Jobs};
use std::alloc::Global;

/// What is kept of an actor before its first line.
pub fn first_job(alloc: Global) -> Job
    ensures { result ≡ rules.first_job }
{
    Job {
        answered: 0,
        seen: 0,
        begun: None,
        readings: Sequence::new(alloc),
        family: None,
        mailbox: None,
    }
}

/// The readings of an actor.
pub fn readings_of(actor: u8, jobs: &Jobs) -> &[Reading]
    ensures { result.now ≡ (rules.job_of actor jobs.now).readings }
{
    match jobs.get(actor as usize) {
        None => &[],
        Some(job) => job.readings.as_slice(),
    }
}
