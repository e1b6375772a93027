// The operations of a script, and what is kept of the actors.
ghost use Rattle.std.specs.Prelude.{◌≡◌, length};
ghost use Rattle.std.specs.Option.{option_copied};
ghost use Rattle.rules.specs.Kept as rules;

use rules::{Begun, Jobs};
use script::{Operation, Script};

/// The operation of this number, from 0, of an actor.
pub fn operation_at(script: &Script, actor: u8, op: u32) -> Option<&Operation>
    ensures { option_copied result ≡ rules.operation_at script.now actor op }
{
    if actor == 0 {
        return None;
    }
    match script.actors.get(actor as usize - 1) {
        None => None,
        Some(operations) => operations.get(op as usize),
    }
}

/// How many operations an actor has.
pub fn operation_count(script: &Script, actor: u8) -> usize
    ensures { result ≡ length (rules.operations_of script.now actor) }
{
    if actor == 0 {
        return 0;
    }
    match script.actors.get(actor as usize - 1) {
        None => 0,
        Some(operations) => operations.len(),
    }
}

/// How many operations of an actor are answered.
pub fn answered_of(actor: u8, jobs: &Jobs) -> u32
    ensures { result ≡ (rules.job_of actor jobs.now).answered }
{
    match jobs.get(actor as usize) {
        None => 0,
        Some(job) => job.answered,
    }
}

/// The operation that an actor has begun.
pub fn begun_of(actor: u8, jobs: &Jobs) -> Option<&Begun>
    ensures { option_copied result ≡ rules.begun_of actor jobs.now }
{
    match jobs.get(actor as usize) {
        None => None,
        Some(job) => job.begun.as_ref(),
    }
}

/// The same in its words of the script.
pub fn operation_now<'a>(script: &'a Script, actor: u8, jobs: &Jobs) -> Option<&'a Operation>
    ensures { option_copied result ≡ rules.operation_now script.now actor jobs.now }
{
    match begun_of(actor, jobs) {
        None => None,
        Some(begun) => operation_at(script, actor, begun.index),
    }
}
