// What a turn publishes before any event of its own, and which operation may begin in it.
ghost use Rattle.std.specs.Prelude.{◌≡◌};
ghost use Rattle.rules.specs.Kept.{job_of};
ghost use Rattle.hub.specs.Ready as ready;

use editor::family_paths;
use epoch_cache::all_current;
use planner::{begun_of, operation_at};
use rules::Kept;
use script::{Operation, Script};
use tracker::family_at;

fn family_anew(script: &Script, kept: &Kept, actor: u8, op: u32) -> Option<u8>
    ensures { result ≡ ready.family_anew script.now kept.now actor op }
{
    match operation_at(script, actor, op) {
        Some(Operation::Load { family }) if kept.history.living => Some(*family),
        _ => None,
    }
}

/// The number of the operation that the actor begins next.
pub fn answered_of(actor: u8, kept: &Kept) -> u32
    ensures { result ≡ (job_of actor kept.now.jobs).answered }
{
    match kept.jobs.get(actor as usize) {
        None => 0,
        Some(job) => job.answered,
    }
}

fn family_next(script: &Script, kept: &Kept, actor: u8) -> Option<u8>
    ensures { result ≡ ready.family_next script.now kept.now actor }
{
    if actor == 0 || begun_of(actor, &kept.jobs).is_some() {
        family_at(script, actor, kept)
    } else {
        family_anew(script, kept, actor, answered_of(actor, kept))
    }
}

/// The family that a turn of the actor publishes before any event of its own.
pub fn family_ready(script: &Script, kept: &Kept, actor: u8) -> Option<u8>
    ensures { result ≡ ready.family_ready script.now kept.now actor }
{
    let family = family_next(script, kept, actor)?;
    if all_current(&kept.files, family_paths(family).as_slice()) {
        Some(family)
    } else {
        None
    }
}
