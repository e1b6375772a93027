// What is open, and who waits for whom.
ghost use Rattle.std.specs.Prelude.{◌≡◌, ◌≤◌, not, length};
ghost use Rattle.std.specs.List.{list_any};
ghost use Rattle.rules.specs.Standing as standing;
ghost use Rattle.rules.specs.Work as spec;

use crate::operations::{answered_of, begun_of, operation_at, operation_count, operation_now};
use refresher::STARTUP_STEPS;
use rules::{Job, Kept, Standing};
use script::{Operation, Script};

// ---- open work

/// The first stale family.
pub(crate) fn first_stale(standings: &[Standing]) -> Option<u8>
    ensures { result ≡ standing.first_stale standings.now }
{
    standings
        .iter()
        .find(|s| s.stale.is_some())
        .map(|s| s.family)
}

/// Whether start-up of the living epoch is unfinished.
pub fn is_starting(kept: &Kept) -> bool
    ensures { result ≡ spec.is_starting kept.now }
{
    kept.history.living && kept.startup < STARTUP_STEPS
}

fn has_work_alive(kept: &Kept) -> bool
    ensures { result ≡ spec.has_work_alive kept.now }
{
    is_starting(kept)
        || kept.owed.is_some()
        || kept.history.announced.is_some()
        || first_stale(&kept.standings).is_some()
}

/// Whether the framework has something to do.
pub fn has_work(kept: &Kept) -> bool
    ensures { result ≡ spec.has_work kept.now }
{
    kept.history.owes_reset || kept.history.living && has_work_alive(kept)
}

fn has_begun(job: &Job) -> bool
    ensures { result ≡ spec.has_begun job.now }
{
    job.begun.is_some()
}

fn has_begun_any(jobs: &[Job]) -> bool
    ensures { result ≡ list_any spec.has_begun jobs.now }
{
    jobs.iter().any(|job| has_begun(job))
}

/// Whether no operation is under way, and the framework has nothing to do.
pub fn is_quiet(kept: &Kept) -> bool
    ensures { result ≡ spec.is_quiet kept.now }
{
    !has_begun_any(kept.jobs.as_slice()) && !has_work(kept)
}

/// Whether an actor has operations that are not answered.
pub fn has_operations_left(script: &Script, kept: &Kept, actor: u8) -> bool
    ensures { result ≡ spec.has_operations_left script.now kept.now actor }
{
    (answered_of(actor, &kept.jobs) as usize) < operation_count(script, actor)
}

// The lowest actor that has operations left.
fn first_open(script: &Script, kept: &Kept) -> Option<u8>
    requires { length script.now.actors ≤ 254 }
    ensures { result ≡ spec.first_actor (spec.has_operations_left script.now kept.now) 0
        script.now.actors }
{
    for (i, _) in script.actors.as_slice().iter().enumerate() {
        let actor = i as u8 + 1;
        if has_operations_left(script, kept, actor) {
            return Some(actor);
        }
    }
    None
}

/// Whether every operation is answered, and the framework has nothing to do.
pub fn is_finished(script: &Script, kept: &Kept) -> bool
    requires { length script.now.actors ≤ 254 }
    ensures { result ≡ spec.is_finished script.now kept.now }
{
    first_open(script, kept).is_none() && !has_work(kept)
}

// ---- who waits, and for whom

fn needs_card(operation: &Operation) -> bool
    ensures { result ≡ spec.needs_card operation.now }
{
    match operation {
        Operation::Load { .. }
        | Operation::Set { .. }
        | Operation::Clear { .. }
        | Operation::OpenChannel { .. }
        | Operation::Verify { .. }
        | Operation::Poll => true,
        _ => false,
    }
}

fn is_edit_of(family: u8, operation: &Operation) -> bool
    ensures { result ≡ spec.is_edit_of family operation.now }
{
    match operation {
        Operation::Set { family: edited, .. } => *edited == family,
        Operation::Clear { family: edited, .. } => *edited == family,
        _ => false,
    }
}

fn edits_family(script: &Script, kept: &Kept, family: u8, actor: u8) -> bool
    ensures { result ≡ spec.edits_family script.now kept.now family actor }
{
    match operation_now(script, actor, &kept.jobs) {
        None => false,
        Some(operation) => is_edit_of(family, operation),
    }
}

// The lowest actor that has an edit of this family under way.
fn first_editor(script: &Script, kept: &Kept, family: u8) -> Option<u8>
    requires { length script.now.actors ≤ 254 }
    ensures { result ≡ spec.first_actor (spec.edits_family script.now kept.now family) 0
        script.now.actors }
{
    for (i, _) in script.actors.as_slice().iter().enumerate() {
        let actor = i as u8 + 1;
        if edits_family(script, kept, family, actor) {
            return Some(actor);
        }
    }
    None
}

fn edited_by(script: &Script, kept: &Kept, operation: &Operation) -> Option<u8>
    requires { length script.now.actors ≤ 254 }
    ensures { result ≡ spec.edited_by script.now kept.now operation.now }
{
    match operation {
        Operation::Set { family, .. } => first_editor(script, kept, *family),
        Operation::Clear { family, .. } => first_editor(script, kept, *family),
        _ => None,
    }
}

fn operation_waits_on(script: &Script, kept: &Kept, operation: &Operation) -> Option<u8>
    requires { length script.now.actors ≤ 254 }
    ensures { result ≡ spec.operation_waits_on script.now kept.now operation.now }
{
    if !kept.history.living {
        None
    } else if needs_card(operation) && is_starting(kept) {
        Some(0)
    } else {
        edited_by(script, kept, operation)
    }
}

fn next_waits_on(script: &Script, kept: &Kept, actor: u8) -> Option<u8>
    requires { length script.now.actors ≤ 254 }
    ensures { result ≡ spec.next_waits_on script.now kept.now actor }
{
    match operation_at(script, actor, answered_of(actor, &kept.jobs)) {
        None => None,
        Some(operation) => operation_waits_on(script, kept, operation),
    }
}

/// Whom a turn of the actor would wait for: the framework, which starts the card up, the actor that
/// edits the same family, and for the framework without work the lowest actor that has operations left.
pub fn waits_on(script: &Script, kept: &Kept, actor: u8) -> Option<u8>
    requires { length script.now.actors ≤ 254 }
    ensures { result ≡ spec.waits_on script.now kept.now actor }
{
    if actor == 0 {
        if has_work(kept) {
            None
        } else {
            first_open(script, kept)
        }
    } else if begun_of(actor, &kept.jobs).is_some() {
        None
    } else {
        next_waits_on(script, kept, actor)
    }
}

/// Whether a turn of the actor would find nothing left.
pub fn has_ended(script: &Script, kept: &Kept, actor: u8) -> bool
    requires { length script.now.actors ≤ 254 }
    ensures { result ≡ spec.has_ended script.now kept.now actor }
{
    if actor == 0 {
        is_finished(script, kept)
    } else {
        !has_operations_left(script, kept, actor)
    }
}

/// Whether a turn of the actor would wait, or find nothing left.
pub fn is_idle(script: &Script, kept: &Kept, actor: u8) -> bool
    requires { length script.now.actors ≤ 254 }
    ensures { result ≡ spec.is_idle script.now kept.now actor }
{
    has_ended(script, kept, actor) || waits_on(script, kept, actor).is_some()
}
