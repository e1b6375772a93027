// Whether one more line can be kept with the counters that there are.
ghost use Rattle.std.specs.Prelude.{◌≡◌, ◌∷◌, [], true};
ghost use Rattle.std.specs.List.{list_all};
ghost use Rattle.std.specs.Option.{option_copied};
ghost use Rattle.families.specs.Plans.{plan_updates, some_first};
ghost use Rattle.tracker.specs.Room as room;

use adn::{Plan, RowUpdate};
use editor::Attempt;
use planner::operation_now;
use report::Line;
use rules::{Begun, Job, Jobs, Kept};
use script::{Operation, Script};
use watchers::Mailbox;

fn mailbox_has_room(mailbox: &Option<Mailbox>) -> bool
    ensures { result ≡ room.mailbox_has_room mailbox.now }
{
    match mailbox {
        None => true,
        Some(mailbox) => mailbox.dropped < u64::MAX,
    }
}

fn update_fits(update: &RowUpdate) -> bool
    ensures { result ≡ room.update_fits update.now }
{
    update.bytes.as_slice().len() <= 255
}

fn last_fits(update: &Option<RowUpdate>) -> bool
    ensures { result ≡ list_all room.update_fits (some_first update.now []) }
{
    match update {
        None => true,
        Some(update) => update_fits(update),
    }
}

fn deciding_fits(plan: &Plan) -> bool
    ensures { result
        ≡ list_all room.update_fits (plan.now.deciding ∷ some_first plan.now.after []) }
{
    update_fits(&plan.deciding) && last_fits(&plan.after)
}

fn updates_fit(plan: &Plan) -> bool
    ensures { result ≡ list_all room.update_fits (plan_updates plan.now) }
{
    match &plan.before {
        None => deciding_fits(plan),
        Some(before) => update_fits(before) && deciding_fits(plan),
    }
}

fn attempt_has_room(attempt: &Option<Attempt>) -> bool
    ensures { result ≡ room.attempt_has_room attempt.now }
{
    match attempt {
        None => true,
        Some(attempt) => attempt.sent < u64::MAX && updates_fit(&attempt.plan),
    }
}

fn begun_has_room(begun: &Option<Begun>) -> bool
    ensures { result ≡ room.begun_has_room begun.now }
{
    match begun {
        None => true,
        Some(begun) => attempt_has_room(&begun.editing.attempt),
    }
}

fn job_has_room(job: &Job) -> bool
    ensures { result ≡ room.job_has_room job.now }
{
    job.answered < u32::MAX && mailbox_has_room(&job.mailbox) && begun_has_room(&job.begun)
}

fn jobs_have_room(jobs: &[Job]) -> bool
    ensures { result ≡ list_all room.job_has_room jobs.now }
{
    jobs.iter().all(|job| job_has_room(job))
}

/// Whether one more line can be kept, whichever it is.
pub fn has_room(kept: &Kept) -> bool
    ensures enough { result ≡ true → room.HasRoom kept.now }
    ensures exact { room.HasRoom kept.now → result ≡ true }
{
    kept.history.events < u64::MAX
        && kept.history.calls < u64::MAX
        && kept.history.epoch < u64::MAX
        && kept.publications < u64::MAX
        && kept.marks < u64::MAX
        && jobs_have_room(kept.jobs.as_slice())
}

fn operation_fits(operation: Option<&Operation>) -> bool
    ensures { result ≡ room.operation_fits (option_copied operation.entry) }
{
    match operation {
        Some(Operation::OpenChannel { aid, .. }) => aid.as_slice().len() <= 255,
        _ => true,
    }
}

/// Whether what the line's operation names fits into commands.
pub fn line_fits(script: &Script, line: &Line, jobs: &Jobs) -> bool
    ensures { result ≡ room.line_fits script.now line.now jobs.now }
{
    match line {
        Line::Exchange { actor, .. } => operation_fits(operation_now(script, *actor, jobs)),
        _ => true,
    }
}
