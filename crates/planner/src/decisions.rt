// What the beginning of a turn decides.
ghost use Rattle.std.specs.Prelude.{◌≡◌, true, false, Some, IsOk, IfOk};
ghost use Rattle.report.specs.declared.line.Line.TheVariants as line;
ghost use Rattle.rules.specs.After as rules;
ghost use Rattle.rules.specs.Work as spec;
ghost use Rattle.rules.specs.Kept.{operation_at as operation_in, operation_now as operation_of};
ghost use Rattle.planner.specs.Room.{handles_fit, is_edit, is_new_attempt};

use crate::edits::{EditPlans, work_of_clear, work_of_set};
use crate::holdings::living_handle_of;
use crate::operations::{begun_of, operation_at};
use crate::work::{
    decides, framework_work, if_living, reads_family, sends_close, sends_raw, status_command,
    verify_command,
};
use apdu::Memory;
use card_model::WorldEvent;
use channels::open_command;
use editor::Editing;
use epoch_cache::Past;
use rules::{Begun, Decision, Kept, Work};
use script::{Operation, Script};
use std::alloc::Global;

/// What a turn of an actor has to do for an operation that it has begun.
pub fn work_of_operation<P: EditPlans>(
    alloc: Global,
    planner: &P,
    kept: &Kept,
    actor: u8,
    begun: &Begun,
    operation: &Operation,
) -> Result<Decision, Memory>
    requires channels { handles_fit kept.now.handles ≡ true }
    ensures value { IfOk result (λ d. d
        ≡ spec.work_of_operation kept.now actor begun.now operation.now) }
    ensures short { IfOk result (λ d. is_new_attempt d.attempt ≡ true) }
    ensures room { is_edit (Some operation.now) ≡ false → IsOk result }
{
    match operation {
        Operation::Insert { card } => Ok(decides(Work::Happens(WorldEvent::Insert(*card)))),
        Operation::Out => Ok(decides(Work::Happens(WorldEvent::Out))),
        Operation::Arm { change } => Ok(decides(Work::Happens(WorldEvent::Arm(*change)))),
        Operation::Load { family } => {
            let reads = reads_family(&kept.files, *family);
            Ok(decides(if_living(kept, begun, reads)))
        }
        Operation::Set {
            family,
            at,
            name,
            number,
        } => work_of_set(
            alloc, planner, kept, actor, begun, *family, *at, name, number,
        ),
        Operation::Clear { family, at } => {
            work_of_clear(alloc, planner, kept, actor, begun, *family, *at)
        }
        Operation::OpenChannel { .. } => {
            Ok(decides(if_living(kept, begun, Work::Sends(open_command()))))
        }
        Operation::Raw { handle, apdu } => {
            let held = living_handle_of(kept, actor, *handle);
            Ok(decides(sends_raw(apdu, held)))
        }
        Operation::Close { handle } => {
            let held = living_handle_of(kept, actor, *handle);
            Ok(decides(sends_close(held)))
        }
        Operation::Verify { key, pin } => {
            let verify = Work::Sends(verify_command(*key, pin));
            Ok(decides(if_living(kept, begun, verify)))
        }
        Operation::Poll => Ok(decides(if_living(kept, begun, Work::Sends(status_command())))),
        Operation::End { .. } | Operation::Look | Operation::Watch { .. } | Operation::Notices => {
            Ok(decides(Work::Rests))
        }
    }
}

fn fresh_begun(alloc: Global, op: u32, history: Past) -> Begun
    ensures { result ≡ rules.fresh_begun op history }
{
    Begun {
        index: op,
        epoch: if history.living {
            Some(history.epoch)
        } else {
            None
        },
        ended: None,
        told: None,
        verified: false,
        editing: Editing::new(alloc),
    }
}

/// What the mark of a turn decides.
pub fn decision_at_turn<P: EditPlans>(
    alloc: Global,
    planner: &P,
    script: &Script,
    kept: &Kept,
    actor: u8,
) -> Result<Decision, Memory>
    requires channels { handles_fit kept.now.handles ≡ true }
    ensures value { IfOk result (λ d. d ≡ rules.decision_at script.now (line.Turn actor) kept.now) }
    ensures short { IfOk result (λ d. is_new_attempt d.attempt ≡ true) }
    ensures room { is_edit (operation_of script.now actor kept.now.jobs) ≡ false → IsOk result }
{
    if actor == 0 {
        return Ok(decides(framework_work(kept)));
    }
    let Some(begun) = begun_of(actor, &kept.jobs) else {
        return Ok(decides(Work::Rests));
    };
    match operation_at(script, actor, begun.index) {
        None => Ok(decides(Work::Rests)),
        Some(operation) => work_of_operation(alloc, planner, kept, actor, begun, operation),
    }
}

/// What the first line of an operation decides.
pub fn decision_at_begin<P: EditPlans>(
    alloc: Global,
    planner: &P,
    script: &Script,
    kept: &Kept,
    actor: u8,
    op: u32,
) -> Result<Decision, Memory>
    requires channels { handles_fit kept.now.handles ≡ true }
    ensures value { IfOk result (λ d. d
        ≡ rules.decision_at script.now (line.Begin actor op) kept.now) }
    ensures short { IfOk result (λ d. is_new_attempt d.attempt ≡ true) }
    ensures room { is_edit (operation_in script.now actor op) ≡ false → IsOk result }
{
    match operation_at(script, actor, op) {
        None => Ok(decides(Work::Rests)),
        Some(operation) => {
            let begun = fresh_begun(alloc, op, kept.history);
            work_of_operation(alloc, planner, kept, actor, &begun, operation)
        }
    }
}
