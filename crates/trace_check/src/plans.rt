// The plan of an edit for the card in the slot, and its updates.
ghost use Rattle.std.specs.Prelude.{◌≡◌, ◌∷◌, ◌&&◌, [], Err, slice_get, IfOk};
ghost use Rattle.std.specs.Option.{option_copied};
ghost use Rattle.apdu.specs.Apdu.{same_command as same_commands};
ghost use Rattle.editor.specs.Editing.{update_command};
ghost use Rattle.families.specs.Families as families;
ghost use Rattle.families.specs.Plans.{plan_updates, some_first};
ghost use Rattle.rules.specs.Rules as rules;
ghost use Rattle.rules.specs.State.{view_in};
ghost use Rattle.trace_check.specs.Plans as spec;

use crate::card::file_in;
use crate::same::same_bytes;
use adn::{Edit, Plan, PlanError, RowUpdate};
use apdu::{Command, Memory};
use book_plans::plan_edit;
use card_model::World;
use epoch_cache::CachedFiles;
use family_files::plan_of_family;
use fcp::Rows;
use planner::EditPlans;
use std::alloc::Global;

const UPDATE_RECORD: u8 = 0xDC;

const ABSOLUTE: u8 = 0x04;

/// Plans of edits, for the files that are current.
#[derive(Drop)]
pub struct FamilyPlans;

impl EditPlans for FamilyPlans {
    fn plan(
        &self,
        alloc: Global,
        family: u8,
        edit: &Edit,
        files: &CachedFiles,
    ) -> Result<Result<Plan, PlanError>, Memory> {
        plan_of_family(alloc, family, edit, files)
    }
}

/// The plan of an edit for the card in the slot, or why there is none.
pub fn plan_now(
    alloc: Global,
    world: &World,
    family: u8,
    edit: &Edit,
) -> Result<Result<Plan, PlanError>, Memory>
    ensures { IfOk result (λ planned. planned
        ≡ families.family_plan family edit.now (view_in world.now)) }
{
    let missing = Rows::missing(alloc);
    let main = file_in(world, family, 0, &missing);
    plan_edit(alloc, edit, main, file_in(world, family, 1, &missing))
}

// ---- its updates

// Those that begin with the deciding one.
fn update_from_deciding(plan: &Plan, number: u8) -> Option<&RowUpdate>
    ensures { option_copied result
        ≡ slice_get (plan.now.deciding ∷ some_first plan.now.after []) number }
{
    match number {
        0 => Some(&plan.deciding),
        1 => plan.after.as_ref(),
        _ => None,
    }
}

fn update_of(plan: &Plan, number: u8) -> Option<&RowUpdate>
    ensures { option_copied result ≡ slice_get (plan_updates plan.now) number }
{
    match &plan.before {
        None => update_from_deciding(plan, number),
        Some(before) => {
            if number == 0 {
                Some(before)
            } else {
                update_from_deciding(plan, number - 1)
            }
        }
    }
}

/// The first update of a plan, if there is a plan.
pub fn first_update(planned: &Result<Plan, PlanError>) -> Option<&RowUpdate>
    ensures { option_copied result ≡ slice_get (rules.updates_of planned.now) 0 }
{
    match planned {
        Err(_) => None,
        Ok(plan) => update_of(plan, 0),
    }
}

fn same_update(a: Option<&RowUpdate>, b: Option<&RowUpdate>) -> bool
    ensures { result ≡ spec.same_update (option_copied a.entry) (option_copied b.entry) }
{
    match (a, b) {
        (None, None) => true,
        (Some(a), Some(b)) => {
            a.file == b.file && a.row == b.row && same_bytes(a.bytes.as_slice(), b.bytes.as_slice())
        }
        (_, _) => false,
    }
}

fn same_plan(a: &Plan, b: &Plan) -> bool
    ensures { result ≡ spec.same_plan a.now b.now }
{
    same_update(update_of(a, 0), update_of(b, 0))
        && same_update(update_of(a, 1), update_of(b, 1))
        && same_update(update_of(a, 2), update_of(b, 2))
}

/// Whether the plan has the updates of the one that was planned, and no others.
#[tactic(auto, using(crate::proofs::Planning::same_planned))]
pub fn has_updates(plan: &Plan, planned: &Result<Plan, PlanError>) -> bool
    ensures { result ≡ rules.same_updates (plan_updates plan.now) (rules.updates_of planned.now) }
{
    match planned {
        Err(_) => false,
        Ok(planned) => same_plan(plan, planned),
    }
}

/// Whether the command is UPDATE RECORD of a planned row, ETSI TS 102 221 clause 11.1.6.
pub fn is_update(command: &Command, update: &RowUpdate) -> bool
    ensures { result ≡ same_commands command.now (update_command update.now) }
{
    command.class == 0
        && command.ins == UPDATE_RECORD
        && command.p1 == update.row
        && command.p2 == ABSOLUTE
        && same_bytes(command.body.as_slice(), update.bytes.as_slice())
        && command.le.is_none()
}
