// The updates of an attempt.
ghost use Rattle.std.specs.Prelude.{◌≡◌, ◌∷◌, ◌≤◌, [], length, slice_get};
ghost use Rattle.std.specs.Option.{option_copied};
ghost use Rattle.editor.specs.Editing as spec;
ghost use Rattle.families.specs.Plans.{plan_updates, some_first};

use crate::{Attempt, Editing};
use adn::{Plan, RowUpdate};
use apdu::Command;
use arrayvec::ArrayVec;
use card_model::PathList;

const UPDATE_RECORD: u8 = 0xDC;

const ABSOLUTE: u8 = 0x04;

// Those that begin with the deciding one.
fn update_from_deciding(plan: &Plan, number: u64) -> Option<&RowUpdate>
    ensures { option_copied result
        ≡ slice_get (plan.now.deciding ∷ some_first plan.now.after []) number }
{
    match number {
        0 => Some(&plan.deciding),
        1 => plan.after.as_ref(),
        _ => None,
    }
}

fn update_of(plan: &Plan, number: u64) -> Option<&RowUpdate>
    ensures { option_copied result ≡ slice_get (plan_updates plan.now) number }
{
    match &plan.before {
        None => update_from_deciding(plan, number),
        Some(before) => {
            if number == 0 {
                Some(before)
            } else {
                update_from_deciding(plan, number - 1)
            }
        }
    }
}

/// UPDATE RECORD of a planned row, ETSI TS 102 221 clause 11.1.6.
pub fn update_command(update: &RowUpdate) -> Command
    requires { length update.now.bytes ≤ 255 }
    ensures { result ≡ spec.update_command update.now }
{
    let mut body = ArrayVec::new();
    let _ = body.try_extend_from_slice(update.bytes.as_slice());
    Command {
        class: 0,
        ins: UPDATE_RECORD,
        p1: update.row,
        p2: ABSOLUTE,
        body,
        le: None,
    }
}

impl Attempt {
    /// The attempt that begins with a plan.
    pub fn new(family: u8, plan: Plan, paths: PathList) -> Attempt
        ensures { result ≡ spec.planned family plan paths }
    {
        Attempt {
            family,
            plan,
            paths,
            sent: 0,
            moved: false,
        }
    }

    /// The update that comes next.
    pub fn next_update(&self) -> Option<&RowUpdate>
        ensures { option_copied result ≡ spec.next_update self.now }
    {
        update_of(&self.plan, self.sent)
    }
}

fn owed_of(living: bool, attempt: Option<&Attempt>) -> Option<&RowUpdate>
    ensures { option_copied result ≡ spec.owed_of living (option_copied attempt.entry) }
{
    let attempt = attempt?;
    if living && !attempt.moved {
        attempt.next_update()
    } else {
        None
    }
}

impl Editing {
    /// Behind the deciding success, the update that is still to be sent. `living` says that the epoch lives in which the edit began.
    pub fn owed_update(&self, living: bool) -> Option<&RowUpdate>
        ensures { option_copied result ≡ spec.owed_update living self.now }
    {
        owed_of(living, self.attempt.as_ref())
    }
}
