// The family that a turn publishes once all files of it are current.
ghost use Rattle.std.specs.Prelude.{◌≡◌};
ghost use Rattle.std.specs.Option.{option_copied};
ghost use Rattle.rules.specs.After as rules;
ghost use Rattle.rules.specs.Work as work;

use crate::history::lives_in;
use editor::Editing;
use planner::{begun_of, family_read, operation_now};
use rules::{Begun, Kept};
use script::{Operation, Script};

fn is_edit_over(editing: &Editing) -> bool
    ensures { result ≡ work.is_edit_over editing.now }
{
    editing.decided.is_some() && editing.owed_update(true).is_none()
}

fn family_of_operation(begun: &Begun, operation: &Operation) -> Option<u8>
    ensures { result ≡ work.family_of_operation begun.now operation.now }
{
    match operation {
        Operation::Load { family } => Some(*family),
        Operation::Set { family, .. } | Operation::Clear { family, .. } => {
            if is_edit_over(&begun.editing) {
                Some(*family)
            } else {
                None
            }
        }
        _ => None,
    }
}

fn family_published(kept: &Kept, begun: &Begun, operation: &Operation) -> Option<u8>
    ensures { result ≡ work.family_published kept.now begun.now operation.now }
{
    if lives_in(kept.history, begun.epoch) {
        family_of_operation(begun, operation)
    } else {
        None
    }
}

pub fn family_of_begun(
    kept: &Kept,
    begun: Option<&Begun>,
    operation: Option<&Operation>,
) -> Option<u8>
    ensures { result ≡ rules.family_of_begun kept.now (option_copied begun.entry)
        (option_copied operation.entry) }
{
    match (begun, operation) {
        (Some(begun), Some(operation)) => family_published(kept, begun, operation),
        (_, _) => None,
    }
}

pub fn family_at(script: &Script, actor: u8, kept: &Kept) -> Option<u8>
    ensures { result ≡ rules.family_at script.now actor kept.now }
{
    if actor == 0 {
        family_read(kept)
    } else {
        family_of_begun(
            kept,
            begun_of(actor, &kept.jobs),
            operation_now(script, actor, &kept.jobs),
        )
    }
}
