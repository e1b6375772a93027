// The names in a script are texts, and so UTF-8.
ghost use Rattle.std.specs.Prelude.{◌≡◌, true};
ghost use Rattle.std.specs.List.{list_all};
ghost use Rattle.performed.specs.Names.{has_utf8_name, has_utf8_names};

use script::{ActorSpecs, Operation, Operations, Script};

#[tactic(auto, using(crate::proofs::Texts::utf8_test))]
fn name_is_utf8(operation: &Operation)
    ensures { has_utf8_name operation.now ≡ true }
{
    if let Operation::Set { name, .. } = operation {
        let _bytes = name.as_str();
    }
}

fn names_are_utf8(operations: &Operations)
    ensures { list_all has_utf8_name operations.now ≡ true }
{
    for operation in operations.as_slice() {
        name_is_utf8(operation);
    }
}

fn actors_names_are_utf8(actors: &ActorSpecs)
    ensures { list_all (list_all has_utf8_name) actors.now ≡ true }
{
    for operations in actors.as_slice() {
        names_are_utf8(operations);
    }
}

/// Says that the names of a script are UTF-8; it changes nothing.
pub(crate) fn script_names_are_utf8(script: &Script)
    ensures { has_utf8_names script.now ≡ true }
{
    actors_names_are_utf8(&script.actors);
}
