// A script from its bytes.
ghost use Rattle.std.specs.Prelude.{◌≡◌, true, IfOk};
ghost use Rattle.serde_json.specs.View.{view};
ghost use Rattle.script_reader.specs.Parts as spec;
ghost use Rattle.script_reader.specs.Scripts.{script_of_parts, script_of_data, script_of_bytes};
ghost use Rattle.script_reader.specs.Rules.{keeps_rules};
ghost use Rattle.script_reader.specs.Answers.{ReadsAs, AnswersAs};

use crate::error::ItemError;
use crate::fields::{check, field, only, optional, whole};
use crate::parts::{Earlier, optional_part, required_part};
use crate::{ActorSpecs, CardSpecs, ChangeSpecs, Part, Script, ScriptError, Why};
use serde_json::Value;
use std::alloc::Global;

fn version_of(alloc: Global, script: &Value) -> Result<u8, ItemError>
    ensures { ReadsAs (spec.version_form (view script.now)) result }
{
    let version = field(alloc, script, "version")?;
    check(version == 1, Why::Form)?;
    Ok(version)
}

fn version_part(alloc: Global, script: &Value) -> Result<u8, ScriptError>
    ensures { AnswersAs (spec.version_part (view script.now)) result }
{
    match version_of(alloc, script) {
        Ok(version) => Ok(version),
        Err(error) => Err(error.at(Part::Version, 0)),
    }
}

/// A limit on the events.
fn budget_of(value: &Value) -> Result<u64, ItemError>
    ensures { ReadsAs (spec.budget_item (view value.now)) result }
{
    let events = whole(value)?;
    check(events >= 1 && events <= 20_000_000, Why::Limit)?;
    Ok(events)
}

fn budget_part(script: &Value) -> Result<Option<u64>, ScriptError>
    ensures { AnswersAs (spec.budget_part (view script.now)) result }
{
    let Some(found) = script.get("budget") else {
        return Ok(None);
    };
    match budget_of(found) {
        Ok(events) => Ok(Some(events)),
        Err(error) => Err(error.at(Part::Budget, 0)),
    }
}

/// A script has no other field.
fn other_part(script: &Value) -> Result<(), ScriptError>
    ensures { AnswersAs (spec.other_part (view script.now)) result }
{
    let names = [
        "actors", "budget", "cards", "changes", "faults", "schedule", "version",
    ];
    match only(script, &names) {
        Ok(()) => Ok(()),
        Err(error) => Err(error.at(Part::Other, 0)),
    }
}

/// The parts of an object, in the order in which they are tested.
#[tactic(auto, unfolding(crate::specs::Scripts::script_of_parts))]
fn script_of_parts(alloc: Global, script: &Value) -> Result<Script, ScriptError>
    ensures { AnswersAs (script_of_parts (view script.now)) result }
{
    let mut earlier = Earlier {
        cards: 0,
        changes: 0,
        actors: 0,
    };
    let version = version_part(alloc, script)?;
    let cards: CardSpecs = required_part(alloc, Part::Cards, "cards", earlier, script)?;
    let changes: ChangeSpecs = optional_part(alloc, Part::Changes, "changes", earlier, script)?;
    earlier.cards = cards.len();
    earlier.changes = changes.len();
    let actors: ActorSpecs = required_part(alloc, Part::Actors, "actors", earlier, script)?;
    earlier.actors = actors.len() as u8;
    let schedule = optional_part(alloc, Part::Schedule, "schedule", earlier, script)?;
    let faults = optional_part(alloc, Part::Faults, "faults", earlier, script)?;
    let budget = budget_part(script)?;
    other_part(script)?;
    Ok(Script {
        version,
        cards,
        actors,
        changes,
        schedule,
        faults,
        budget,
    })
}

/// The bytes are no JSON object.
const NO_JSON: ScriptError = ScriptError::Refused {
    part: Part::Json,
    index: 0,
    why: Why::Json,
};

#[tactic(auto, unfolding(crate::specs::Scripts::script_of_data))]
fn script_of_value(alloc: Global, value: &Value) -> Result<Script, ScriptError>
    ensures { AnswersAs (script_of_data (view value.now)) result }
{
    if value.is_object() {
        script_of_parts(alloc, value)
    } else {
        Err(NO_JSON)
    }
}

/// The script that the bytes are, or the first rule that they break.
#[tactic(auto, using(crate::proofs::Texts::refused_text))]
pub fn read_script(alloc: Global, bytes: &[u8]) -> Result<Script, ScriptError>
    ensures value { AnswersAs (script_of_bytes bytes.now) result }
    ensures rules { IfOk result (λ script. keeps_rules script ≡ true) }
{
    match Value::from_slice(alloc, bytes) {
        Ok(value) => script_of_value(alloc, &value),
        Err(error) => {
            if error.is_memory() {
                Err(ScriptError::Memory)
            } else {
                Err(NO_JSON)
            }
        }
    }
}
