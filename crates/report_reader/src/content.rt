// What is shown of a family: compact JSON whose numbers are whole and have 64 bits at most.
ghost use Rattle.std.specs.Prelude.{◌≡◌, true, IfOk};
ghost use Rattle.serde_json.specs.View.{view, items_view, members_view};
ghost use Rattle.serde_json.specs.Written.{compact_text};
ghost use Rattle.report_reader.specs.Reads.{ReadsAs};
ghost use Rattle.report_reader.specs.Content as spec;

use crate::error::{LineError, check};
use apdu::{Memory, Text};
use serde_json::{Map, Value};
use std::alloc::Global;

/// Whether each number in it is whole.
#[cycle(is_whole)]
fn is_whole(value: &Value) -> bool
    ensures { result ≡ spec.is_whole (view value.now) }
{
    match value {
        Value::Null | Value::Bool(_) | Value::String(_) => true,
        Value::Number(number) => number.is_u64(),
        Value::Array(items) => are_items_whole(items),
        Value::Object(members) => are_members_whole(members),
    }
}

#[cycle(is_whole)]
fn are_items_whole(items: &Vec<Value>) -> bool
    ensures { result ≡ spec.are_items_whole (items_view items.now.items) }
{
    for item in items {
        if !is_whole(item) {
            return false;
        }
    }
    true
}

#[cycle(is_whole)]
fn are_members_whole(members: &Map<String, Value>) -> bool
    ensures { result ≡ spec.are_members_whole (members_view members.now.entries) }
{
    for (_, member) in members.iter() {
        if !is_whole(member) {
            return false;
        }
    }
    true
}

/// The value's one text.
#[tactic(auto, using(crate::proofs::Contents::no_float))]
fn compact(alloc: Global, value: &Value) -> Result<Text, Memory>
    requires { spec.is_whole (view value.now) ≡ true }
    ensures { IfOk result (λ text. text ≡ compact_text (view value.now)) }
{
    Ok(Text::from_string(value.to_string(alloc)?))
}

/// The value's one text, if these bytes are it.
fn text_of(alloc: Global, bytes: &[u8], value: &Value) -> Result<Text, LineError>
    ensures { ReadsAs (spec.text_of bytes.now (view value.now)) result }
{
    if !is_whole(value) {
        return Err(LineError::NoPlace);
    }
    let text = compact(alloc, value)?;
    check(text.as_str().as_bytes() == bytes)?;
    Ok(text)
}

/// The text, if it is JSON and is written as it stands.
#[tactic(auto, using(crate::proofs::Contents::refused_content))]
pub(crate) fn content(alloc: Global, bytes: &[u8]) -> Result<Text, LineError>
    ensures { ReadsAs (spec.content bytes.now) result }
{
    match Value::from_slice(alloc, bytes) {
        Ok(value) => text_of(alloc, bytes, &value),
        Err(error) => {
            if error.is_memory() {
                Err(LineError::Memory)
            } else {
                Err(LineError::NoPlace)
            }
        }
    }
}
