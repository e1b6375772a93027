// The operations of an actor, as JSON says them and with the rules that they keep.
ghost use Rattle.std.specs.Prelude.{◌≡◌, ◌+◌, ◌^◌, ◌-◌, min, nat_le, length};
ghost use Rattle.std.specs.List.{list_all};
ghost use Rattle.serde_json.specs.View.{view};
ghost use Rattle.script_reader.specs.Operations as spec;
ghost use Rattle.script_reader.specs.Answers.{ReadsAs};

use crate::error::ItemError;
use crate::fields::{FromJson, check, field, only, optional, text_field};
use crate::pairing::are_paired;
use crate::parts::{Earlier, Item};
use crate::{ActorSpecs, Operation, Operations, Why};
use apdu::{Bytes, Command};
use serde_json::Value;
use std::alloc::Global;

/// The number of a family of files.
fn family_of(value: &Value) -> Result<u8, ItemError>
    ensures { ReadsAs (spec.family (view value.now)) result }
{
    let name = text_field(value, "family")?;
    if name == "records" {
        Ok(0)
    } else if name == "phonebook" {
        Ok(1)
    } else if name == "fixed" {
        Ok(2)
    } else {
        Err(ItemError::Broken(Why::Form))
    }
}

/// A command of class 00 or 80.
impl FromJson for Command {
    ghost use Rattle.script_reader.specs.Operations.{raw_command};

    ghost form = { raw_command };

    fn from_json(alloc: Global, value: &Value) -> Result<Command, ItemError> {
        let bytes = Bytes::from_json(alloc, value)?;
        match Command::read(bytes.as_slice()) {
            Ok(command) => {
                if command.class == 0x00 || command.class == 0x80 {
                    Ok(command)
                } else {
                    Err(ItemError::Broken(Why::Form))
                }
            }
            Err(_) => Err(ItemError::Broken(Why::Form)),
        }
    }
}

fn insert(alloc: Global, value: &Value) -> Result<Operation, ItemError>
    ensures { ReadsAs (spec.insert (view value.now)) result }
{
    only(value, &["card", "op"])?;
    let card = field(alloc, value, "card")?;
    Ok(Operation::Insert { card })
}

fn arm(alloc: Global, value: &Value) -> Result<Operation, ItemError>
    ensures { ReadsAs (spec.arm (view value.now)) result }
{
    only(value, &["change", "op"])?;
    let change = field(alloc, value, "change")?;
    Ok(Operation::Arm { change })
}

fn load(value: &Value) -> Result<Operation, ItemError>
    ensures { ReadsAs (spec.load (view value.now)) result }
{
    only(value, &["family", "op"])?;
    let family = family_of(value)?;
    Ok(Operation::Load { family })
}

fn set_entry(alloc: Global, value: &Value) -> Result<Operation, ItemError>
    ensures { ReadsAs (spec.set_entry (view value.now)) result }
{
    only(value, &["at", "family", "name", "number", "op"])?;
    let family = family_of(value)?;
    let at = optional(alloc, value, "at")?;
    let name = field(alloc, value, "name")?;
    let number = field(alloc, value, "number")?;
    Ok(Operation::Set {
        family,
        at,
        name,
        number,
    })
}

fn clear(alloc: Global, value: &Value) -> Result<Operation, ItemError>
    ensures { ReadsAs (spec.clear (view value.now)) result }
{
    only(value, &["at", "family", "op"])?;
    let family = family_of(value)?;
    let at = field(alloc, value, "at")?;
    Ok(Operation::Clear { family, at })
}

/// The number up to 15 that names a channel.
fn handle_of(alloc: Global, value: &Value) -> Result<u8, ItemError>
    ensures { ReadsAs (spec.handle (view value.now)) result }
{
    let handle = field(alloc, value, "ref")?;
    check(handle <= 15, Why::Form)?;
    Ok(handle)
}

fn open_channel(alloc: Global, value: &Value) -> Result<Operation, ItemError>
    ensures { ReadsAs (spec.open_channel (view value.now)) result }
{
    only(value, &["aid", "op", "ref"])?;
    let handle = handle_of(alloc, value)?;
    let aid: Bytes = field(alloc, value, "aid")?;
    let len = aid.as_slice().len();
    check(len >= 5 && len <= 16, Why::Form)?;
    Ok(Operation::OpenChannel { handle, aid })
}

fn raw(alloc: Global, value: &Value) -> Result<Operation, ItemError>
    ensures { ReadsAs (spec.raw (view value.now)) result }
{
    only(value, &["apdu", "op", "ref"])?;
    let handle = handle_of(alloc, value)?;
    let apdu = field(alloc, value, "apdu")?;
    Ok(Operation::Raw { handle, apdu })
}

fn close(alloc: Global, value: &Value) -> Result<Operation, ItemError>
    ensures { ReadsAs (spec.close (view value.now)) result }
{
    only(value, &["op", "ref"])?;
    let handle = handle_of(alloc, value)?;
    Ok(Operation::Close { handle })
}

fn verify(alloc: Global, value: &Value) -> Result<Operation, ItemError>
    ensures { ReadsAs (spec.verify (view value.now)) result }
{
    only(value, &["key", "op", "pin"])?;
    let [key] = field::<[u8; 1]>(alloc, value, "key")?;
    let pin = field(alloc, value, "pin")?;
    Ok(Operation::Verify { key, pin })
}

fn end_session(alloc: Global, value: &Value) -> Result<Operation, ItemError>
    ensures { ReadsAs (spec.end_session (view value.now)) result }
{
    only(value, &["key", "op"])?;
    let [key] = field::<[u8; 1]>(alloc, value, "key")?;
    Ok(Operation::End { key })
}

fn watch(alloc: Global, value: &Value) -> Result<Operation, ItemError>
    ensures { ReadsAs (spec.watch (view value.now)) result }
{
    only(value, &["mask", "op"])?;
    let mask = field(alloc, value, "mask")?;
    Ok(Operation::Watch { mask })
}

/// An operation without fields of its own.
fn alone(operation: Operation, value: &Value) -> Result<Operation, ItemError>
    ensures { ReadsAs (spec.alone operation (view value.now)) result }
{
    only(value, &["op"])?;
    Ok(operation)
}

/// The operation of this name, if it is one on a channel, a session or the notices.
fn channel_operation(alloc: Global, name: &str, value: &Value) -> Result<Operation, ItemError>
    ensures { ReadsAs (spec.channel_operation name.now (view value.now)) result }
{
    if name == "open" {
        open_channel(alloc, value)
    } else if name == "raw" {
        raw(alloc, value)
    } else if name == "close" {
        close(alloc, value)
    } else if name == "verify" {
        verify(alloc, value)
    } else if name == "end" {
        end_session(alloc, value)
    } else if name == "poll" {
        alone(Operation::Poll, value)
    } else if name == "look" {
        alone(Operation::Look, value)
    } else if name == "watch" {
        watch(alloc, value)
    } else if name == "notices" {
        alone(Operation::Notices, value)
    } else {
        Err(ItemError::Broken(Why::Form))
    }
}

/// The operation of this name.
fn operation_named(alloc: Global, name: &str, value: &Value) -> Result<Operation, ItemError>
    ensures { ReadsAs (spec.operation_named name.now (view value.now)) result }
{
    if name == "in" {
        insert(alloc, value)
    } else if name == "out" {
        alone(Operation::Out, value)
    } else if name == "arm" {
        arm(alloc, value)
    } else if name == "load" {
        load(value)
    } else if name == "set" {
        set_entry(alloc, value)
    } else if name == "clear" {
        clear(alloc, value)
    } else {
        channel_operation(alloc, name, value)
    }
}

impl FromJson for Operation {
    ghost use Rattle.script_reader.specs.Operations.{operation_form};

    ghost form = { operation_form };

    #[tactic(auto, unfolding(crate::specs::Operations::operation_form))]
    fn from_json(alloc: Global, value: &Value) -> Result<Operation, ItemError> {
        let name = text_field(value, "op")?;
        operation_named(alloc, name, value)
    }
}

/// A name and a number have at most 1,000 bytes each.
fn is_within(operation: &Operation) -> bool
    ensures { result ≡ spec.is_operation_within operation.now }
{
    match operation {
        Operation::Set { name, number, .. } => {
            name.as_str().len() <= 1_000 && number.as_str().len() <= 1_000
        }
        _ => true,
    }
}

/// The phonebook and the fixed dialling numbers can be edited.
fn is_editable(family: u8) -> bool
    ensures { result ≡ spec.is_editable family }
{
    family == 1 || family == 2
}

/// The card, the change or the editable family that the operation names is there.
fn has_target(operation: &Operation, earlier: Earlier) -> bool
    ensures { result ≡ spec.has_target earlier.cards earlier.changes operation.now }
{
    match operation {
        Operation::Insert { card } => usize::from(*card) < earlier.cards,
        Operation::Arm { change } => usize::from(*change) < earlier.changes,
        Operation::Set { family, .. } => is_editable(*family),
        Operation::Clear { family, .. } => is_editable(*family),
        _ => true,
    }
}

/// How many operations some actors have.
fn operation_count(actors: &[Operations]) -> usize
    ensures { result ≡ min (spec.operation_count actors.now) (2 ^ 64 - 1) }
{
    let [operations, rest @ ..] = actors else {
        return 0;
    };
    operations.len().saturating_add(operation_count(rest))
}

/// There are at most 1,000 operations of all up to these.
fn is_count_within(before: &ActorSpecs, operations: &Operations) -> bool
    ensures { result ≡ nat_le (length operations.now + spec.operation_count before.now) 1000 }
{
    operations
        .len()
        .saturating_add(operation_count(before.as_slice()))
        <= 1_000
}

fn are_each_within(operations: &Operations) -> bool
    ensures { result ≡ list_all spec.is_operation_within operations.now }
{
    operations.as_slice().iter().all(is_within)
}

/// There are at most eight actors, and 1,000 operations of all up to this one.
fn is_actor_within(before: &ActorSpecs, operations: &Operations) -> bool
    ensures { result ≡ spec.is_actor_within before.now operations.now }
{
    before.len() < 8 && is_count_within(before, operations) && are_each_within(operations)
}

fn have_targets(operations: &Operations, earlier: Earlier) -> bool
    ensures { result ≡ list_all (spec.has_target earlier.cards earlier.changes) operations.now }
{
    operations
        .as_slice()
        .iter()
        .all(|operation| has_target(operation, earlier))
}

impl Item for Operations {
    ghost use Rattle.script_reader.specs.Operations.{actor_item};

    ghost reading = { λ e. actor_item e.cards e.changes };

    ghost room = { 8 };

    #[tactic(auto, unfolding(crate::specs::Operations::actor_item))]
    fn item(
        alloc: Global,
        earlier: Earlier,
        before: &ActorSpecs,
        value: &Value,
    ) -> Result<Operations, ItemError> {
        let operations = Operations::from_json(alloc, value)?;
        check(is_actor_within(before, &operations), Why::Limit)?;
        check(have_targets(&operations, earlier), Why::Target)?;
        check(are_paired(operations.as_slice()), Why::Pairing)?;
        Ok(operations)
    }

    ghost use Rattle.std.proofs.Common.{rules};

    ghost small = { Prim.search rules };
}
