// The parts of a script: their items in order, each read behind those before it.
ghost use Rattle.std.specs.Prelude.{◌≡◌, ◌≤◌, ◌<◌, [], map, length, OnOk, IfOk};
ghost use Rattle.serde_json.specs.View.{view};
ghost use Rattle.script_reader.specs.Parts as spec;
ghost use Rattle.script_reader.specs.Answers.{ReadsAs, AnswersAs, placed};

use crate::error::ItemError;
use crate::fields::{FromJson, check, field, only, whole, whole_to};
use crate::{ActorNumbers, Part, ScriptError, Why};
use apdu::Sequence;
use card_model::{Fault, Faults};
use serde_json::Value;
use std::alloc::Global;

/// How many items the parts before have.
#[derive(Clone, Copy, Debug, PartialEq, Eq)]
pub(crate) struct Earlier {
    pub(crate) cards: usize,
    pub(crate) changes: usize,
    pub(crate) actors: u8,
}

/// An item of a part, which is read behind those before it.
pub(crate) trait Item: Sized {
    ghost use Rattle.std.specs.Prelude.{Result, List, ℕ, ◌≤◌};
    ghost use Rattle.serde_json.specs.Data.{Data};
    ghost use Rattle.script_reader.specs.declared.error.Why.{Why};
    ghost use Rattle.script_reader.specs.declared.parts.Earlier.{Earlier};

    /// What the value stands for.
    ghost reading: { Earlier → List Self → Data → Result Self Why };

    /// How many items there may be.
    ghost room: { ℕ };

    fn item(
        alloc: Global,
        earlier: Earlier,
        before: &Sequence<Self>,
        value: &Value,
    ) -> Result<Self, ItemError>
        ensures value { ReadsAs (reading earlier before.now (view value.now)) result }
        ensures few { OnOk result (length before.now < room) };

    ghost small: { room ≤ 10000 };
}

impl ItemError {
    /// The error at an item of a part.
    pub(crate) fn at(self, part: Part, index: u32) -> ScriptError
        ensures { result ≡ placed part index self }
    {
        match self {
            ItemError::Broken(why) => ScriptError::Refused { part, index, why },
            ItemError::Memory => ScriptError::Memory,
        }
    }
}

/// The items of a part, or the first that breaks a rule.
fn items<T: Item + Drop>(
    alloc: Global,
    part: Part,
    earlier: Earlier,
    values: &[Value],
) -> Result<Sequence<T>, ScriptError>
    ensures value { AnswersAs
        (spec.items_from (T.reading earlier) part [] (map view values.now)) result }
    ensures few { IfOk result (λ xs. length xs ≤ T.room) }
{
    let mut out = Sequence::new(alloc);
    for value in values {
        match T::item(alloc, earlier, &out, value) {
            Ok(item) => out.push(item)?,
            Err(error) => return Err(error.at(part, out.len() as u32)),
        }
    }
    Ok(out)
}

/// The items of a list that has to have one.
fn some_items<T: Item + Drop>(
    alloc: Global,
    part: Part,
    earlier: Earlier,
    values: &[Value],
) -> Result<Sequence<T>, ScriptError>
    ensures value { AnswersAs
        (spec.some_items (T.reading earlier) part (map view values.now)) result }
    ensures few { IfOk result (λ xs. length xs ≤ T.room) }
{
    match values {
        [] => Err(ScriptError::Refused {
            part,
            index: 0,
            why: Why::Limit,
        }),
        [_, ..] => items(alloc, part, earlier, values),
    }
}

/// The items of a list that has to be there and to have one.
#[tactic(auto, using(crate::proofs::Counts::item_list_view))]
pub(crate) fn required_part<T: Item + Drop>(
    alloc: Global,
    part: Part,
    name: &str,
    earlier: Earlier,
    script: &Value,
) -> Result<Sequence<T>, ScriptError>
    ensures value { AnswersAs
        (spec.required_part (T.reading earlier) part name.now (view script.now)) result }
    ensures few { IfOk result (λ xs. length xs ≤ T.room) }
{
    match script.get(name).and_then(Value::as_array) {
        Some(values) => some_items(alloc, part, earlier, values.as_slice()),
        None => Err(ScriptError::Refused {
            part,
            index: 0,
            why: Why::Form,
        }),
    }
}

/// The items of a list that may be left out.
#[tactic(auto, using(crate::proofs::Counts::item_list_view))]
pub(crate) fn optional_part<T: Item + Drop>(
    alloc: Global,
    part: Part,
    name: &str,
    earlier: Earlier,
    script: &Value,
) -> Result<Sequence<T>, ScriptError>
    ensures value { AnswersAs
        (spec.optional_part (T.reading earlier) part name.now (view script.now)) result }
    ensures few { IfOk result (λ xs. length xs ≤ T.room) }
{
    let Some(found) = script.get(name) else {
        return Ok(Sequence::new(alloc));
    };
    match found.as_array() {
        Some(values) => items(alloc, part, earlier, values.as_slice()),
        None => Err(ScriptError::Refused {
            part,
            index: 0,
            why: Why::Form,
        }),
    }
}

impl Item for u8 {
    ghost use Rattle.script_reader.specs.Parts.{turn_item};

    ghost reading = { λ e. turn_item e.actors };

    ghost room = { 10000 };

    #[tactic(auto, unfolding(crate::specs::Parts::turn_item))]
    fn item(
        _alloc: Global,
        earlier: Earlier,
        before: &ActorNumbers,
        value: &Value,
    ) -> Result<u8, ItemError> {
        let actor = whole(value)?;
        check(before.len() < 10_000, Why::Limit)?;
        check(actor <= u64::from(earlier.actors), Why::Target)?;
        Ok(actor as u8)
    }

    ghost use Rattle.std.proofs.Common.{rules};

    ghost small = { Prim.search rules };
}

/// A fault, of which only the form is known.
fn fault_of(alloc: Global, value: &Value) -> Result<Fault, ItemError>
    ensures { ReadsAs (spec.fault_form (view value.now)) result }
{
    only(value, &["acted", "at"])?;
    let at: u32 = field(alloc, value, "at")?;
    let acted = field(alloc, value, "acted")?;
    Ok(Fault {
        at: u64::from(at),
        acted,
    })
}

/// The number of the last call that fails, or 0.
fn last_call(faults: &[Fault]) -> u64
    ensures { result ≡ spec.last_call faults.now }
{
    match faults.last() {
        Some(fault) => fault.at,
        None => 0,
    }
}

impl Item for Fault {
    ghost use Rattle.script_reader.specs.Parts.{fault_item};

    ghost reading = { λ _. fault_item };

    ghost room = { 100 };

    #[tactic(auto, unfolding(crate::specs::Parts::fault_item))]
    fn item(
        alloc: Global,
        _earlier: Earlier,
        before: &Faults,
        value: &Value,
    ) -> Result<Fault, ItemError> {
        let fault = fault_of(alloc, value)?;
        check(last_call(before.as_slice()) < fault.at, Why::Form)?;
        check(before.len() < 100, Why::Limit)?;
        Ok(fault)
    }

    ghost use Rattle.std.proofs.Common.{rules};

    ghost small = { Prim.search rules };
}
