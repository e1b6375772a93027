// Values and fields of a JSON object. What has not its form breaks `Why::Form`.
ghost use Rattle.std.specs.Prelude.{◌≡◌, ◌≤◌, ◌∷◌, [], length, map, codes, IfOk, MatchResult, Ok, Err};
ghost use Rattle.serde_json.specs.View.{view};
ghost use Rattle.script_reader.specs.Fields as spec;
ghost use Rattle.script_reader.specs.Reading.{rule, all_of};
ghost use Rattle.script_reader.specs.Answers.{ReadsAs, ReadsTextAs};

use crate::Why;
use crate::error::ItemError;
use apdu::{Bytes, Sequence, Text};
use hex::{FromHex, FromHexError};
use serde_json::Value;
use std::alloc::Global;
use std::marker::Model;

/// What can be read from a JSON value.
pub(crate) trait FromJson: Sized {
    ghost use Rattle.std.specs.Prelude.{Result};
    ghost use Rattle.serde_json.specs.Data.{Data};
    ghost use Rattle.script_reader.specs.declared.error.Why.{Why};

    /// What the value stands for.
    ghost form: { Data → Result Self Why };

    fn from_json(alloc: Global, value: &Value) -> Result<Self, ItemError>
        ensures { ReadsAs (form (view value.now)) result };
}

/// The rule has to hold.
pub(crate) fn check(holds: bool, why: Why) -> Result<(), ItemError>
    ensures { ReadsAs (rule why holds) result }
{
    if holds {
        Ok(())
    } else {
        Err(ItemError::Broken(why))
    }
}

impl FromJson for bool {
    ghost use Rattle.script_reader.specs.Fields.{flag};

    ghost form = { flag };

    fn from_json(_alloc: Global, value: &Value) -> Result<bool, ItemError> {
        value.as_bool().ok_or(ItemError::Broken(Why::Form))
    }
}

/// The text of a string.
pub(crate) fn text_of(value: &Value) -> Result<&str, ItemError>
    ensures { ReadsTextAs (spec.text (view value.now)) result }
{
    value.as_str().ok_or(ItemError::Broken(Why::Form))
}

impl FromJson for Text {
    ghost use Rattle.script_reader.specs.Fields.{text};

    ghost form = { text };

    fn from_json(alloc: Global, value: &Value) -> Result<Text, ItemError> {
        Ok(Text::from_str(alloc, text_of(value)?)?)
    }
}

/// A whole number.
pub(crate) fn whole(value: &Value) -> Result<u64, ItemError>
    ensures { ReadsAs (spec.whole (view value.now)) result }
{
    value.as_u64().ok_or(ItemError::Broken(Why::Form))
}

/// A whole number up to this one.
pub(crate) fn whole_to(limit: u64, value: &Value) -> Result<u64, ItemError>
    ensures value { ReadsAs (spec.whole_to limit (view value.now)) result }
    ensures within { IfOk result (λ n. n ≤ limit) }
{
    let n = whole(value)?;
    if n > limit {
        return Err(ItemError::Broken(Why::Form));
    }
    Ok(n)
}

impl FromJson for u8 {
    ghost use Rattle.script_reader.specs.Fields.{whole_to};

    ghost form = { whole_to 255 };

    fn from_json(_alloc: Global, value: &Value) -> Result<u8, ItemError> {
        Ok(whole_to(255, value)? as u8)
    }
}

impl FromJson for u16 {
    ghost use Rattle.script_reader.specs.Fields.{whole_to};

    ghost form = { whole_to 65535 };

    fn from_json(_alloc: Global, value: &Value) -> Result<u16, ItemError> {
        Ok(whole_to(65_535, value)? as u16)
    }
}

impl FromJson for u32 {
    ghost use Rattle.script_reader.specs.Fields.{whole_to};

    ghost form = { whole_to 4294967295 };

    fn from_json(_alloc: Global, value: &Value) -> Result<u32, ItemError> {
        Ok(whole_to(4_294_967_295, value)? as u32)
    }
}

impl FromJson for Bytes {
    ghost use Rattle.script_reader.specs.Fields.{hex};

    ghost form = { hex };

    fn from_json(alloc: Global, value: &Value) -> Result<Bytes, ItemError> {
        let text = text_of(value)?;
        match hex::decode(alloc, text) {
            Ok(bytes) => Ok(Bytes::from_vec(bytes)),
            Err(FromHexError::OutOfMemory) => Err(ItemError::Memory),
            Err(_) => Err(ItemError::Broken(Why::Form)),
        }
    }
}

impl<const N: usize> FromJson for [u8; N] {
    ghost use Rattle.script_reader.specs.Fields.{hex_of};

    ghost form = { hex_of N };

    fn from_json(_alloc: Global, value: &Value) -> Result<[u8; N], ItemError> {
        let text = text_of(value)?;
        match <[u8; N] as FromHex>::from_hex(text) {
            Ok(bytes) => Ok(bytes),
            Err(_) => Err(ItemError::Broken(Why::Form)),
        }
    }
}

/// The file ids of a path, of any number. Contracts see the list of the ids.
#[derive(Drop)]
pub(crate) struct Ids {
    items: Sequence<u16>,
}

impl Model for Ids {
    ghost use Rattle.std.specs.Prelude.{List, ℕ};

    ghost Value = { List ℕ };

    ghost view = { λ i. i.items };
}

impl Ids {
    /// The ids of so many bytes, two to an id.
    fn from_bytes(alloc: Global, bytes: &[u8]) -> Result<Ids, ItemError>
        ensures { ReadsAs (spec.there (spec.ids_of bytes.now)) result }
    {
        let mut items = Sequence::new(alloc);
        let mut rest = bytes;
        'ids: while let [high, low, behind @ ..] = rest {
            items.push(u16::from(*high) * 256 + u16::from(*low))?;
            rest = behind;
        }
        if rest.is_empty() {
            Ok(Ids { items })
        } else {
            Err(ItemError::Broken(Why::Form))
        }
    }

    pub(crate) fn as_slice(&self) -> &[u16]
        ensures { result.now ≡ self.now }
    {
        self.items.as_slice()
    }
}

impl FromJson for Ids {
    ghost use Rattle.script_reader.specs.Fields.{ids};

    ghost form = { ids };

    fn from_json(alloc: Global, value: &Value) -> Result<Ids, ItemError> {
        let bytes = Bytes::from_json(alloc, value)?;
        Ids::from_bytes(alloc, bytes.as_slice())
    }
}

/// The items of a list, each read from its value.
pub(crate) fn items_of<T: FromJson + Drop>(
    alloc: Global,
    values: &[Value],
) -> Result<Sequence<T>, ItemError>
    ensures { ReadsAs (all_of T.form (map view values.now)) result }
{
    let mut out = Sequence::new(alloc);
    for value in values {
        out.push(T::from_json(alloc, value)?)?;
    }
    Ok(out)
}

impl<T: FromJson + Drop> FromJson for Sequence<T> {
    ghost use Rattle.script_reader.specs.Fields.{list};

    ghost form = { list T.form };

    #[tactic(auto, using(crate::proofs::Counts::item_list_view))]
    fn from_json(alloc: Global, value: &Value) -> Result<Sequence<T>, ItemError> {
        match value.as_array() {
            Some(values) => items_of(alloc, values.as_slice()),
            None => Err(ItemError::Broken(Why::Form)),
        }
    }
}

/// How many of the names are fields of the object.
fn known(value: &Value, names: &[&str]) -> usize
    ensures value { result ≡ spec.count_known (map (λ n. n.now) names.now) (view value.now) }
    ensures few { result ≤ length names.now }
{
    let [name, rest @ ..] = names else {
        return 0;
    };
    usize::from(value.get(*name).is_some()) + known(value, rest)
}

/// The object has no field beside those of these names.
#[tactic(auto, using(crate::proofs::Counts::count_members_view))]
pub(crate) fn only(value: &Value, names: &[&str]) -> Result<(), ItemError>
    ensures { ReadsAs (spec.only (map (λ n. n.now) names.now) (view value.now)) result }
{
    match value.as_object() {
        Some(map) => check(map.len() == known(value, names), Why::Form),
        None => Err(ItemError::Broken(Why::Form)),
    }
}

/// A field that has to be there.
pub(crate) fn field<T: FromJson>(alloc: Global, value: &Value, name: &str) -> Result<T, ItemError>
    ensures { ReadsAs (spec.field T.form name.now (view value.now)) result }
{
    match value.get(name) {
        Some(found) => T::from_json(alloc, found),
        None => Err(ItemError::Broken(Why::Form)),
    }
}

/// The text of a field that has to be there.
pub(crate) fn text_field<'a>(value: &'a Value, name: &str) -> Result<&'a str, ItemError>
    ensures { ReadsTextAs (spec.field spec.text name.now (view value.now)) result }
{
    match value.get(name) {
        Some(found) => text_of(found),
        None => Err(ItemError::Broken(Why::Form)),
    }
}

/// A field that may be left out.
pub(crate) fn optional<T: FromJson>(
    alloc: Global,
    value: &Value,
    name: &str,
) -> Result<Option<T>, ItemError>
    ensures { ReadsAs (spec.optional T.form name.now (view value.now)) result }
{
    match value.get(name) {
        Some(found) => Ok(Some(T::from_json(alloc, found)?)),
        None => Ok(None),
    }
}

/// A field that is at this value where it is left out.
pub(crate) fn with_default<T: FromJson + Drop>(
    alloc: Global,
    value: &Value,
    name: &str,
    default: T,
) -> Result<T, ItemError>
    ensures { ReadsAs (spec.with_default default T.form name.now (view value.now)) result }
{
    match value.get(name) {
        Some(found) => T::from_json(alloc, found),
        None => Ok(default),
    }
}
