// Values and objects of the JSON that is written.
ghost use Rattle.std.specs.Prelude.{◌≡◌, ◌≤◌, ◌∷◌, [], false, length, map, flat_map, option_map, All, IfSome, IfOk, OnOk, Option};
ghost use Rattle.hex.specs.Hex.{IsBytes};
ghost use Rattle.apdu.specs.Words.{two_bytes};
ghost use Rattle.serde_json.specs.Data.{no_members, object, put, string};
ghost use Rattle.serde_json.specs.View.{view};
ghost use Rattle.script_writer.specs.Writing as spec;
ghost use Rattle.script_writer.specs.Objects.{members};

use apdu::{Bytes, Memory, Path, Sequence, Text};
use arrayvec::ArrayVec;
use serde_json::{Map, Value};
use std::alloc::Global;

/// What is written as a JSON value.
pub(crate) trait ToJson {
    ghost use Rattle.serde_json.specs.Data.{Data};

    /// The value.
    ghost written: { Self → Data };

    /// That it is read back from the value.
    ghost is_back: { Self → Type 0 };

    fn to_json(&self, alloc: Global) -> Result<Value, Memory>
        ensures value { IfOk result (λ v. view v ≡ written self.now) }
        ensures back { IfOk result (λ _. is_back self.now) };
}

impl ToJson for bool {
    ghost use Rattle.serde_json.specs.Data.{boolean};
    ghost use Rattle.std.specs.Prelude.{⊤};

    ghost written = { boolean };

    ghost is_back = { λ _. ⊤ };

    fn to_json(&self, _alloc: Global) -> Result<Value, Memory> {
        Ok(Value::from(*self))
    }
}

impl ToJson for u8 {
    ghost use Rattle.script_writer.specs.Writing.{number_data};
    ghost use Rattle.script_writer.specs.ReadBack.{IsNumberBack};

    ghost written = { number_data };

    ghost is_back = { IsNumberBack 255 };

    #[tactic(auto, using(crate::proofs::Values::number_back))]
    fn to_json(&self, _alloc: Global) -> Result<Value, Memory> {
        Ok(Value::from(*self))
    }
}

impl ToJson for u16 {
    ghost use Rattle.script_writer.specs.Writing.{number_data};
    ghost use Rattle.script_writer.specs.ReadBack.{IsNumberBack};

    ghost written = { number_data };

    ghost is_back = { IsNumberBack 65535 };

    #[tactic(auto, using(crate::proofs::Values::number_back))]
    fn to_json(&self, _alloc: Global) -> Result<Value, Memory> {
        Ok(Value::from(*self))
    }
}

impl ToJson for u64 {
    ghost use Rattle.script_writer.specs.Writing.{number_data};
    ghost use Rattle.std.specs.Prelude.{⊤};

    ghost written = { number_data };

    ghost is_back = { λ _. ⊤ };

    fn to_json(&self, _alloc: Global) -> Result<Value, Memory> {
        Ok(Value::from(*self))
    }
}

impl ToJson for Text {
    ghost use Rattle.serde_json.specs.Data.{string};
    ghost use Rattle.std.specs.Prelude.{⊤};

    ghost written = { string };

    ghost is_back = { λ _. ⊤ };

    fn to_json(&self, alloc: Global) -> Result<Value, Memory> {
        text_value(alloc, self.as_str())
    }
}

/// A string.
pub(crate) fn text_value(alloc: Global, text: &str) -> Result<Value, Memory>
    ensures value { IfOk result (λ v. view v ≡ string text.now) }
{
    Ok(Value::try_from_str(alloc, text)?)
}

/// A string of hexadecimal digits in upper case.
pub(crate) fn hex_value(alloc: Global, bytes: &[u8]) -> Result<Value, Memory>
    ensures value { IfOk result (λ v. view v ≡ spec.hex_data bytes.now) }
    ensures bytes { IsBytes bytes.now }
{
    Ok(Value::from(hex::encode_upper(alloc, bytes)?))
}

impl ToJson for Bytes {
    ghost use Rattle.script_writer.specs.Writing.{hex_data};
    ghost use Rattle.script_writer.specs.ReadBack.{IsHexBack};

    ghost written = { hex_data };

    ghost is_back = { IsHexBack };

    #[tactic(auto, using(crate::proofs::Values::hex_back))]
    fn to_json(&self, alloc: Global) -> Result<Value, Memory> {
        hex_value(alloc, self.as_slice())
    }
}

impl<const N: usize> ToJson for [u8; N] {
    ghost use Rattle.script_writer.specs.Writing.{hex_data};
    ghost use Rattle.script_writer.specs.ReadBack.{IsSizedBack};

    ghost written = { hex_data };

    ghost is_back = { IsSizedBack N };

    #[tactic(auto, using(crate::proofs::Values::sized_back))]
    fn to_json(&self, alloc: Global) -> Result<Value, Memory> {
        hex_value(alloc, self.as_slice())
    }
}

/// The bytes of a path, two to an id.
fn path_bytes(ids: &[u16]) -> ArrayVec<u8, 6>
    requires { length ids.now ≤ 3 }
    ensures { result.items ≡ flat_map two_bytes ids.now }
{
    let mut bytes = ArrayVec::new();
    for id in ids {
        bytes.push((*id / 256) as u8);
        bytes.push((*id % 256) as u8);
    }
    bytes
}

impl ToJson for Path {
    ghost use Rattle.script_writer.specs.Writing.{path_data};
    ghost use Rattle.script_writer.specs.ReadBack.{IsPathBack};

    ghost written = { path_data };

    ghost is_back = { IsPathBack };

    #[tactic(auto, using(crate::proofs::Values::path_back))]
    fn to_json(&self, alloc: Global) -> Result<Value, Memory> {
        hex_value(alloc, path_bytes(self.ids()).as_slice())
    }
}

/// The values of a list's items.
fn values_of<T: ToJson>(alloc: Global, items: &[T]) -> Result<Vec<Value>, Memory>
    ensures values { IfOk result (λ vs. map view vs.items ≡ map T.written items.now) }
    ensures back { IfOk result (λ _. All T.is_back items.now) }
{
    let mut values = Vec::new(alloc);
    for item in items {
        values.push(item.to_json(alloc)?)?;
    }
    Ok(values)
}

impl<T: ToJson> ToJson for Sequence<T> {
    ghost use Rattle.script_writer.specs.Writing.{list_data};
    ghost use Rattle.std.specs.Prelude.{All};

    ghost written = { list_data T.written };

    ghost is_back = { All T.is_back };

    fn to_json(&self, alloc: Global) -> Result<Value, Memory> {
        Ok(Value::from(values_of(alloc, self.as_slice())?))
    }
}

/// The fields of an object, in the byte order of their names.
#[derive(Drop)]
pub(crate) struct Fields {
    alloc: Global,
    map: Map<String, Value>,
}

impl Fields {
    pub(crate) fn new(alloc: Global) -> Fields
        ensures { members result ≡ no_members }
    {
        Fields {
            alloc,
            map: Map::new(alloc),
        }
    }

    /// Puts a value at a name.
    fn put_value(&mut self, name: &str, value: Value) -> Result<(), Memory>
        ensures { OnOk result (members self.new ≡ put name.now (view value) (members self.old)) }
    {
        serde_json::put(&mut self.map, self.alloc, name, value)?;
        Ok(())
    }

    pub(crate) fn put<T: ToJson>(&mut self, name: &str, value: &T) -> Result<(), Memory>
        ensures fields { OnOk result (members self.new
            ≡ put name.now (T.written value.now) (members self.old)) }
        ensures back { OnOk result (T.is_back value.now) }
    {
        let value = value.to_json(self.alloc)?;
        self.put_value(name, value)
    }

    pub(crate) fn put_text(&mut self, name: &str, text: &str) -> Result<(), Memory>
        ensures { OnOk result (members self.new
            ≡ put name.now (string text.now) (members self.old)) }
    {
        let value = text_value(self.alloc, text)?;
        self.put_value(name, value)
    }

    pub(crate) fn put_hex(&mut self, name: &str, bytes: &[u8]) -> Result<(), Memory>
        ensures fields { OnOk result (members self.new
            ≡ put name.now (spec.hex_data bytes.now) (members self.old)) }
        ensures bytes { IsBytes bytes.now }
    {
        let value = hex_value(self.alloc, bytes)?;
        self.put_value(name, value)
    }

    /// Puts a value, where there is one.
    pub(crate) fn put_some<T: ToJson>(
        &mut self,
        name: &str,
        value: &Option<T>,
    ) -> Result<(), Memory>
        ensures fields { OnOk result (members self.new
            ≡ spec.with_some name.now (option_map T.written value.now) (members self.old)) }
        ensures back { OnOk result (IfSome value.now T.is_back) }
    {
        match value {
            Some(value) => self.put(name, value),
            None => Ok(()),
        }
    }

    /// Puts a value, unless it is the default.
    pub(crate) fn put_unless<T: ToJson>(
        &mut self,
        is_default: bool,
        name: &str,
        value: &T,
    ) -> Result<(), Memory>
        ensures fields { OnOk result (members self.new
            ≡ spec.unless is_default name.now (T.written value.now) (members self.old)) }
        ensures back { is_default ≡ false → OnOk result (T.is_back value.now) }
    {
        if is_default {
            return Ok(());
        }
        self.put(name, value)
    }

    /// Puts a list, unless it is empty.
    pub(crate) fn put_list<T: ToJson>(
        &mut self,
        name: &str,
        list: &Sequence<T>,
    ) -> Result<(), Memory>
        ensures fields { OnOk result (members self.new
            ≡ spec.with_list name.now T.written list.now (members self.old)) }
        ensures back { OnOk result (All T.is_back list.now) }
    {
        if list.is_empty() {
            return Ok(());
        }
        self.put(name, list)
    }

    pub(crate) fn into_value(self) -> Value
        ensures value { view result ≡ object (members self) }
    {
        let Fields { map, .. } = self;
        Value::from(map)
    }
}
