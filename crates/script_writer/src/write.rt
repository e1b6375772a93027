// Writing a script.
ghost use Rattle.std.specs.Prelude.{◌≡◌, true, IfOk, OnOk, Ok};
ghost use Rattle.script_reader.specs.Scripts.{script_of_bytes};
ghost use Rattle.script_reader.specs.Rules.{keeps_rules};
ghost use Rattle.script_writer.specs.Writing as spec;
ghost use Rattle.script_writer.specs.Objects.{members};
ghost use Rattle.script_writer.specs.ReadBack.{IsKindBack, AreFieldsBack, AreOwnBack};

use crate::to_json::{Fields, ToJson, hex_value};
use apdu::{Memory, Text};
use card_model::Fault;
use fcp::ArrRef;
use script_reader::{CardSpec, ChangeSpec, FileSpec, KeySpec, KindSpec, Operation, Script};
use serde_json::Value;
use std::alloc::Global;

/// The script as JSON without blanks: keys in byte order, hexadecimal in upper case, and each optional field at its
/// default left out.
#[tactic(auto, using(crate::proofs::Floats::script_whole))]
pub fn write_script(alloc: Global, script: &Script) -> Result<Text, Memory>
    ensures text { IfOk result (λ text. text ≡ spec.script_text script.now) }
    ensures read_back { IfOk result (λ text. keeps_rules script.now ≡ true
        → script_of_bytes text ≡ Ok script.now) }
{
    let value = script.to_json(alloc)?;
    Ok(Text::from_string(value.to_string(alloc)?))
}

impl ToJson for Script {
    ghost use Rattle.script_writer.specs.Writing.{script_data};
    ghost use Rattle.script_writer.specs.ReadBack.{IsScriptBack};

    ghost written = { script_data };

    ghost is_back = { IsScriptBack };

    #[tactic(auto, using(crate::proofs::Scripts::script_is_back), unfolding(crate::specs::Writing::script_data))]
    fn to_json(&self, alloc: Global) -> Result<Value, Memory> {
        let mut fields = Fields::new(alloc);
        fields.put("actors", &self.actors)?;
        fields.put_some("budget", &self.budget)?;
        fields.put("cards", &self.cards)?;
        fields.put_list("changes", &self.changes)?;
        fields.put_list("faults", &self.faults)?;
        fields.put_list("schedule", &self.schedule)?;
        fields.put("version", &self.version)?;
        Ok(fields.into_value())
    }
}

impl ToJson for CardSpec {
    ghost use Rattle.script_writer.specs.Writing.{card_data};
    ghost use Rattle.script_writer.specs.ReadBack.{IsCardBack};

    ghost written = { card_data };

    ghost is_back = { IsCardBack };

    #[tactic(auto, using(crate::proofs::Cards::card_is_back), unfolding(crate::specs::Writing::card_data))]
    fn to_json(&self, alloc: Global) -> Result<Value, Memory> {
        let mut fields = Fields::new(alloc);
        fields.put_list("aids", &self.aids)?;
        fields.put_unless(self.channels == 3, "channels", &self.channels)?;
        fields.put("files", &self.files)?;
        fields.put_unless(!self.get_response, "get_response", &self.get_response)?;
        fields.put_list("keys", &self.keys)?;
        Ok(fields.into_value())
    }
}

impl ToJson for KeySpec {
    ghost use Rattle.script_writer.specs.Writing.{key_data};
    ghost use Rattle.script_writer.specs.ReadBack.{IsKeyBack};

    ghost written = { key_data };

    ghost is_back = { IsKeyBack };

    #[tactic(auto, using(crate::proofs::Cards::key_back), unfolding(crate::specs::Writing::key_data))]
    fn to_json(&self, alloc: Global) -> Result<Value, Memory> {
        let mut fields = Fields::new(alloc);
        fields.put_hex("key", &[self.key])?;
        fields.put("max", &self.max)?;
        fields.put("pin", &self.pin)?;
        fields.put("tries", &self.tries)?;
        Ok(fields.into_value())
    }
}

impl ToJson for ArrRef {
    ghost use Rattle.script_writer.specs.Writing.{reference_data};
    ghost use Rattle.script_writer.specs.ReadBack.{IsReferenceBack};

    ghost written = { reference_data };

    ghost is_back = { IsReferenceBack };

    #[tactic(auto, using(crate::proofs::Values::reference_back))]
    fn to_json(&self, alloc: Global) -> Result<Value, Memory> {
        let id = self.file_id;
        hex_value(alloc, &[(id / 256) as u8, (id % 256) as u8, self.row])
    }
}

/// Puts what is the same for files of both kinds.
fn file_fields(alloc: Global, file: &FileSpec) -> Result<Fields, Memory>
    ensures value { IfOk result (λ fields. members fields ≡ spec.file_fields file.now) }
    ensures back { IfOk result (λ _. AreFieldsBack file.now) }
{
    let mut fields = Fields::new(alloc);
    fields.put_unless(file.active, "active", &file.active)?;
    fields.put_some("arr", &file.arr)?;
    fields.put_unless(!file.endless, "endless", &file.endless)?;
    fields.put_some("fcp", &file.fcp)?;
    fields.put("path", &file.path)?;
    Ok(fields)
}

/// Puts what a file holds.
fn put_kind(kind: &KindSpec, fields: &mut Fields) -> Result<(), Memory>
    ensures value { OnOk result (members fields.new
        ≡ spec.with_kind kind.now (members fields.old)) }
    ensures back { OnOk result (IsKindBack kind.now) }
{
    match kind {
        KindSpec::Transparent { bytes } => {
            fields.put("data", bytes)?;
            fields.put_text("kind", "transparent")
        }
        KindSpec::Linear { len, rows } => {
            fields.put_text("kind", "linear")?;
            fields.put("len", len)?;
            fields.put("records", rows)
        }
    }
}

impl ToJson for FileSpec {
    ghost use Rattle.script_writer.specs.Writing.{file_data};
    ghost use Rattle.script_writer.specs.ReadBack.{IsFileBack};

    ghost written = { file_data };

    ghost is_back = { IsFileBack };

    #[tactic(auto, using(crate::proofs::Cards::fields_back), unfolding(crate::specs::Writing::file_data))]
    fn to_json(&self, alloc: Global) -> Result<Value, Memory> {
        let mut fields = file_fields(alloc, self)?;
        put_kind(&self.kind, &mut fields)?;
        Ok(fields.into_value())
    }
}

impl ToJson for ChangeSpec {
    ghost use Rattle.script_writer.specs.Writing.{change_data};
    ghost use Rattle.script_writer.specs.ReadBack.{IsChangeBack};

    ghost written = { change_data };

    ghost is_back = { IsChangeBack };

    #[tactic(auto, using(crate::proofs::Cards::change_is_back), unfolding(crate::specs::Writing::change_data))]
    fn to_json(&self, alloc: Global) -> Result<Value, Memory> {
        let mut fields = Fields::new(alloc);
        fields.put_list("files", &self.files)?;
        fields.put_list("list", &self.list)?;
        fields.put("qualifier", &self.qualifier)?;
        fields.put_unless(self.kind == 1, "type", &self.kind)?;
        Ok(fields.into_value())
    }
}

impl ToJson for Fault {
    ghost use Rattle.script_writer.specs.Writing.{fault_data};
    ghost use Rattle.script_writer.specs.ReadBack.{IsFaultBack};

    ghost written = { fault_data };

    ghost is_back = { IsFaultBack };

    #[tactic(auto, using(crate::proofs::Cards::fault_back), unfolding(crate::specs::Writing::fault_data))]
    fn to_json(&self, alloc: Global) -> Result<Value, Memory> {
        let mut fields = Fields::new(alloc);
        fields.put("acted", &self.acted)?;
        fields.put("at", &self.at)?;
        Ok(fields.into_value())
    }
}

/// The name of a family of files.
fn family_name(family: u8) -> &'static str
    ensures { result.now ≡ spec.family_name family }
{
    match family {
        0 => "records",
        1 => "phonebook",
        _ => "fixed",
    }
}

fn operation_name(operation: &Operation) -> &'static str
    ensures { result.now ≡ spec.operation_name operation.now }
{
    match operation {
        Operation::Insert { .. } => "in",
        Operation::Out => "out",
        Operation::Arm { .. } => "arm",
        Operation::Load { .. } => "load",
        Operation::Set { .. } => "set",
        Operation::Clear { .. } => "clear",
        Operation::OpenChannel { .. } => "open",
        Operation::Raw { .. } => "raw",
        Operation::Close { .. } => "close",
        Operation::Verify { .. } => "verify",
        Operation::End { .. } => "end",
        Operation::Poll => "poll",
        Operation::Look => "look",
        Operation::Watch { .. } => "watch",
        Operation::Notices => "notices",
    }
}

/// Puts the fields of an operation's own.
fn put_own(operation: &Operation, fields: &mut Fields) -> Result<(), Memory>
    ensures value { OnOk result (members fields.new
        ≡ spec.with_operation operation.now (members fields.old)) }
    ensures back { OnOk result (AreOwnBack operation.now) }
{
    match operation {
        Operation::Insert { card } => fields.put("card", card),
        Operation::Arm { change } => fields.put("change", change),
        Operation::Load { family } => fields.put_text("family", family_name(*family)),
        Operation::Set {
            family,
            at,
            name,
            number,
        } => {
            fields.put_some("at", at)?;
            fields.put_text("family", family_name(*family))?;
            fields.put("name", name)?;
            fields.put("number", number)
        }
        Operation::Clear { family, at } => {
            fields.put("at", at)?;
            fields.put_text("family", family_name(*family))
        }
        Operation::OpenChannel { handle, aid } => {
            fields.put("aid", aid)?;
            fields.put("ref", handle)
        }
        Operation::Raw { handle, apdu } => {
            fields.put_hex("apdu", apdu.write().as_slice())?;
            fields.put("ref", handle)
        }
        Operation::Close { handle } => fields.put("ref", handle),
        Operation::Verify { key, pin } => {
            fields.put_hex("key", &[*key])?;
            fields.put("pin", pin)
        }
        Operation::End { key } => fields.put_hex("key", &[*key]),
        Operation::Watch { mask } => fields.put("mask", mask),
        Operation::Out | Operation::Poll | Operation::Look | Operation::Notices => Ok(()),
    }
}

impl ToJson for Operation {
    ghost use Rattle.script_writer.specs.Writing.{operation_data};
    ghost use Rattle.script_writer.specs.ReadBack.{IsOperationBack};

    ghost written = { operation_data };

    ghost is_back = { IsOperationBack };

    #[tactic(auto, using(crate::proofs::Operations::operation_is_back), unfolding(crate::specs::Writing::operation_data))]
    fn to_json(&self, alloc: Global) -> Result<Value, Memory> {
        let mut fields = Fields::new(alloc);
        fields.put_text("op", operation_name(self))?;
        put_own(self, &mut fields)?;
        Ok(fields.into_value())
    }
}
