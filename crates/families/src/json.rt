// The JSON of what is shown.
ghost use Rattle.std.specs.Prelude.{◌≡◌, map, IfOk, OnOk};
ghost use Rattle.serde_json.specs.Data.{put as with_member};
ghost use Rattle.serde_json.specs.View.{view, members_view};

use crate::{Field, Records, StandardContent};
use adn::{AdnEntry, BookRow};
use apdu::{Memory, Sequence, Text};
use serde_json::{Map, Value, json};
use sim_codecs::{Ad, AppRow, Spn};
use std::alloc::Global;

/// What is shown as a JSON value.
pub(crate) trait ToJson {
    ghost use Rattle.serde_json.specs.Data.{Data};

    /// The value.
    ghost written: { Self → Data };

    fn to_json(&self, alloc: Global) -> Result<Value, Memory>
        ensures { IfOk result (λ v. view v ≡ written self.now) };
}

impl ToJson for Text {
    ghost use Rattle.serde_json.specs.Data.{string};

    ghost written = { string };

    fn to_json(&self, alloc: Global) -> Result<Value, Memory> {
        Ok(Value::try_from_str(alloc, self.as_str())?)
    }
}

impl ToJson for Ad {
    ghost use Rattle.families.specs.Families.{ad_data};

    ghost written = { ad_data };

    fn to_json(&self, alloc: Global) -> Result<Value, Memory> {
        Ok(json!(in alloc; {"mnc": self.mnc, "mode": self.mode})?)
    }
}

impl ToJson for Spn {
    ghost use Rattle.families.specs.Families.{spn_data};

    ghost written = { spn_data };

    fn to_json(&self, alloc: Global) -> Result<Value, Memory> {
        Ok(json!(in alloc; {"name": self.name.as_str(), "show": self.show})?)
    }
}

impl ToJson for AppRow {
    ghost use Rattle.std.specs.Prelude.{Some};
    ghost use Rattle.families.specs.Families.{application_data};

    ghost written = { λ row. application_data (Some row) };

    fn to_json(&self, alloc: Global) -> Result<Value, Memory> {
        let aid = hex::encode_upper(alloc, self.aid.as_slice())?;
        let label = hex::encode_upper(alloc, self.label.as_slice())?;
        Ok(json!(in alloc; {"aid": aid, "label": label})?)
    }
}

impl<T: ToJson> ToJson for Field<T> {
    ghost use Rattle.families.specs.Contents.{field_json};

    ghost written = { field_json T.written };

    fn to_json(&self, alloc: Global) -> Result<Value, Memory> {
        match self {
            Field::Absent => Ok(Value::Null),
            Field::Present(value) => value.to_json(alloc),
            Field::Malformed { at } => Ok(json!(in alloc; {"bad": *at})?),
        }
    }
}

impl ToJson for AdnEntry {
    ghost use Rattle.adn.specs.declared.entry.BookRow.TheVariants.{Entry};
    ghost use Rattle.families.specs.Families.{entry_data};

    ghost written = { λ e. entry_data (Entry e) };

    fn to_json(&self, alloc: Global) -> Result<Value, Memory> {
        Ok(json!(in alloc; {"name": self.name.as_str(), "number": self.number.as_str()})?)
    }
}

impl ToJson for BookRow {
    ghost use Rattle.families.specs.Families.{entry_data};

    ghost written = { entry_data };

    fn to_json(&self, alloc: Global) -> Result<Value, Memory> {
        match self {
            BookRow::Free => Ok(Value::Null),
            BookRow::Entry(entry) => entry.to_json(alloc),
            BookRow::Unreadable => Ok(json!(in alloc; {"bad": true})?),
        }
    }
}

/// The values of a list's items.
fn values_of<T: ToJson>(alloc: Global, items: &[T]) -> Result<Vec<Value>, Memory>
    ensures { IfOk result (λ values. map view values.items ≡ map T.written items.now) }
{
    let mut values = Vec::new(alloc);
    for item in items {
        values.push(item.to_json(alloc)?)?;
    }
    Ok(values)
}

impl<T: ToJson> ToJson for Sequence<T> {
    ghost use Rattle.families.specs.Contents.{list_json};

    ghost written = { list_json T.written };

    #[tactic(auto, using(crate::proofs::Items::same_items))]
    fn to_json(&self, alloc: Global) -> Result<Value, Memory> {
        Ok(Value::from(values_of(alloc, self.as_slice())?))
    }
}

/// Puts what is shown of a part at its name.
fn put<T: ToJson>(
    alloc: Global,
    object: &mut Map<String, Value>,
    name: &str,
    part: &T,
) -> Result<(), Memory>
    ensures { OnOk result (members_view object.new.entries
        ≡ with_member name.now (T.written part.now) (members_view object.old.entries)) }
{
    let value = part.to_json(alloc)?;
    serde_json::put(object, alloc, name, value)?;
    Ok(())
}

impl ToJson for Records {
    ghost use Rattle.families.specs.Contents.{records_json};

    ghost written = { records_json };

    fn to_json(&self, alloc: Global) -> Result<Value, Memory> {
        let mut object = Map::new(alloc);
        put(alloc, &mut object, "ad", &self.ad)?;
        put(alloc, &mut object, "apps", &self.applications)?;
        put(alloc, &mut object, "iccid", &self.iccid)?;
        put(alloc, &mut object, "imsi", &self.imsi)?;
        put(alloc, &mut object, "msisdn", &self.msisdn)?;
        put(alloc, &mut object, "spn", &self.spn)?;
        Ok(Value::from(object))
    }
}

impl ToJson for StandardContent {
    ghost use Rattle.families.specs.Contents.{content_json};

    ghost written = { content_json };

    fn to_json(&self, alloc: Global) -> Result<Value, Memory> {
        match self {
            StandardContent::Records(records) => records.to_json(alloc),
            StandardContent::Book(book) => {
                let entries = book.to_json(alloc)?;
                Ok(json!(in alloc; {"entries": entries})?)
            }
        }
    }
}
