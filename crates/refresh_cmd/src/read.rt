// Proactive commands from their bytes, ETSI TS 102 223 clauses 6.6.13 and 8.
ghost use Rattle.std.specs.Prelude.{◌≡◌, option_map};
ghost use Rattle.std.specs.Option.{option_copied};
ghost use Rattle.tlv.specs.Objects.{simple_parts};
ghost use Rattle.refresh_cmd.specs.Proactive as spec;

use crate::list::read_list;
use crate::{Proactive, ProactiveError};
use apdu::Path;
use arrayvec::ArrayVec;
use tlv::{BerReader, SimpleReader};

/// The proactive command that these bytes begin with. Nothing behind its object is read.
pub fn read_proactive(bytes: &[u8]) -> Result<Proactive, ProactiveError>
    ensures value { result ≡ spec.read_proactive bytes.now }
{
    let first = first_byte(bytes);
    if first != 0xD0 {
        return Err(ProactiveError::NotProactive(first));
    }
    let mut reader = BerReader::new(bytes);
    match reader.next() {
        Ok(Some((_, objects))) => read_objects(objects),
        Ok(None) => Err(ProactiveError::Missing(0x01)),
        Err(error) => Err(ProactiveError::Tlv(error)),
    }
}

fn first_byte(bytes: &[u8]) -> u8
    ensures { result ≡ spec.first_byte bytes.now }
{
    match bytes {
        [] => 0,
        [first, ..] => *first,
    }
}

fn read_objects(objects: &[u8]) -> Result<Proactive, ProactiveError>
    ensures { result ≡ spec.proactive_parts (simple_parts objects.now) }
{
    let details = SimpleReader::new(objects)
        .first_value(0x01)
        .map_err(ProactiveError::Tlv)?;
    let identities = SimpleReader::new(objects)
        .first_value(0x02)
        .map_err(ProactiveError::Tlv)?;
    let list = SimpleReader::new(objects)
        .first_value(0x12)
        .map_err(ProactiveError::Tlv)?;
    from_values(details, identities, list)
}

fn from_values(
    details: Option<&[u8]>,
    identities: Option<&[u8]>,
    list: Option<&[u8]>,
) -> Result<Proactive, ProactiveError>
    ensures { result
        ≡ spec.proactive_from (option_copied details.entry) (option_copied identities.entry)
        (spec.listed_paths (option_copied list.entry)) }
{
    let Some([number, kind, qualifier]) = details else {
        return Err(ProactiveError::Missing(0x01));
    };
    let Some([_, _]) = identities else {
        return Err(ProactiveError::Missing(0x02));
    };
    with_list(*number, *kind, *qualifier, list)
}

fn with_list(
    number: u8,
    kind: u8,
    qualifier: u8,
    list: Option<&[u8]>,
) -> Result<Proactive, ProactiveError>
    ensures { result
        ≡ spec.with_list number kind qualifier (spec.listed_paths (option_copied list.entry)) }
{
    let list = listed_paths(list).ok_or(ProactiveError::BadList)?;
    Ok(Proactive {
        number,
        kind,
        qualifier,
        list,
    })
}

fn listed_paths(list: Option<&[u8]>) -> Option<ArrayVec<Path, 64>>
    ensures { option_map (λ paths. paths.items) result
        ≡ spec.listed_paths (option_copied list.entry) }
{
    match list {
        None => Some(ArrayVec::new_in(())),
        Some(bytes) => read_list(bytes),
    }
}
