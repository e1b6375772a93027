// The applications of a card.
ghost use Rattle.tlv.specs.Objects.{ber_parts};
ghost use Rattle.sim_codecs.specs.Applications.{dir_row_of, template_row, row_of};
ghost use Rattle.sim_codecs.specs.Reads.{ReadsAs};

use crate::{AppRow, FieldError};
use apdu::Bytes;
use std::alloc::Global;
use tlv::BerReader;

/// Reads a row of EF_DIR, ETSI TS 102 221 clause 13.1. An empty row, and one that is filled, has no
/// application. What stands behind the template is not read.
pub fn dir_row(alloc: Global, bytes: &[u8]) -> Result<Option<AppRow>, FieldError>
    ensures { ReadsAs (dir_row_of bytes.now) result }
{
    let [first, ..] = bytes else {
        return Ok(None);
    };
    if *first == 0x00 || *first == 0xFF {
        return Ok(None);
    }
    match BerReader::new(bytes).next() {
        Ok(Some((0x61, template))) => template_row(alloc, template),
        _ => Err(FieldError::Malformed { at: 0 }),
    }
}

/// The application of a template, which is read to its end.
fn template_row(alloc: Global, template: &[u8]) -> Result<Option<AppRow>, FieldError>
    ensures { ReadsAs (template_row (ber_parts template.now)) result }
{
    let malformed = FieldError::Malformed { at: 0 };
    let aid = BerReader::new(template)
        .first_value(0x4F)
        .map_err(|_| malformed)?;
    let label = BerReader::new(template)
        .first_value(0x50)
        .map_err(|_| malformed)?;
    row_of(alloc, aid.ok_or(malformed)?, label.unwrap_or(&[]))
}

/// The row of an identifier, which has 1 to 16 bytes, and a label.
fn row_of(alloc: Global, aid: &[u8], label: &[u8]) -> Result<Option<AppRow>, FieldError>
    ensures { ReadsAs (row_of aid.now label.now) result }
{
    if aid.is_empty() || aid.len() > 16 {
        return Err(FieldError::Malformed { at: 0 });
    }
    Ok(Some(AppRow {
        aid: Bytes::from_slice(alloc, aid)?,
        label: Bytes::from_slice(alloc, label)?,
    }))
}
