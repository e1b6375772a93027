// Reading what the files of a family hold.
ghost use Rattle.std.specs.Prelude.{◌≡◌, option_map, IfOk, Result, ℕ};
ghost use Rattle.fcp.specs.Content.{missing};
ghost use Rattle.sim_codecs.specs.Digits as digits;
ghost use Rattle.sim_codecs.specs.Fields as fields;
ghost use Rattle.sim_codecs.specs.Reads.{ReadsAs};
ghost use Rattle.adn.specs.Book as phonebook;
ghost use Rattle.families.specs.Contents as spec;

use crate::{Field, Records};
use adn::{Book, decode_book};
use apdu::{Memory, Path, Sequence, Text};
use fcp::{FileKind, FileView, Rows};
use sim_codecs::{Ad, AppRow, FieldError, Spn, ad, dir_row, iccid, imsi, spn};
use std::alloc::Global;

/// The bytes of a transparent file. A file of another kind has none.
fn bytes_of(file: &Rows) -> Option<&[u8]>
    ensures { option_map (λ bytes. bytes.now) result ≡ spec.bytes_of file.now }
{
    if file.kind() != FileKind::Transparent {
        return None;
    }
    Some(file.row(0).unwrap_or(&[]))
}

/// What a reader answered, want of memory apart.
fn field<T>(answer: Result<T, FieldError>) -> Result<Field<T>, Memory>
    ensures { (read : Result T ℕ) → ReadsAs read answer
        → IfOk result (λ field. field ≡ spec.field_read read) }
{
    match answer {
        Ok(value) => Ok(Field::Present(value)),
        Err(FieldError::Malformed { at }) => Ok(Field::Malformed { at }),
        Err(FieldError::Memory) => Err(Memory),
    }
}

pub(crate) fn iccid_field(alloc: Global, file: &Rows) -> Result<Field<Text>, Memory>
    ensures { IfOk result (λ field. field ≡ spec.field_of digits.iccid_of file.now) }
{
    match bytes_of(file) {
        Some(bytes) => field(iccid(alloc, bytes)),
        None => Ok(Field::Absent),
    }
}

pub(crate) fn imsi_field(alloc: Global, file: &Rows) -> Result<Field<Text>, Memory>
    ensures { IfOk result (λ field. field ≡ spec.field_of digits.imsi_of file.now) }
{
    match bytes_of(file) {
        Some(bytes) => field(imsi(alloc, bytes)),
        None => Ok(Field::Absent),
    }
}

pub(crate) fn ad_field(file: &Rows) -> Result<Field<Ad>, Memory>
    ensures { IfOk result (λ field. field ≡ spec.field_of fields.ad_of file.now) }
{
    match bytes_of(file) {
        Some(bytes) => field(ad(bytes)),
        None => Ok(Field::Absent),
    }
}

pub(crate) fn spn_field(alloc: Global, file: &Rows) -> Result<Field<Spn>, Memory>
    ensures { IfOk result (λ field. field ≡ spec.field_of fields.spn_of file.now) }
{
    match bytes_of(file) {
        Some(bytes) => field(spn(alloc, bytes)),
        None => Ok(Field::Absent),
    }
}

/// A row of EF_DIR.
fn application(alloc: Global, row: &[u8]) -> Result<Field<AppRow>, Memory>
    ensures { IfOk result (λ field. field ≡ spec.application_of row.now) }
{
    match dir_row(alloc, row) {
        Ok(Some(row)) => Ok(Field::Present(row)),
        Ok(None) => Ok(Field::Absent),
        Err(FieldError::Malformed { at }) => Ok(Field::Malformed { at }),
        Err(FieldError::Memory) => Err(Memory),
    }
}

/// The rows of EF_DIR, of which a file that is not linear has none.
pub(crate) fn applications(alloc: Global, dir: &Rows) -> Result<Sequence<Field<AppRow>>, Memory>
    ensures { IfOk result (λ rows. rows ≡ spec.applications_of dir.now) }
{
    let mut rows = Sequence::new(alloc);
    if dir.kind() != FileKind::Linear {
        return Ok(rows);
    }
    while let Some(row) = dir.row(rows.len()) {
        rows.push(application(alloc, row)?)?;
    }
    Ok(rows)
}
