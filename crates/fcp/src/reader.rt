// Control parameters read from a card's answer.
ghost use Rattle.std.specs.Prelude.{◌≡◌, IfOk};
ghost use Rattle.std.specs.Option.{option_copied};
ghost use Rattle.tlv.specs.Objects.{ber_parts};
ghost use Rattle.fcp.specs.Control.{read_fcp, Describes, fcp_of_template, fcp_of_objects, fields_of, kind_of, shape_of, rows_shape, id_of, active_of, number_of, size_of, reference_of, missing_of};

use crate::objects::FoundObjects;
use crate::{ArrRef, Fcp, FcpError, FileKind};
use tlv::BerReader;

/// Reads a template of control parameters. What stands behind it is not read.
#[tactic(auto, unfolding(crate::specs::Control::read_fcp))]
pub fn read_fcp(bytes: &[u8]) -> Result<Fcp, FcpError>
    ensures value { result ≡ read_fcp bytes.now }
    ensures described { IfOk result (λ fcp. Describes fcp.kind fcp) }
{
    match BerReader::new(bytes).next() {
        Ok(Some((0x62, template))) => read_template(template),
        Ok(_) => Err(FcpError::Missing(0x62)),
        Err(error) => Err(FcpError::Tlv(error)),
    }
}

fn read_template(template: &[u8]) -> Result<Fcp, FcpError>
    ensures { result ≡ fcp_of_template (ber_parts template.now) }
{
    let objects = FoundObjects::of(template).map_err(FcpError::Tlv)?;
    fcp_of_objects(&objects)
}

fn fcp_of_objects(objects: &FoundObjects) -> Result<Fcp, FcpError>
    ensures { result ≡ fcp_of_objects objects.now }
{
    let descriptor = objects.descriptor.ok_or(FcpError::Missing(0x82))?;
    let kind = kind_of(descriptor).ok_or(FcpError::Bad { tag: 0x82 })?;
    if let Some(tag) = missing_of(kind, objects) {
        return Err(FcpError::Missing(tag));
    }
    fields_of(kind, descriptor, objects)
}

/// The kind of the file, by the first byte of its descriptor.
fn kind_of(descriptor: &[u8]) -> Option<FileKind>
    ensures { result ≡ kind_of descriptor.now }
{
    let first = descriptor.first()?;
    match *first % 64 {
        0x01 => Some(FileKind::Transparent),
        0x02 => Some(FileKind::Linear),
        0x38 => Some(FileKind::Directory),
        _ => None,
    }
}

/// The tag of an object that has to be there and is not.
fn missing_of(kind: FileKind, objects: &FoundObjects) -> Option<u8>
    ensures { result ≡ missing_of kind objects.now }
{
    if kind != FileKind::Directory && objects.file_id.is_none() {
        Some(0x83)
    } else if kind == FileKind::Transparent && objects.size.is_none() {
        Some(0x80)
    } else {
        None
    }
}

/// The fields, of which the first that is bad is told.
fn fields_of(kind: FileKind, descriptor: &[u8], objects: &FoundObjects) -> Result<Fcp, FcpError>
    ensures { result ≡ fields_of kind descriptor.now objects.now }
{
    let (width, count) = shape_of(kind, descriptor).ok_or(FcpError::Bad { tag: 0x82 })?;
    let file_id = id_of(objects.file_id).ok_or(FcpError::Bad { tag: 0x83 })?;
    let active = active_of(objects.life_cycle).ok_or(FcpError::Bad { tag: 0x8A })?;
    let size = size_of(kind, objects.size).ok_or(FcpError::Bad { tag: 0x80 })?;
    Ok(Fcp {
        kind,
        size,
        file_id,
        width,
        count,
        active,
        arr: reference_of(objects.reference),
    })
}

/// Width and count of the rows; both are 0 where the file is not linear.
fn shape_of(kind: FileKind, descriptor: &[u8]) -> Option<(u16, u8)>
    ensures { result ≡ shape_of kind descriptor.now }
{
    if kind == FileKind::Linear {
        if descriptor.len() < 5 {
            return None;
        }
        let width = u16::from(descriptor[2]) * 256 + u16::from(descriptor[3]);
        return (1..=255).contains(&width).then_some((width, descriptor[4]));
    }
    (descriptor.len() >= 2).then_some((0, 0))
}

/// An id of two bytes, where there is one.
fn id_of(bytes: Option<&[u8]>) -> Option<Option<u16>>
    ensures { result ≡ id_of (option_copied bytes.entry) }
{
    match bytes {
        None => Some(None),
        Some([high, low]) => Some(Some(u16::from(*high) * 256 + u16::from(*low))),
        Some(_) => None,
    }
}

/// Whether the file is activated, by the byte of its life cycle status, where there is one.
fn active_of(bytes: Option<&[u8]>) -> Option<bool>
    ensures { result ≡ active_of (option_copied bytes.entry) }
{
    match bytes {
        None => Some(true),
        Some([5 | 7]) => Some(true),
        Some([4 | 6]) => Some(false),
        Some(_) => None,
    }
}

/// The size, where one is told of a file.
fn size_of(kind: FileKind, bytes: Option<&[u8]>) -> Option<u16>
    ensures { result ≡ size_of kind (option_copied bytes.entry) }
{
    let limit: u16 = match kind {
        FileKind::Transparent => 32767,
        FileKind::Linear => 65535,
        FileKind::Directory => return Some(0),
    };
    let Some(bytes) = bytes else {
        return Some(0);
    };
    let number = number_of(bytes)?;
    if number > u32::from(limit) {
        return None;
    }
    Some(number as u16)
}

/// The number that one to four bytes write, most significant first.
fn number_of(bytes: &[u8]) -> Option<u32>
    ensures { result ≡ number_of bytes.now }
{
    match *bytes {
        [a] => Some(u32::from(a)),
        [a, b] => Some(u32::from(a) * 0x100 + u32::from(b)),
        [a, b, c] => Some(u32::from(a) * 0x1_0000 + u32::from(b) * 0x100 + u32::from(c)),
        [a, b, c, d] => Some(
            u32::from(a) * 0x100_0000
                + u32::from(b) * 0x1_0000
                + u32::from(c) * 0x100
                + u32::from(d),
        ),
        _ => None,
    }
}

/// The reference to EF_ARR, where the value has three bytes.
fn reference_of(bytes: Option<&[u8]>) -> Option<ArrRef>
    ensures { result ≡ reference_of (option_copied bytes.entry) }
{
    match bytes {
        Some([high, low, row]) => Some(ArrRef {
            file_id: u16::from(*high) * 256 + u16::from(*low),
            row: *row,
        }),
        _ => None,
    }
}
