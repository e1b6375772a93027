// The bytes of the rows that a plan writes.
ghost use Rattle.std.specs.Prelude.{◌≡◌, ◌≤◌, IfOk, OnOk, length, replicate, if◌then◌else◌};
ghost use Rattle.apdu.specs.Words.{filled_to};
ghost use Rattle.families.specs.Plans as plans;

use apdu::{Bytes, Memory};
use std::alloc::Global;

const FILL: u8 = 0xFF;

/// The type of an extension row that holds the further digits of a number.
pub const ADDITIONAL_DATA: u8 = 0x02;

/// The type of an extension row that is free.
pub const FREE_EXTENSION: u8 = 0x00;

const INTERNATIONAL: u8 = 0x91;

const UNKNOWN: u8 = 0x81;

/// The bytes of a row behind its name.
pub const FOOTER_LEN: u16 = 14;

/// Those of them before the number of the extension row.
const NUMBER_LEN: usize = 13;

/// FF up to the length.
fn put_fill(bytes: &mut Vec<u8>, len: usize) -> Result<(), Memory>
    ensures { OnOk result (bytes.new.items ≡ filled_to 0xFF len bytes.old.items) }
{
    if bytes.len() < len {
        bytes.resize(len, FILL)?;
    }
    Ok(())
}

/// A row without an entry.
pub fn free_row(alloc: Global, width: u16) -> Result<Bytes, Memory>
    ensures { IfOk result (λ bytes. bytes ≡ replicate width 0xFF) }
{
    let mut bytes = Vec::new(alloc);
    put_fill(&mut bytes, usize::from(width))?;
    Ok(Bytes::from_vec(bytes))
}

/// An extension row that holds further digits.
pub fn extension_bytes(alloc: Global, width: u16, further: &[u8]) -> Result<Bytes, Memory>
    requires { length further.now ≤ 10 }
    ensures { IfOk result (λ bytes. bytes ≡ plans.extension_bytes width further.now) }
{
    let mut bytes = Vec::new(alloc);
    bytes.push(ADDITIONAL_DATA)?;
    bytes.push(further.len() as u8)?;
    bytes.extend_from_slice(further)?;
    put_fill(&mut bytes, usize::from(width))?;
    Ok(Bytes::from_vec(bytes))
}

/// An extension row that is free again.
pub fn released_bytes(alloc: Global, width: u16) -> Result<Bytes, Memory>
    ensures { IfOk result (λ bytes. bytes ≡ plans.released_bytes width) }
{
    let mut bytes = Vec::new(alloc);
    bytes.push(FREE_EXTENSION)?;
    put_fill(&mut bytes, usize::from(width))?;
    Ok(Bytes::from_vec(bytes))
}

fn type_of(international: bool) -> u8
    ensures { result ≡ (if international then 0x91 else 0x81) }
{
    if international {
        INTERNATIONAL
    } else {
        UNKNOWN
    }
}

/// What stands behind the name of an entry.
pub fn number_bytes(
    alloc: Global,
    international: bool,
    digits: &[u8],
    extension: u8,
) -> Result<Bytes, Memory>
    requires { length digits.now ≤ 10 }
    ensures { IfOk result (λ bytes. bytes
        ≡ plans.number_bytes international digits.now extension) }
{
    if digits.is_empty() {
        return free_row(alloc, FOOTER_LEN);
    }
    let mut bytes = Vec::new(alloc);
    bytes.push(digits.len() as u8 + 1)?;
    bytes.push(type_of(international))?;
    bytes.extend_from_slice(digits)?;
    put_fill(&mut bytes, NUMBER_LEN)?;
    bytes.push(extension)?;
    Ok(Bytes::from_vec(bytes))
}
