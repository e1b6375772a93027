// The number of an entry.
ghost use Rattle.std.specs.Prelude.{◌≡◌, ◌==◌, IfOk, length, string_bytes, option_map};
ghost use Rattle.apdu.specs.Words.{is_empty};
ghost use Rattle.adn.specs.Book as phonebook;

use apdu::{Memory, Text};
use bcd::read_digits;
use fcp::{FileKind, Rows};
use std::alloc::Global;

/// The bytes of a row behind its name: the count of the bytes of the number, type and plan of the
/// number, ten bytes of digits, capability and configuration, and the number of an extension row.
pub const FOOTER_LEN: usize = 14;

/// The narrowest row of an extension file.
const EXTENSION_LEN: u16 = 13;

/// The number in the bytes behind a name.
pub fn number_of(alloc: Global, ext: &Rows, footer: &[u8]) -> Result<Text, Memory>
    requires { length footer.now ≡ 14 }
    ensures { IfOk result (λ number. number
        ≡ phonebook.number_of (phonebook.extension_rows ext.now) footer.now) }
{
    let own = read_digits(alloc, own_bytes(footer))?;
    if is_empty(&own) {
        return Ok(own);
    }
    let further = read_digits(alloc, further_bytes(ext, footer))?;
    signed_digits(
        alloc,
        is_international(footer),
        own.as_str(),
        further.as_str(),
    )
}

/// The sign of an international number, and the digits.
fn signed_digits(
    alloc: Global,
    international: bool,
    own: &str,
    further: &str,
) -> Result<Text, Memory>
    ensures { IfOk result (λ number. number
        ≡ phonebook.signed_digits international own.now further.now) }
{
    let mut number = String::new(alloc);
    number.push_str(if international { "+" } else { "" })?;
    number.push_str(own)?;
    number.push_str(further)?;
    Ok(Text::from_string(number))
}

pub fn is_empty(text: &Text) -> bool
    ensures { result ≡ is_empty text.now }
{
    text.as_str().is_empty()
}

/// The bytes of digits that stand in the row itself; the counts 00, 01 and FF leave none.
fn own_bytes(footer: &[u8]) -> &[u8]
    requires { length footer.now ≡ 14 }
    ensures { result.now ≡ phonebook.own_bytes footer.now }
{
    match footer[0] {
        count @ 2..=11 => &footer[2..usize::from(count) + 1],
        _ => &[],
    }
}

/// Whether the type of the number is international: its bits 7 to 5 are 001.
fn is_international(footer: &[u8]) -> bool
    requires { length footer.now ≡ 14 }
    ensures { result ≡ phonebook.is_international footer.now }
{
    footer[1] / 16 % 8 == 1
}

/// The bytes of digits in the extension row that the row names, if it names one.
fn further_bytes<'a>(ext: &'a Rows, footer: &[u8]) -> &'a [u8]
    requires { length footer.now ≡ 14 }
    ensures { result.now ≡ phonebook.further_bytes (phonebook.extension_rows ext.now) footer.now }
{
    match extension_row(ext, footer[13]) {
        Some(row) => additional_bytes(row),
        None => &[],
    }
}

/// The extension row of a number, counted from 1. A file that is not linear, or too narrow, has none.
fn extension_row(ext: &Rows, number: u8) -> Option<&[u8]>
    ensures { option_map (λ row. row.now) result
        ≡ phonebook.extension_row (phonebook.extension_rows ext.now) number }
{
    if ext.kind() != FileKind::Linear || ext.width() < EXTENSION_LEN {
        return None;
    }
    if number == 0 || number == 255 {
        return None;
    }
    ext.row(usize::from(number) - 1)
}

/// The bytes of digits of an extension row of type 02, additional data.
fn additional_bytes(row: &[u8]) -> &[u8]
    ensures { result.now ≡ phonebook.additional_bytes row.now }
{
    match row {
        [0x02, count @ 0..=10, digits @ ..] => &digits[..digits.len().min(usize::from(*count))],
        _ => &[],
    }
}
