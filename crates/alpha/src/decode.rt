// Reading a name.
ghost use Rattle.std.specs.Prelude.{◌≡◌, ◌++◌, ◌<◌, ◌==◌, Some, None, false, take, length, position, encode_utf8_all, string_bytes, IfOk, OnOk, IfSome, ◌^◌};
ghost use Rattle.std.specs.List.{before_first};
ghost use Rattle.alpha.specs.Names.{decode_name, unit_character, high_character, byte_characters, alphabet_characters, unit_characters, narrow_characters, wide_characters, default_characters, name_characters};

use crate::tables::{ESCAPE, default_character, escaped_character};
use apdu::{Memory, Text};
use std::alloc::Global;

const REPLACEMENT: char = '\u{FFFD}';

/// The name in the bytes. A value that is no character reads as U+FFFD.
pub fn decode_alpha(alloc: Global, bytes: &[u8]) -> Result<Text, Memory>
    ensures { IfOk result (λ name. name ≡ decode_name bytes.now) }
{
    let mut name = String::new(alloc);
    put_name(&mut name, bytes)?;
    Ok(Text::from_string(name))
}

fn put_name(name: &mut String, bytes: &[u8]) -> Result<(), Memory>
    ensures { OnOk result (string_bytes name.new
        ≡ string_bytes name.old ++ encode_utf8_all (name_characters bytes.now)) }
{
    let [form, rest @ ..] = bytes else {
        return Ok(());
    };
    match *form {
        0x80 => put_units(name, rest),
        0x81 => put_narrow(name, rest),
        0x82 => put_wide(name, rest),
        _ => put_default(name, bytes),
    }
}

/// Units of two bytes up to the unit FFFF or the last whole pair.
fn put_units(name: &mut String, bytes: &[u8]) -> Result<(), Memory>
    ensures { OnOk result (string_bytes name.new
        ≡ string_bytes name.old ++ encode_utf8_all (unit_characters bytes.now)) }
{
    let mut rest = bytes;
    while let [high, low, others @ ..] = rest {
        let unit = u32::from(*high) * 256 + u32::from(*low);
        if unit == 0xFFFF {
            return Ok(());
        }
        name.push(unit_character(unit))?;
        rest = others;
    }
    Ok(())
}

/// A count, bits 15 to 8 of the base, and that many bytes.
fn put_narrow(name: &mut String, bytes: &[u8]) -> Result<(), Memory>
    ensures { OnOk result (string_bytes name.new
        ≡ string_bytes name.old ++ encode_utf8_all (narrow_characters bytes.now)) }
{
    let [count, base, rest @ ..] = bytes else {
        return Ok(());
    };
    put_alphabet(
        name,
        Some(u32::from(*base) * 0x80),
        first_bytes(rest, *count),
    )
}

/// A count, the base in two bytes, and that many bytes.
fn put_wide(name: &mut String, bytes: &[u8]) -> Result<(), Memory>
    ensures { OnOk result (string_bytes name.new
        ≡ string_bytes name.old ++ encode_utf8_all (wide_characters bytes.now)) }
{
    let [count, high, low, rest @ ..] = bytes else {
        return Ok(());
    };
    let base = u32::from(*high) * 256 + u32::from(*low);
    put_alphabet(name, Some(base), first_bytes(rest, *count))
}

/// The bytes before the first FF, in the default alphabet.
fn put_default(name: &mut String, bytes: &[u8]) -> Result<(), Memory>
    ensures { OnOk result (string_bytes name.new
        ≡ string_bytes name.old ++ encode_utf8_all (default_characters bytes.now)) }
{
    put_alphabet(name, None, before_fill(bytes))
}

/// So many bytes, or as many as there are.
fn first_bytes(bytes: &[u8], count: u8) -> &[u8]
    ensures { result.now ≡ take count bytes.now }
{
    &bytes[..bytes.len().min(usize::from(count))]
}

/// The bytes before the first FF.
#[tactic(auto, using(crate::proofs::Fill::before_first_at))]
fn before_fill(bytes: &[u8]) -> &[u8]
    ensures { result.now ≡ before_first (λ b. b == 0xFF) bytes.now }
{
    match fill_at(bytes) {
        Some(end) => &bytes[..end],
        None => bytes,
    }
}

/// The place of the first FF.
fn fill_at(bytes: &[u8]) -> Option<usize>
    ensures place { result ≡ position (λ b. b == 0xFF) bytes.now }
    ensures within { IfSome result (λ place. place < length bytes.now) }
{
    bytes.iter().position(|byte| *byte == 0xFF)
}

/// Bytes in the default alphabet, those with bit 8 past the base.
fn put_alphabet(name: &mut String, base: Option<u32>, bytes: &[u8]) -> Result<(), Memory>
    requires { IfSome base (λ base. base < 2 ^ 16) }
    ensures { OnOk result (string_bytes name.new
        ≡ string_bytes name.old ++ encode_utf8_all (alphabet_characters base false bytes.now)) }
{
    let mut after_escape = false;
    for byte in bytes {
        put_byte(name, base, after_escape, *byte)?;
        after_escape = !after_escape && *byte == ESCAPE;
    }
    if after_escape {
        name.push(' ')?;
    }
    Ok(())
}

/// What one byte reads as, behind an escape or not.
fn put_byte(name: &mut String, base: Option<u32>, escaped: bool, byte: u8) -> Result<(), Memory>
    requires { IfSome base (λ base. base < 2 ^ 16) }
    ensures { OnOk result (string_bytes name.new
        ≡ string_bytes name.old ++ encode_utf8_all (byte_characters base escaped byte)) }
{
    if byte >= 0x80 {
        if escaped {
            name.push(' ')?;
        }
        name.push(high_character(base, byte))?;
    } else if escaped {
        name.push(escaped_character(byte))?;
    } else if byte != ESCAPE {
        name.push(default_character(byte))?;
    }
    Ok(())
}

/// The character of a byte with bit 8.
fn high_character(base: Option<u32>, byte: u8) -> char
    requires { IfSome base (λ base. base < 2 ^ 16) }
    ensures { result ≡ high_character base byte }
{
    match base {
        Some(base) => unit_character(base + u32::from(byte % 0x80)),
        None => REPLACEMENT,
    }
}

/// The character of a value, unless it is a surrogate or past FFFF.
fn unit_character(value: u32) -> char
    ensures { result ≡ unit_character value }
{
    if value > 0xFFFF {
        return REPLACEMENT;
    }
    char::from_u32(value).unwrap_or(REPLACEMENT)
}
