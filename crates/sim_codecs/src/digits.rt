// Digits of four bits, the low half of a byte first.
ghost use Rattle.std.specs.Prelude.{◌≡◌, ◌+◌, ◌<◌, ◌^◌, length, IfOk, string_bytes};
ghost use Rattle.sim_codecs.specs.Digits.{iccid_of, iccid_from, imsi_of, imsi_from, last_half, ends_at, onto};
ghost use Rattle.sim_codecs.specs.Reads.{ReadsAs};

use crate::FieldError;
use apdu::{Memory, Text};
use std::alloc::Global;

/// Reads the digits of a card's number in EF_ICCID, ETSI TS 102 221 clause 13.2.
pub fn iccid(alloc: Global, bytes: &[u8]) -> Result<Text, FieldError>
    ensures { ReadsAs (iccid_of bytes.now) result }
{
    if bytes.len() < 10 {
        return Err(FieldError::Malformed { at: bytes.len() });
    }
    iccid_digits(alloc, &bytes[..10])
}

fn iccid_digits(alloc: Global, bytes: &[u8]) -> Result<Text, FieldError>
    requires { length bytes.now < 2 ^ 64 }
    ensures { ReadsAs (iccid_from 0 bytes.now) result }
{
    let mut out = String::new(alloc);
    match put_iccid(&mut out, bytes, 0)? {
        None => Ok(Text::from_string(out)),
        Some(at) => Err(FieldError::Malformed { at }),
    }
}

/// Puts the digits at the end of the text, or answers the index of the first byte that has none.
fn put_iccid(out: &mut String, bytes: &[u8], at: usize) -> Result<Option<usize>, Memory>
    requires { at + length bytes.now < 2 ^ 64 }
    ensures { IfOk result (λ place. ends_at place (string_bytes out.new)
        ≡ onto (string_bytes out.old) (iccid_from at bytes.now)) }
{
    let [byte, rest @ ..] = bytes else {
        return Ok(None);
    };
    let low = byte % 16;
    let high = byte / 16;
    if low == 15 {
        return Ok(None);
    }
    if low > 9 {
        return Ok(Some(at));
    }
    out.push(char::from(b'0' + low))?;
    if high == 15 {
        return Ok(None);
    }
    if high > 9 {
        return Ok(Some(at));
    }
    out.push(char::from(b'0' + high))?;
    put_iccid(out, rest, at + 1)
}

/// Reads the digits of a subscriber's identity in EF_IMSI, 3GPP TS 31.102 clause 4.2.2.
pub fn imsi(alloc: Global, bytes: &[u8]) -> Result<Text, FieldError>
    ensures { ReadsAs (imsi_of bytes.now) result }
{
    let [count @ 1..=8, rest @ ..] = bytes else {
        return Err(FieldError::Malformed { at: 0 });
    };
    let [byte, rest @ ..] = rest else {
        return Err(FieldError::Malformed { at: 1 });
    };
    let parity = byte % 16;
    if parity != 1 && parity != 9 {
        return Err(FieldError::Malformed { at: 1 });
    }
    let others = usize::from(*count) - 1;
    if rest.len() < others {
        return Err(FieldError::Malformed { at: bytes.len() });
    }
    imsi_digits(alloc, parity == 1, *byte, &rest[..others])
}

fn imsi_digits(alloc: Global, even: bool, byte: u8, rest: &[u8]) -> Result<Text, FieldError>
    requires { length rest.now + 1 < 2 ^ 64 }
    ensures { ReadsAs (imsi_from even 1 byte rest.now) result }
{
    let mut out = String::new(alloc);
    match put_imsi(&mut out, even, byte, rest, 1)? {
        None => Ok(Text::from_string(out)),
        Some(at) => Err(FieldError::Malformed { at }),
    }
}

/// Puts the digits from the high half of this byte on at the end of the text, or answers the index of
/// the first half that has none. The byte stands at index `at`.
fn put_imsi(
    out: &mut String,
    even: bool,
    byte: u8,
    rest: &[u8],
    at: usize,
) -> Result<Option<usize>, Memory>
    requires { at + length rest.now < 2 ^ 64 }
    ensures { IfOk result (λ place. ends_at place (string_bytes out.new)
        ≡ onto (string_bytes out.old) (imsi_from even at byte rest.now)) }
{
    let high = byte / 16;
    let [next, rest @ ..] = rest else {
        return put_last(out, even, high, at);
    };
    if high > 9 {
        return Ok(Some(at));
    }
    let low = next % 16;
    out.push(char::from(b'0' + high))?;
    if low > 9 {
        return Ok(Some(at + 1));
    }
    out.push(char::from(b'0' + low))?;
    put_imsi(out, even, *next, rest, at + 1)
}

/// The last half, which is a digit or, behind an even count of digits, F.
fn put_last(out: &mut String, even: bool, half: u8, at: usize) -> Result<Option<usize>, Memory>
    requires { half < 16 }
    ensures { IfOk result (λ place. ends_at place (string_bytes out.new)
        ≡ onto (string_bytes out.old) (last_half even half at)) }
{
    if even {
        return Ok((half != 15).then_some(at));
    }
    if half > 9 {
        return Ok(Some(at));
    }
    out.push(char::from(b'0' + half))?;
    Ok(None)
}
