// The words of a line, and the numbers and bytes that they write. Each has one spelling.
ghost use Rattle.std.specs.Prelude.{◌≡◌, ◌≤◌, length, IfOk};
ghost use Rattle.apdu.specs.Words.{same_bytes};
ghost use Rattle.report_reader.specs.Reads.{ReadsAs, all_of, texts};
ghost use Rattle.report_reader.specs.Words as spec;

use crate::error::{LineError, check};
use apdu::{Bytes, Command, Memory, Response, Sequence};
use hex::FromHexError;
use std::alloc::Global;

/// The parts of the bytes before, between and behind the bytes of this value.
pub(crate) fn parts_of(alloc: Global, at: u8, bytes: &[u8]) -> Result<Vec<&[u8]>, Memory>
    ensures { IfOk result (λ parts. texts parts.items ≡ spec.parts_of at bytes.now) }
{
    Ok(bytes.split(|b| *b == at).collect(alloc)?)
}

pub(crate) fn is_word(word: &[u8], name: &str) -> bool
    ensures { result ≡ same_bytes word.now name.now }
{
    word == name.as_bytes()
}

/// How many bytes stand before the first space, or in all.
fn first_len(line: &[u8]) -> usize
    ensures value { result ≡ spec.first_len line.now }
    ensures within { result ≤ length line.now }
{
    for (index, byte) in line.iter().enumerate() {
        if *byte == b' ' {
            return index;
        }
    }
    line.len()
}

/// What stands before the first space, or all.
pub(crate) fn first_word(line: &[u8]) -> &[u8]
    ensures { result.now ≡ spec.first_word line.now }
{
    &line[..first_len(line)]
}

/// What stands behind the first space.
pub(crate) fn behind_word(line: &[u8]) -> &[u8]
    ensures { result.now ≡ spec.behind_word line.now }
{
    let end = first_len(line);
    if end < line.len() {
        &line[end + 1..]
    } else {
        &[]
    }
}

/// The value of a digit, where hexadecimal ones are in upper case.
fn digit_of(byte: u8) -> Result<u8, LineError>
    ensures { ReadsAs (spec.digit_of byte) result }
{
    match byte {
        b'0'..=b'9' => Ok(byte - b'0'),
        b'A'..=b'F' => Ok(byte - b'A' + 10),
        _ => Err(LineError::NoPlace),
    }
}

/// The number with one digit more.
fn with_digit(base: u64, limit: u64, number: u64, byte: u8) -> Result<u64, LineError>
    requires base { 1 ≤ base }
    requires few { base ≤ 16 }
    ensures value { ReadsAs (spec.with_digit base limit number byte) result }
    ensures within { IfOk result (λ n. n ≤ limit) }
{
    let digit = u64::from(digit_of(byte)?);
    check(digit <= base - 1)?;
    let more = u128::from(number) * u128::from(base) + u128::from(digit);
    check(more <= u128::from(limit))?;
    Ok(more as u64)
}

/// Whether a zero stands before other digits.
fn has_leading_zero(word: &[u8]) -> bool
    ensures { result ≡ spec.has_leading_zero word.now }
{
    match word {
        [first, _, ..] => *first == b'0',
        _ => false,
    }
}

/// The number that the digits of this base write, if it is at most the limit.
fn number_in(base: u64, limit: u64, word: &[u8]) -> Result<u64, LineError>
    requires base { 1 ≤ base }
    requires few { base ≤ 16 }
    ensures value { ReadsAs (spec.number_in base limit word.now) result }
    ensures within { IfOk result (λ n. n ≤ limit) }
{
    if word.is_empty() || has_leading_zero(word) {
        return Err(LineError::NoPlace);
    }
    let mut number = 0;
    for byte in word {
        number = with_digit(base, limit, number, *byte)?;
    }
    Ok(number)
}

/// A decimal number up to this one.
pub(crate) fn number_to(limit: u64, word: &[u8]) -> Result<u64, LineError>
    ensures value { ReadsAs (spec.number_to limit word.now) result }
    ensures within { IfOk result (λ n. n ≤ limit) }
{
    number_in(10, limit, word)
}

pub(crate) fn byte(word: &[u8]) -> Result<u8, LineError>
    ensures { ReadsAs (spec.byte word.now) result }
{
    Ok(number_to(255, word)? as u8)
}

pub(crate) fn number(word: &[u8]) -> Result<u64, LineError>
    ensures { ReadsAs (spec.number word.now) result }
{
    number_to(u64::MAX, word)
}

/// The character of a code point.
pub(crate) fn character(word: &[u8]) -> Result<char, LineError>
    ensures { ReadsAs (spec.character word.now) result }
{
    let code = number_in(16, 0x10_FFFF, word)?;
    match char::from_u32(code as u32) {
        Some(found) => Ok(found),
        None => Err(LineError::NoPlace),
    }
}

/// A number, or none for `-`.
pub(crate) fn optional(word: &[u8]) -> Result<Option<u64>, LineError>
    ensures { ReadsAs (spec.optional word.now) result }
{
    if is_word(word, "-") {
        return Ok(None);
    }
    Ok(Some(number(word)?))
}

fn rows_of(alloc: Global, words: &[&[u8]]) -> Result<Bytes, LineError>
    ensures { ReadsAs (all_of spec.byte (texts words.now)) result }
{
    let mut rows = Sequence::new(alloc);
    for word in words {
        rows.push(byte(word)?)?;
    }
    Ok(Bytes::from_vec(rows.into_vec()))
}

/// Numbers of one byte joined by commas, or none for `-`.
pub(crate) fn rows(alloc: Global, word: &[u8]) -> Result<Bytes, LineError>
    ensures { ReadsAs (spec.rows word.now) result }
{
    if is_word(word, "-") {
        return Ok(Bytes::new(alloc));
    }
    let words = parts_of(alloc, b',', word)?;
    rows_of(alloc, words.as_slice())
}

/// The bytes, if the word is their text.
fn spelled(alloc: Global, word: &[u8], bytes: Vec<u8>) -> Result<Bytes, LineError>
    ensures { ReadsAs (spec.spelled word.now bytes.items) result }
{
    let text = hex::encode_upper(alloc, bytes.as_slice())?;
    check(text.as_bytes() == word)?;
    Ok(Bytes::from_vec(bytes))
}

/// The bytes of upper-case hexadecimal.
fn hex_of(alloc: Global, word: &[u8]) -> Result<Bytes, LineError>
    ensures { ReadsAs (spec.hex word.now) result }
{
    match hex::decode(alloc, word) {
        Ok(bytes) => spelled(alloc, word, bytes),
        Err(FromHexError::OutOfMemory) => Err(LineError::Memory),
        Err(_) => Err(LineError::NoPlace),
    }
}

/// A byte in hexadecimal.
pub(crate) fn hex_byte(alloc: Global, word: &[u8]) -> Result<u8, LineError>
    ensures { ReadsAs (spec.hex_byte word.now) result }
{
    let bytes = hex_of(alloc, word)?;
    match bytes.as_slice() {
        [only] => Ok(*only),
        _ => Err(LineError::NoPlace),
    }
}

/// A number of two bytes in hexadecimal.
pub(crate) fn hex_pair(alloc: Global, word: &[u8]) -> Result<u16, LineError>
    ensures { ReadsAs (spec.hex_pair word.now) result }
{
    let bytes = hex_of(alloc, word)?;
    match bytes.as_slice() {
        [high, low] => Ok(u16::from(*high) * 256 + u16::from(*low)),
        _ => Err(LineError::NoPlace),
    }
}

/// A command in hexadecimal.
pub(crate) fn command(alloc: Global, word: &[u8]) -> Result<Command, LineError>
    ensures { ReadsAs (spec.command word.now) result }
{
    let bytes = hex_of(alloc, word)?;
    match Command::read(bytes.as_slice()) {
        Ok(command) => Ok(command),
        Err(_) => Err(LineError::NoPlace),
    }
}

/// A response in hexadecimal.
pub(crate) fn response(alloc: Global, word: &[u8]) -> Result<Response, LineError>
    ensures { ReadsAs (spec.response word.now) result }
{
    let bytes = hex_of(alloc, word)?;
    match Response::read(bytes.as_slice()) {
        Ok(response) => Ok(response),
        Err(_) => Err(LineError::NoPlace),
    }
}

/// The number of the family of this name.
pub(crate) fn family(word: &[u8]) -> Result<u8, LineError>
    ensures { ReadsAs (spec.family word.now) result }
{
    if is_word(word, "records") {
        Ok(0)
    } else if is_word(word, "phonebook") {
        Ok(1)
    } else if is_word(word, "fixed") {
        Ok(2)
    } else {
        Err(LineError::NoPlace)
    }
}
