//! Digits of a number, two to a byte and the low half first (3GPP TS 31.102 clause 4.4.2.3).
#![tactic(auto)]

ghost use Rattle.std.specs.Prelude.{◌≡◌, ◌<◌, ◌≤◌, [], ◌∷◌, ◌++◌, length, string_bytes, OnOk, slice_get, unwrap_or, IfOk, IfSome};
ghost use Rattle.std.specs.Result.{result_err};
ghost use Rattle.bcd.specs.Digits.{digit_texts, read_digits, half_of, bad_digit, written_digits, digit_refusal};

use apdu::{Memory, Text};
use arrayvec::ArrayVec;
use std::alloc::Global;
use thiserror::Error;

/// Why digits cannot be written.
#[derive(Clone, Copy, Debug, PartialEq, Eq, Error)]
pub enum DigitError {
    /// The byte at this index is no digit's text.
    #[error("byte {0} is no digit")]
    BadDigit(usize),
    /// There are this many digits, which is more than 40.
    #[error("{0} digits, more than 40")]
    TooMany(usize),
}

/// The texts of the halves 0 to D.
const DIGIT_TEXTS: [u8; 14] = [
    b'0', b'1', b'2', b'3', b'4', b'5', b'6', b'7', b'8', b'9', b'*', b'#', b',', b'N',
];

/// The digits that twenty bytes hold.
const MAX_DIGITS: usize = 40;

/// The text of a half, unless it is E or F, which end a number.
#[tactic(auto, using(crate::proofs::Digits::is_ascii_text))]
fn text_of(half: u8) -> Option<u8>
    ensures text { result ≡ slice_get digit_texts half }
    ensures ascii { IfSome result (λ text. text < 128) }
{
    DIGIT_TEXTS.get(usize::from(half)).copied()
}

/// The half that a text stands for.
#[tactic(auto, using(crate::proofs::Digits::is_digit_half))]
fn half_of(text: u8) -> Option<usize>
    ensures half { result ≡ half_of text }
    ensures bound { IfSome result (λ half. half < 14) }
{
    DIGIT_TEXTS.iter().position(|t| *t == text)
}

/// The digits of the bytes up to the first half E or F: 0 to 9, and `*`, `#`, `,` and `N` for A to D.
pub fn read_digits(alloc: Global, bytes: &[u8]) -> Result<Text, Memory>
    ensures { IfOk result (λ digits. digits ≡ read_digits bytes.now) }
{
    let mut digits = String::new(alloc);
    for byte in bytes {
        let Some(low) = text_of(byte % 16) else {
            break;
        };
        put_text(&mut digits, low)?;
        let Some(high) = text_of(byte / 16) else {
            break;
        };
        put_text(&mut digits, high)?;
    }
    Ok(Text::from_string(digits))
}

/// Puts a digit's text at the end.
fn put_text(digits: &mut String, text: u8) -> Result<(), Memory>
    requires { text < 128 }
    ensures { OnOk result (string_bytes digits.new ≡ string_bytes digits.old ++ text ∷ []) }
{
    digits.push(char::from(text))?;
    Ok(())
}

/// The bytes of at most 40 digits, an odd count filled with F.
#[tactic(auto, using(crate::proofs::Digits::read_digits_written))]
pub fn write_digits(digits: &[u8]) -> Result<ArrayVec<u8, 20>, DigitError>
    ensures refused { result_err result ≡ digit_refusal digits.now }
    ensures written { IfOk result (λ bytes. bytes.items ≡ written_digits digits.now) }
    ensures read_back { IfOk result (λ bytes. read_digits bytes.items ≡ digits.now) }
{
    if let Some(at) = bad_digit(digits) {
        return Err(DigitError::BadDigit(at));
    }
    if digits.len() > MAX_DIGITS {
        return Err(DigitError::TooMany(digits.len()));
    }
    Ok(packed(digits))
}

/// The index of the first byte that is no digit's text.
fn bad_digit(digits: &[u8]) -> Option<usize>
    ensures { result ≡ bad_digit digits.now }
{
    digits.iter().position(|text| half_of(*text).is_none())
}

/// The bytes of digits, two to a byte.
fn packed(digits: &[u8]) -> ArrayVec<u8, 20>
    requires { length digits.now ≤ MAX_DIGITS }
    ensures { result.items ≡ written_digits digits.now }
{
    let mut bytes = ArrayVec::new();
    let mut rest = digits;
    while let [low, high, others @ ..] = rest {
        bytes.push(value_of(*high) * 16 + value_of(*low));
        rest = others;
    }
    if let [last] = rest {
        bytes.push(0xF0 + value_of(*last));
    }
    bytes
}

/// The half that a digit's text stands for.
fn value_of(text: u8) -> u8
    ensures value { result ≡ unwrap_or (half_of text) 0 }
    ensures bound { result < 14 }
{
    half_of(text).unwrap_or(0) as u8
}
