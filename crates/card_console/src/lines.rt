// The lines of a conversation, and the calls that they make.
ghost use Rattle.std.specs.Prelude.{◌≡◌, ◌==◌, codes, map, List, ℕ, IfOk};
ghost use Rattle.std.specs.List.{slice_split};
ghost use Rattle.apdu.specs.Words.{same_bytes};
ghost use Rattle.card_console.specs.Lines as spec;

use apdu::{Command, Memory};
use card_model::WorldEvent;
use hex::FromHexError;
use sim_card::Call;
use std::alloc::Global;

/// The parts of the bytes before, between and behind the bytes of this value.
pub fn parts_of(alloc: Global, at: u8, bytes: &[u8]) -> Result<Vec<&[u8]>, Memory>
    ensures { IfOk result (λ parts. map (λ part. part.now) parts.items
        ≡ slice_split (λ b. b == at) bytes.now) }
{
    Ok(bytes.split(|b| *b == at).collect(alloc)?)
}

fn is_word(word: &[u8], name: &str) -> bool
    ensures { result ≡ same_bytes word.now name.now }
{
    word == name.as_bytes()
}

/// Whether a zero stands before other digits.
fn has_leading_zero(digits: &[u8]) -> bool
    ensures { result ≡ spec.has_leading_zero digits.now }
{
    match digits {
        [first, _, ..] => *first == b'0',
        _ => false,
    }
}

/// The number of a byte that the decimal digits write, if they have no leading zero.
fn number_of(digits: &[u8]) -> Option<u8>
    ensures { result ≡ spec.number_of digits.now }
{
    if digits.is_empty() {
        return None;
    }
    if has_leading_zero(digits) {
        return None;
    }
    let mut number = 0u8;
    for digit in digits {
        let Some(next) = with_digit(number, *digit) else {
            return None;
        };
        number = next;
    }
    Some(number)
}

/// The number with one digit more, where that is still a byte.
fn with_digit(number: u8, digit: u8) -> Option<u8>
    ensures { result ≡ spec.with_digit number digit }
{
    if digit < b'0' || digit > b'9' {
        return None;
    }
    let next = number as u32 * 10 + (digit - b'0') as u32;
    if next > 255 {
        return None;
    }
    Some(next as u8)
}

/// The number in the first of the words.
fn first_number(words: &[&[u8]]) -> Option<u8>
    ensures { result ≡ spec.first_number (map (λ word. word.now) words.now) }
{
    match words {
        [word, ..] => number_of(word),
        [] => None,
    }
}

/// The command of this hexadecimal text, if it is one.
fn command_of(alloc: Global, text: &[u8]) -> Result<Option<Call>, Memory>
    ensures { IfOk result (λ call. call ≡ spec.command_of text.now) }
{
    match hex::decode(alloc, text) {
        Ok(bytes) => match Command::read(bytes.as_slice()) {
            Ok(command) => Ok(Some(Call::Exchange(command))),
            Err(_) => Ok(None),
        },
        Err(FromHexError::OutOfMemory) => Err(Memory),
        Err(_) => Ok(None),
    }
}

/// The call that the words make; what stands behind them is not read.
fn call_of_words(alloc: Global, words: &[&[u8]]) -> Result<Option<Call>, Memory>
    ensures { IfOk result (λ call. call ≡ spec.call_of_words (map (λ word. word.now) words.now)) }
{
    let [word, behind @ ..] = words else {
        return Ok(None);
    };
    if is_word(word, "reset") {
        return Ok(Some(Call::Reset));
    }
    if is_word(word, "out") {
        return Ok(Some(Call::World(WorldEvent::Out)));
    }
    if is_word(word, "in") {
        return Ok(first_number(behind).map(|card| Call::World(WorldEvent::Insert(card))));
    }
    if is_word(word, "arm") {
        return Ok(first_number(behind).map(|change| Call::World(WorldEvent::Arm(change))));
    }
    command_of(alloc, word)
}

/// The call that a line makes, if any.
pub fn call_of(alloc: Global, line: &[u8]) -> Result<Option<Call>, Memory>
    ensures { IfOk result (λ call. call ≡ spec.call_of line.now) }
{
    let words = parts_of(alloc, b' ', line)?;
    call_of_words(alloc, words.as_slice())
}
