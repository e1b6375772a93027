// The name and the number of an entry as bytes.
ghost use Rattle.std.specs.Prelude.{◌≡◌, IfOk, Some};
ghost use Rattle.std.specs.Result.{result_map_both};
ghost use Rattle.bcd.specs.Digits.{digit_refusal};
ghost use Rattle.families.specs.Plans as plans;

use adn::PlanError;
use alpha::{AlphaError, encode_alpha};
use apdu::{Bytes, Memory, Text};
use arrayvec::ArrayVec;
use bcd::{DigitError, write_digits};
use std::alloc::Global;

/// The bytes of a name in so much room.
pub fn name_bytes(
    alloc: Global,
    room: usize,
    name: &Text,
) -> Result<Result<Bytes, PlanError>, Memory>
    ensures { IfOk result (λ bytes. bytes ≡ plans.name_bytes room name.now) }
{
    match encode_alpha(alloc, name, room) {
        Ok(bytes) => Ok(Ok(bytes)),
        Err(AlphaError::NotWritable(character)) => Ok(Err(PlanError::NotWritable(character))),
        Err(AlphaError::TooLong { need, room }) => Ok(Err(PlanError::NameTooLong { need, room })),
        Err(AlphaError::Memory) => Err(Memory),
    }
}

/// Whether a number is international.
pub fn has_plus(number: &[u8]) -> bool
    ensures { result ≡ plans.has_plus number.now }
{
    match number {
        [first, ..] => *first == b'+',
        [] => false,
    }
}

fn without_plus(number: &[u8]) -> &[u8]
    ensures { result.now ≡ plans.without_plus number.now }
{
    if has_plus(number) {
        &number[1..]
    } else {
        number
    }
}

fn digit_error(number: &[u8], error: DigitError) -> PlanError
    requires { digit_refusal (plans.without_plus number.now) ≡ Some error }
    ensures { result ≡ plans.digit_error number.now error }
{
    match error {
        DigitError::BadDigit(at) if has_plus(number) => PlanError::BadDigit(at + 1),
        DigitError::BadDigit(at) => PlanError::BadDigit(at),
        DigitError::TooMany(count) => PlanError::NumberTooLong(count),
    }
}

/// The bytes of a number's digits.
pub fn digit_bytes(number: &[u8]) -> Result<ArrayVec<u8, 20>, PlanError>
    ensures { result_map_both (λ bytes. bytes.items) (λ error. error) result
        ≡ plans.digit_bytes number.now }
{
    let digits = without_plus(number);
    if has_plus(number) && digits.is_empty() {
        return Err(PlanError::BadDigit(1));
    }
    match write_digits(digits) {
        Ok(bytes) => Ok(bytes),
        Err(error) => Err(digit_error(number, error)),
    }
}
