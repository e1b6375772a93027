// Numbers as bytes: one byte below 253, and else a mark and two, four or eight bytes with the high one first.
ghost use Rattle.std.specs.Prelude.{◌≡◌, ◌<◌, ◌≤◌, ◌+◌, ◌*◌, ◌^◌, ◌++◌, length, Some, option_map, IfSome};
ghost use Rattle.std.specs.Int.{w16, w32, w64};
ghost use Rattle.report.specs.Kept as spec;
ghost use Rattle.report.specs.Texts.{number_text};

use apdu::Reserved;
use arrayvec::ArrayVec;

/// Puts a number at the end.
#[tactic(auto, unfolding(crate::specs::Kept::number_bytes))]
pub(crate) fn keep_number(number: u64, bytes: &mut Reserved<u8>)
    requires { 9 ≤ bytes.old.spare }
    ensures bytes { bytes.new.items ≡ bytes.old.items ++ spec.number_bytes number }
    ensures spare { bytes.old.spare ≤ bytes.new.spare + 9 }
    ensures fits { number < 2 ^ 64 }
    ensures small { length (spec.number_bytes number) ≤ length (number_text number) }
    ensures back { spec.first_number (spec.number_bytes number) ≡ number }
{
    if number < 253 {
        bytes.push_within(number as u8);
    } else if number < 0x1_0000 {
        bytes.push_within(253);
        bytes.extend_within(&(number as u16).to_be_bytes());
    } else if number < 0x1_0000_0000 {
        bytes.push_within(254);
        bytes.extend_within(&(number as u32).to_be_bytes());
    } else {
        bytes.push_within(255);
        bytes.extend_within(&number.to_be_bytes());
    }
}

/// Puts two numbers at the end.
pub(crate) fn keep_two(first: u64, second: u64, bytes: &mut Reserved<u8>)
    requires { 18 ≤ bytes.old.spare }
    ensures bytes { bytes.new.items ≡
        bytes.old.items ++ (spec.number_bytes first ++ spec.number_bytes second) }
    ensures spare { bytes.old.spare ≤ bytes.new.spare + 18 }
    ensures first { spec.first_number (spec.number_bytes first ++ spec.number_bytes second)
        ≡ first }
    ensures second { spec.second_number (spec.number_bytes first ++ spec.number_bytes second)
        ≡ second }
{
    keep_number(first, bytes);
    keep_number(second, bytes);
}

fn take_u16(bytes: &[u8]) -> (u64, &[u8])
    ensures number { result.0 ≡ spec.word w16 2 bytes.now }
    ensures behind { result.1.now ≡ spec.behind_word 2 bytes.now }
{
    let Some((word, behind)) = bytes.split_first_chunk::<2>() else {
        return (0, bytes);
    };
    (u64::from(u16::from_be_bytes(*word)), behind)
}

fn take_u32(bytes: &[u8]) -> (u64, &[u8])
    ensures number { result.0 ≡ spec.word w32 4 bytes.now }
    ensures behind { result.1.now ≡ spec.behind_word 4 bytes.now }
{
    let Some((word, behind)) = bytes.split_first_chunk::<4>() else {
        return (0, bytes);
    };
    (u64::from(u32::from_be_bytes(*word)), behind)
}

fn take_u64(bytes: &[u8]) -> (u64, &[u8])
    ensures number { result.0 ≡ spec.word w64 8 bytes.now }
    ensures behind { result.1.now ≡ spec.behind_word 8 bytes.now }
{
    let Some((word, behind)) = bytes.split_first_chunk::<8>() else {
        return (0, bytes);
    };
    (u64::from_be_bytes(*word), behind)
}

/// The number at the front, or 0 where it is cut, and the bytes behind it.
#[tactic(auto, unfolding(crate::specs::Kept::first_number, crate::specs::Kept::behind_number))]
pub(crate) fn take_number(bytes: &[u8]) -> (u64, &[u8])
    ensures number { result.0 ≡ spec.first_number bytes.now }
    ensures behind { result.1.now ≡ spec.behind_number bytes.now }
{
    let Some((mark, rest)) = bytes.split_first() else {
        return (0, bytes);
    };
    match *mark {
        253 => take_u16(rest),
        254 => take_u32(rest),
        255 => take_u64(rest),
        number => (u64::from(number), rest),
    }
}

pub(crate) fn first_number(bytes: &[u8]) -> u64
    ensures { result ≡ spec.first_number bytes.now }
{
    let (number, _) = take_number(bytes);
    number
}

pub(crate) fn first_word(bytes: &[u8]) -> u16
    ensures { result ≡ spec.first_word bytes.now }
{
    (first_number(bytes) % 0x1_0000) as u16
}

/// The two numbers at the front, and the bytes behind them.
pub(crate) fn take_two(bytes: &[u8]) -> (u64, u64, &[u8])
    ensures first { result.0 ≡ spec.first_number bytes.now }
    ensures second { result.1 ≡ spec.second_number bytes.now }
    ensures behind { result.2.now ≡ spec.behind_number (spec.behind_number bytes.now) }
{
    let (first, rest) = take_number(bytes);
    let (second, behind) = take_number(rest);
    (first, second, behind)
}

/// Puts the bytes of the numbers at the end.
pub(crate) fn keep_numbers(numbers: &[u64], bytes: &mut Reserved<u8>)
    requires few { length numbers.now ≤ 64 }
    requires spare { 9 * length numbers.now ≤ bytes.old.spare }
    ensures bytes { bytes.new.items ≡ bytes.old.items ++ spec.numbers_bytes numbers.now }
    ensures spare { bytes.old.spare ≤ bytes.new.spare + 9 * length numbers.now }
    ensures back { spec.numbers_of (length numbers.now) (spec.numbers_bytes numbers.now)
        ≡ Some numbers.now }
{
    for number in numbers {
        keep_number(*number, bytes);
    }
}

/// The so many numbers of these bytes, at most as many as an answer has.
pub(crate) fn numbers_of(count: usize, bytes: &[u8]) -> Option<ArrayVec<u64, 64>>
    ensures { option_map (λ numbers. numbers.items) result ≡ spec.numbers_of count bytes.now }
{
    if count > 64 {
        return None;
    }
    let mut numbers = ArrayVec::new();
    let mut rest = bytes;
    'numbers: while numbers.len() < count {
        let (number, behind) = take_number(rest);
        numbers.push(number);
        rest = behind;
    }
    Some(numbers)
}

/// Puts a byte 1 and a number, or a byte 0 for none.
pub(crate) fn keep_place(place: Option<u64>, bytes: &mut Reserved<u8>)
    requires { 10 ≤ bytes.old.spare }
    ensures bytes { bytes.new.items ≡ bytes.old.items ++ spec.place_bytes place }
    ensures spare { bytes.old.spare ≤ bytes.new.spare + 10 }
    ensures fits { IfSome place (λ number. number < 2 ^ 64) }
{
    match place {
        Some(number) => {
            bytes.push_within(1);
            keep_number(number, bytes);
        }
        None => bytes.push_within(0),
    }
}

pub(crate) fn take_place(bytes: &[u8]) -> (Option<u64>, &[u8])
    ensures place { result.0 ≡ spec.first_place bytes.now }
    ensures behind { result.1.now ≡ spec.behind_place bytes.now }
{
    let Some((flag, rest)) = bytes.split_first() else {
        return (None, bytes);
    };
    if *flag == 0 {
        return (None, rest);
    }
    let (number, behind) = take_number(rest);
    (Some(number), behind)
}

/// Puts the bytes of what the families show at the end.
pub(crate) fn keep_shown(shown: &[Option<u64>], bytes: &mut Reserved<u8>)
    requires few { length shown.now ≤ 8 }
    requires spare { 10 * length shown.now ≤ bytes.old.spare }
    ensures bytes { bytes.new.items ≡ bytes.old.items ++ spec.shown_bytes shown.now }
    ensures spare { bytes.old.spare ≤ bytes.new.spare + 10 * length shown.now }
    ensures back { spec.shown_of (length shown.now) (spec.shown_bytes shown.now)
        ≡ Some shown.now }
{
    for place in shown {
        keep_place(*place, bytes);
    }
}

/// What so many families show by these bytes, at most as many as a look has.
pub(crate) fn shown_of(families: usize, bytes: &[u8]) -> Option<ArrayVec<Option<u64>, 8>>
    ensures { option_map (λ shown. shown.items) result ≡ spec.shown_of families bytes.now }
{
    if families > 8 {
        return None;
    }
    let mut shown = ArrayVec::new();
    let mut rest = bytes;
    'places: while shown.len() < families {
        let (place, behind) = take_place(rest);
        shown.push(place);
        rest = behind;
    }
    Some(shown)
}
