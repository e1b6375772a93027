// What an operation is answered: a name, and words behind it.
ghost use Rattle.std.specs.Prelude.{◌≤◌, length};
ghost use Rattle.report_reader.specs.Reads.{ReadsAs, texts};
ghost use Rattle.report_reader.specs.Answers as spec;

use crate::error::{LineError, check};
use crate::words::{
    byte, character, hex_byte, hex_pair, is_word, number, number_to, optional, response, rows,
};
use apdu::Sw;
use arrayvec::ArrayVec;
use report::{Answer, Seen};
use std::alloc::Global;

fn moved(name: &[u8]) -> Result<Answer, LineError>
    ensures { ReadsAs (spec.moved name.now) result }
{
    if is_word(name, "moved") {
        Ok(Answer::Moved)
    } else if is_word(name, "slot-full") {
        Ok(Answer::SlotFull)
    } else if is_word(name, "slot-empty") {
        Ok(Answer::SlotEmpty)
    } else if is_word(name, "arm-full") {
        Ok(Answer::ArmFull)
    } else if is_word(name, "absent") {
        Ok(Answer::Absent)
    } else {
        Err(LineError::NoPlace)
    }
}

/// An answer that is a name alone.
fn bare(name: &[u8]) -> Result<Answer, LineError>
    ensures { ReadsAs (spec.bare name.now) result }
{
    if is_word(name, "closed") {
        Ok(Answer::Closed)
    } else if is_word(name, "verified") {
        Ok(Answer::Verified)
    } else if is_word(name, "ended") {
        Ok(Answer::Ended)
    } else if is_word(name, "polled") {
        Ok(Answer::Polled)
    } else if is_word(name, "watching") {
        Ok(Answer::Watching)
    } else {
        moved(name)
    }
}

fn of_number(name: &[u8], word: &[u8]) -> Result<Answer, LineError>
    ensures { ReadsAs (spec.of_number name.now word.now) result }
{
    if is_word(name, "loop") {
        Ok(Answer::Loop {
            event: number(word)?,
        })
    } else if is_word(name, "bad-fcp") {
        Ok(Answer::BadFcp {
            event: number(word)?,
        })
    } else if is_word(name, "loaded") {
        Ok(Answer::Loaded {
            publication: number(word)?,
        })
    } else if is_word(name, "exhausted") {
        Ok(Answer::Exhausted {
            event: number(word)?,
        })
    } else if is_word(name, "bad-digit") {
        Ok(Answer::BadDigit {
            at: number(word)? as usize,
        })
    } else if is_word(name, "number-too-long") {
        Ok(Answer::NumberTooLong {
            count: number(word)? as usize,
        })
    } else {
        Err(LineError::NoPlace)
    }
}

fn of_byte(name: &[u8], word: &[u8]) -> Result<Answer, LineError>
    ensures { ReadsAs (spec.of_byte name.now word.now) result }
{
    if is_word(name, "no-record") {
        Ok(Answer::NoRecord { at: byte(word)? })
    } else if is_word(name, "full") {
        Ok(Answer::Full { count: byte(word)? })
    } else if is_word(name, "ext-full") {
        Ok(Answer::ExtFull { count: byte(word)? })
    } else if is_word(name, "opened") {
        Ok(Answer::Opened {
            channel: byte(word)?,
        })
    } else if is_word(name, "bad-file") {
        Ok(Answer::BadFile {
            width: number_to(65_535, word)? as u16,
        })
    } else {
        of_number(name, word)
    }
}

/// A key, where the operation is an `end`, or a ref.
fn not_held(alloc: Global, ends: bool, word: &[u8]) -> Result<Answer, LineError>
    ensures { ReadsAs (spec.not_held ends word.now) result }
{
    if ends {
        Ok(Answer::NotHeldKey {
            key: hex_byte(alloc, word)?,
        })
    } else {
        Ok(Answer::NotHeldRef {
            handle: number_to(15, word)? as u8,
        })
    }
}

/// An answer of a name and one word.
fn of_word(alloc: Global, ends: bool, name: &[u8], word: &[u8]) -> Result<Answer, LineError>
    ensures { ReadsAs (spec.of_word ends name.now word.now) result }
{
    if is_word(name, "not-held") {
        not_held(alloc, ends, word)
    } else if is_word(name, "needs-pin") {
        Ok(Answer::NeedsPin {
            key: hex_byte(alloc, word)?,
        })
    } else if is_word(name, "raw-refused") {
        Ok(Answer::RawRefused {
            ins: hex_byte(alloc, word)?,
        })
    } else if is_word(name, "raw") {
        Ok(Answer::Raw {
            response: response(alloc, word)?,
        })
    } else if is_word(name, "not-writable") {
        Ok(Answer::NotWritable {
            found: character(word)?,
        })
    } else {
        of_byte(name, word)
    }
}

fn status(alloc: Global, word: &[u8], event: &[u8]) -> Result<Answer, LineError>
    ensures { ReadsAs (spec.status word.now event.now) result }
{
    let sw = Sw(hex_pair(alloc, word)?);
    let event = number(event)?;
    Ok(Answer::Status { sw, event })
}

fn too_long(need: &[u8], room: &[u8]) -> Result<Answer, LineError>
    ensures { ReadsAs (spec.too_long need.now room.now) result }
{
    let need = number(need)? as usize;
    let room = number(room)? as usize;
    Ok(Answer::NameTooLong { need, room })
}

fn epoch_ended(unsure: bool, epoch: &[u8], event: &[u8]) -> Result<Answer, LineError>
    ensures { ReadsAs (spec.epoch_ended unsure epoch.now event.now) result }
{
    let epoch = number(epoch)?;
    let event = number(event)?;
    Ok(Answer::EpochEnded {
        epoch,
        event,
        unsure,
    })
}

/// An answer of a name and two words.
fn of_two(alloc: Global, name: &[u8], first: &[u8], second: &[u8]) -> Result<Answer, LineError>
    ensures { ReadsAs (spec.of_two name.now first.now second.now) result }
{
    if is_word(name, "status") {
        status(alloc, first, second)
    } else if is_word(name, "epoch-ended") {
        epoch_ended(false, first, second)
    } else if is_word(name, "name-too-long") {
        too_long(first, second)
    } else {
        Err(LineError::NoPlace)
    }
}

fn done(alloc: Global, event: &[u8], publication: &[u8], left: &[u8]) -> Result<Answer, LineError>
    ensures { ReadsAs (spec.done event.now publication.now left.now) result }
{
    let event = number(event)?;
    let publication = optional(publication)?;
    let left = rows(alloc, left)?;
    Ok(Answer::Done {
        event,
        publication,
        left,
    })
}

fn ended_unsure(epoch: &[u8], event: &[u8], word: &[u8]) -> Result<Answer, LineError>
    ensures { ReadsAs (spec.ended_unsure epoch.now event.now word.now) result }
{
    if is_word(word, "unsure") {
        epoch_ended(true, epoch, event)
    } else {
        Err(LineError::NoPlace)
    }
}

/// An answer of a name and three words.
fn of_three(
    alloc: Global,
    name: &[u8],
    first: &[u8],
    second: &[u8],
    third: &[u8],
) -> Result<Answer, LineError>
    ensures { ReadsAs (spec.of_three name.now first.now second.now third.now) result }
{
    if is_word(name, "done") {
        done(alloc, first, second, third)
    } else if is_word(name, "epoch-ended") {
        ended_unsure(first, second, third)
    } else {
        Err(LineError::NoPlace)
    }
}

/// What is shown of each of the three families.
fn look(count: &[u8], records: &[u8], phonebook: &[u8], fixed: &[u8]) -> Result<Answer, LineError>
    ensures { ReadsAs (spec.look count.now records.now phonebook.now fixed.now) result }
{
    let count = number(count)?;
    let mut shown = ArrayVec::new();
    shown.push(optional(records)?);
    shown.push(optional(phonebook)?);
    shown.push(optional(fixed)?);
    Ok(Answer::Look {
        seen: Seen { count, shown },
    })
}

/// An answer of a name and four words.
fn of_four(
    name: &[u8],
    first: &[u8],
    second: &[u8],
    third: &[u8],
    fourth: &[u8],
) -> Result<Answer, LineError>
    ensures { ReadsAs (spec.of_four name.now first.now second.now third.now fourth.now) result }
{
    if is_word(name, "look") {
        look(first, second, third, fourth)
    } else {
        Err(LineError::NoPlace)
    }
}

fn numbers_of(words: &[&[u8]]) -> Result<ArrayVec<u64, 64>, LineError>
    requires { length words.now ≤ 64 }
    ensures { ReadsAs (spec.kept (texts words.now)) result }
{
    let mut numbers = ArrayVec::new();
    for word in words {
        numbers.push(number(word)?);
    }
    Ok(numbers)
}

/// A number, and at most 64 numbers behind it.
fn notices(fields: &[&[u8]]) -> Result<Answer, LineError>
    ensures { ReadsAs (spec.notices (texts fields.now)) result }
{
    let [dropped, behind @ ..] = fields else {
        return Err(LineError::NoPlace);
    };
    let dropped = number(dropped)?;
    check(behind.len() <= 64)?;
    let numbers = numbers_of(behind)?;
    Ok(Answer::Notices { dropped, numbers })
}

#[tactic(auto, using(crate::proofs::Counts::many_words))]
fn of_words(alloc: Global, ends: bool, name: &[u8], fields: &[&[u8]]) -> Result<Answer, LineError>
    ensures { ReadsAs (spec.of_words ends name.now (texts fields.now)) result }
{
    match fields {
        [] => bare(name),
        [word] => of_word(alloc, ends, name, word),
        [first, second] => of_two(alloc, name, first, second),
        [first, second, third] => of_three(alloc, name, first, second, third),
        [first, second, third, fourth] => of_four(name, first, second, third, fourth),
        _ => Err(LineError::NoPlace),
    }
}

/// The answer of this name to an operation, which is an `end` or not.
pub(crate) fn answer_of(
    alloc: Global,
    ends: bool,
    name: &[u8],
    fields: &[&[u8]],
) -> Result<Answer, LineError>
    ensures { ReadsAs (spec.answer_of ends name.now (texts fields.now)) result }
{
    if is_word(name, "notices") {
        notices(fields)
    } else {
        of_words(alloc, ends, name, fields)
    }
}
