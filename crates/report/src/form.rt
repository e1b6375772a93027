// What is kept of a line: a form of a fixed size, and the bytes of its numbers, texts, commands and responses.
ghost use Rattle.std.specs.Prelude.{◌≡◌, ◌≤◌, ◌+◌, ◌++◌, length, true, Some, IfOk, IfSome};
ghost use Rattle.std.specs.Str.{is_utf8};
ghost use Rattle.apdu.specs.Apdu.{command_bytes, response_bytes, read_command, read_response};
ghost use Rattle.report.specs.Kept as spec;
ghost use Rattle.report.specs.Room.{most_kept, most_of_answer};

use crate::numbers::{
    first_number, first_word, keep_number, keep_numbers, keep_place, keep_shown, keep_two,
    numbers_of, shown_of, take_number, take_place, take_two,
};
use crate::{Answer, Line, Seen};
use apdu::{Bytes, Command, Memory, Reserved, Response, Sw, Text};
use card_model::WorldEvent;
use std::alloc::Global;
use std::mem::size_of;
use std::str::from_utf8;

/// A line without its bytes.
#[derive(Clone, Copy)]
pub(crate) enum Form {
    Turn {
        actor: u8,
    },
    Begin {
        actor: u8,
        op: u32,
    },
    /// The command has so many of the bytes.
    Exchange {
        actor: u8,
        command: u16,
    },
    Failed {
        actor: u8,
        acted: bool,
    },
    Reset {
        actor: u8,
    },
    ResetFailed {
        actor: u8,
    },
    World {
        actor: u8,
        event: WorldEvent,
    },
    Published {
        family: u8,
    },
    EpochEnd,
    Refused {
        family: u8,
    },
    Answered {
        actor: u8,
        answer: AnswerForm,
        op: u32,
    },
}

/// An answer without its bytes.
#[derive(Clone, Copy)]
pub(crate) enum AnswerForm {
    Moved,
    SlotFull,
    SlotEmpty,
    ArmFull,
    Absent,
    EpochEnded { unsure: bool },
    Status,
    Loop,
    BadFcp,
    Loaded,
    Done,
    NeedsPin { key: u8 },
    BadFile,
    NoRecord { at: u8 },
    Full { count: u8 },
    NotWritable,
    NameTooLong,
    BadDigit,
    NumberTooLong,
    ExtFull { count: u8 },
    Opened { channel: u8 },
    Exhausted,
    Raw,
    RawRefused { ins: u8 },
    NotHeldRef { handle: u8 },
    NotHeldKey { key: u8 },
    Closed,
    Verified,
    Ended,
    Polled,
    /// So many families show something or nothing.
    Look { families: u8 },
    Watching,
    /// So many numbers.
    Notices { count: u8 },
}

/// The form of a line, and where its bytes stand among those of all lines.
#[derive(Clone, Copy)]
pub(crate) struct Entry {
    pub(crate) at: usize,
    pub(crate) len: usize,
    pub(crate) form: Form,
}

const _: () = prove!(size_of::<Entry>() == 24);

fn most_of_answer(answer: &Answer) -> Option<usize>
    ensures { IfSome result (λ most. most ≡ most_of_answer answer.now) }
{
    match answer {
        Answer::Done { left, .. } => left.as_slice().len().checked_add(32),
        Answer::Raw { .. } => Some(290),
        Answer::Look { .. } => Some(104),
        Answer::Notices { .. } => Some(608),
        _ => Some(32),
    }
}

impl Line {
    /// How many bytes are enough for the line, where a `usize` can say it.
    pub(crate) fn most_kept(&self) -> Option<usize>
        ensures { IfSome result (λ most. most ≡ most_kept self.now) }
    {
        match self {
            Line::Exchange { .. } => Some(551),
            Line::Failed { .. } => Some(293),
            Line::Published { content, .. } => content.as_str().len().checked_add(32),
            Line::Answered { answer, .. } => most_of_answer(answer),
            _ => Some(32),
        }
    }
}

/// Puts the bytes of a line at the end, and gives its form.
pub(crate) fn keep(line: &Line, bytes: &mut Reserved<u8>) -> Form
    requires { most_kept line.now ≤ bytes.old.spare }
    ensures bytes { bytes.new.items ≡ bytes.old.items ++ spec.kept_bytes line.now }
    ensures spare { bytes.old.spare ≤ bytes.new.spare + most_kept line.now }
    ensures back { spec.line_of result (spec.kept_bytes line.now) ≡ Some line.now }
{
    match line {
        Line::Turn { actor } => Form::Turn { actor: *actor },
        Line::Begin { actor, op } => Form::Begin {
            actor: *actor,
            op: *op,
        },
        Line::Exchange {
            actor,
            command,
            response,
        } => keep_exchange(*actor, command, response, bytes),
        Line::Failed {
            actor,
            command,
            acted,
        } => keep_failed(*actor, command, *acted, bytes),
        Line::Reset { actor } => Form::Reset { actor: *actor },
        Line::ResetFailed { actor } => Form::ResetFailed { actor: *actor },
        Line::World { actor, event } => Form::World {
            actor: *actor,
            event: *event,
        },
        Line::Published {
            number,
            family,
            epoch,
            point,
            content,
        } => keep_published(*number, *family, *epoch, *point, content, bytes),
        Line::EpochEnd {
            number,
            epoch,
            event,
        } => keep_epoch_end(*number, *epoch, *event, bytes),
        Line::Refused { family, event } => {
            keep_number(*event, bytes);
            Form::Refused { family: *family }
        }
        Line::Answered { actor, op, answer } => Form::Answered {
            actor: *actor,
            op: *op,
            answer: keep_answer(answer, bytes),
        },
    }
}

fn keep_exchange(
    actor: u8,
    command: &Command,
    response: &Response,
    bytes: &mut Reserved<u8>,
) -> Form
    requires { 519 ≤ bytes.old.spare }
    ensures bytes { bytes.new.items ≡
        bytes.old.items ++ command_bytes command.now ++ response_bytes response.now }
    ensures spare { bytes.old.spare ≤ bytes.new.spare + 519 }
    ensures back { spec.line_of result (command_bytes command.now ++ response_bytes response.now)
        ≡ Some (Line.Exchange actor command.now response.now) }
{
    let sent = command.write();
    let answered = response.write();
    bytes.extend_within(sent.as_slice());
    bytes.extend_within(answered.as_slice());
    Form::Exchange {
        actor,
        command: sent.len() as u16,
    }
}

fn keep_failed(actor: u8, command: &Command, acted: bool, bytes: &mut Reserved<u8>) -> Form
    requires { 261 ≤ bytes.old.spare }
    ensures bytes { bytes.new.items ≡ bytes.old.items ++ command_bytes command.now }
    ensures spare { bytes.old.spare ≤ bytes.new.spare + 261 }
    ensures back { spec.line_of result (command_bytes command.now)
        ≡ Some (Line.Failed actor command.now acted) }
{
    bytes.extend_within(command.write().as_slice());
    Form::Failed { actor, acted }
}

#[tactic(auto, using(crate::proofs::Entries::utf8_tests))]
fn keep_text(text: &Text, bytes: &mut Reserved<u8>)
    requires { length text.now ≤ bytes.old.spare }
    ensures bytes { bytes.new.items ≡ bytes.old.items ++ text.now }
    ensures spare { bytes.old.spare ≤ bytes.new.spare + length text.now }
    ensures utf8 { is_utf8 text.now ≡ true }
{
    bytes.extend_within(text.as_str().as_bytes());
}

fn keep_published(
    number: u64,
    family: u8,
    epoch: u64,
    point: u64,
    content: &Text,
    bytes: &mut Reserved<u8>,
) -> Form
    requires { 27 + length content.now ≤ bytes.old.spare }
    ensures bytes { bytes.new.items ≡ bytes.old.items ++ (spec.number_bytes number
        ++ (spec.number_bytes epoch ++ (spec.number_bytes point ++ content.now))) }
    ensures spare { bytes.old.spare ≤ bytes.new.spare + 27 + length content.now }
    ensures back { spec.line_of result (spec.number_bytes number
        ++ (spec.number_bytes epoch ++ (spec.number_bytes point ++ content.now)))
        ≡ Some (Line.Published number family epoch point content.now) }
{
    keep_two(number, epoch, bytes);
    keep_number(point, bytes);
    keep_text(content, bytes);
    Form::Published { family }
}

fn keep_epoch_end(number: u64, epoch: u64, event: u64, bytes: &mut Reserved<u8>) -> Form
    requires { 27 ≤ bytes.old.spare }
    ensures bytes { bytes.new.items ≡ bytes.old.items ++ (spec.number_bytes number
        ++ (spec.number_bytes epoch ++ spec.number_bytes event)) }
    ensures spare { bytes.old.spare ≤ bytes.new.spare + 27 }
    ensures back { spec.line_of result
        (spec.number_bytes number ++ (spec.number_bytes epoch ++ spec.number_bytes event))
        ≡ Some (Line.EpochEnd number epoch event) }
{
    keep_two(number, epoch, bytes);
    keep_number(event, bytes);
    Form::EpochEnd
}

fn keep_response(response: &Response, bytes: &mut Reserved<u8>) -> AnswerForm
    requires { 258 ≤ bytes.old.spare }
    ensures bytes { bytes.new.items ≡ bytes.old.items ++ response_bytes response.now }
    ensures spare { bytes.old.spare ≤ bytes.new.spare + 258 }
    ensures back { spec.answer_of result (response_bytes response.now)
        ≡ Some (Answer.Raw response.now) }
{
    bytes.extend_within(response.write().as_slice());
    AnswerForm::Raw
}

fn keep_status(sw: Sw, event: u64, bytes: &mut Reserved<u8>) -> AnswerForm
    requires { 18 ≤ bytes.old.spare }
    ensures bytes { bytes.new.items ≡
        bytes.old.items ++ (spec.number_bytes sw.0 ++ spec.number_bytes event) }
    ensures spare { bytes.old.spare ≤ bytes.new.spare + 18 }
    ensures back { spec.answer_of result (spec.number_bytes sw.0 ++ spec.number_bytes event)
        ≡ Some (Answer.Status sw event) }
{
    keep_two(u64::from(sw.0), event, bytes);
    AnswerForm::Status
}

fn keep_bad_file(width: u16, bytes: &mut Reserved<u8>) -> AnswerForm
    requires { 9 ≤ bytes.old.spare }
    ensures bytes { bytes.new.items ≡ bytes.old.items ++ spec.number_bytes width }
    ensures spare { bytes.old.spare ≤ bytes.new.spare + 9 }
    ensures back { spec.answer_of result (spec.number_bytes width)
        ≡ Some (Answer.BadFile width) }
{
    keep_number(u64::from(width), bytes);
    AnswerForm::BadFile
}

fn keep_not_writable(found: char, bytes: &mut Reserved<u8>) -> AnswerForm
    requires { 9 ≤ bytes.old.spare }
    ensures bytes { bytes.new.items ≡ bytes.old.items ++ spec.number_bytes found }
    ensures spare { bytes.old.spare ≤ bytes.new.spare + 9 }
    ensures back { spec.answer_of result (spec.number_bytes found)
        ≡ Some (Answer.NotWritable found) }
{
    keep_number(u64::from(found), bytes);
    AnswerForm::NotWritable
}

fn keep_done(
    event: u64,
    publication: Option<u64>,
    left: &[u8],
    bytes: &mut Reserved<u8>,
) -> AnswerForm
    requires { 19 + length left.now ≤ bytes.old.spare }
    ensures bytes { bytes.new.items ≡ bytes.old.items
        ++ (spec.number_bytes event ++ (spec.place_bytes publication ++ left.now)) }
    ensures spare { bytes.old.spare ≤ bytes.new.spare + 19 + length left.now }
    ensures back { spec.answer_of result
        (spec.number_bytes event ++ (spec.place_bytes publication ++ left.now))
        ≡ Some (Answer.Done event publication left.now) }
{
    keep_number(event, bytes);
    keep_place(publication, bytes);
    bytes.extend_within(left);
    AnswerForm::Done
}

fn keep_look(count: u64, shown: &[Option<u64>], bytes: &mut Reserved<u8>) -> AnswerForm
    requires few { length shown.now ≤ 8 }
    requires spare { 89 ≤ bytes.old.spare }
    ensures bytes { bytes.new.items ≡
        bytes.old.items ++ (spec.number_bytes count ++ spec.shown_bytes shown.now) }
    ensures spare { bytes.old.spare ≤ bytes.new.spare + 89 }
    ensures back { spec.answer_of result (spec.number_bytes count ++ spec.shown_bytes shown.now)
        ≡ Some (Answer.Look (record { count = count; shown = shown.now })) }
{
    keep_number(count, bytes);
    keep_shown(shown, bytes);
    AnswerForm::Look {
        families: shown.len() as u8,
    }
}

fn keep_notices(dropped: u64, numbers: &[u64], bytes: &mut Reserved<u8>) -> AnswerForm
    requires few { length numbers.now ≤ 64 }
    requires spare { 585 ≤ bytes.old.spare }
    ensures bytes { bytes.new.items ≡
        bytes.old.items ++ (spec.number_bytes dropped ++ spec.numbers_bytes numbers.now) }
    ensures spare { bytes.old.spare ≤ bytes.new.spare + 585 }
    ensures back { spec.answer_of result
        (spec.number_bytes dropped ++ spec.numbers_bytes numbers.now)
        ≡ Some (Answer.Notices dropped (record { items = numbers.now })) }
{
    keep_number(dropped, bytes);
    keep_numbers(numbers, bytes);
    AnswerForm::Notices {
        count: numbers.len() as u8,
    }
}

fn keep_answer(answer: &Answer, bytes: &mut Reserved<u8>) -> AnswerForm
    requires { most_of_answer answer.now ≤ bytes.old.spare }
    ensures bytes { bytes.new.items ≡ bytes.old.items ++ spec.answer_bytes answer.now }
    ensures spare { bytes.old.spare ≤ bytes.new.spare + most_of_answer answer.now }
    ensures back { spec.answer_of result (spec.answer_bytes answer.now) ≡ Some answer.now }
{
    match answer {
        Answer::Moved => AnswerForm::Moved,
        Answer::SlotFull => AnswerForm::SlotFull,
        Answer::SlotEmpty => AnswerForm::SlotEmpty,
        Answer::ArmFull => AnswerForm::ArmFull,
        Answer::Absent => AnswerForm::Absent,
        Answer::EpochEnded {
            epoch,
            event,
            unsure,
        } => {
            keep_two(*epoch, *event, bytes);
            AnswerForm::EpochEnded { unsure: *unsure }
        }
        Answer::Status { sw, event } => keep_status(*sw, *event, bytes),
        Answer::Loop { event } => {
            keep_number(*event, bytes);
            AnswerForm::Loop
        }
        Answer::BadFcp { event } => {
            keep_number(*event, bytes);
            AnswerForm::BadFcp
        }
        Answer::Loaded { publication } => {
            keep_number(*publication, bytes);
            AnswerForm::Loaded
        }
        Answer::Done {
            event,
            publication,
            left,
        } => keep_done(*event, *publication, left.as_slice(), bytes),
        Answer::NeedsPin { key } => AnswerForm::NeedsPin { key: *key },
        Answer::BadFile { width } => keep_bad_file(*width, bytes),
        Answer::NoRecord { at } => AnswerForm::NoRecord { at: *at },
        Answer::Full { count } => AnswerForm::Full { count: *count },
        Answer::NotWritable { found } => keep_not_writable(*found, bytes),
        Answer::NameTooLong { need, room } => {
            keep_two(*need as u64, *room as u64, bytes);
            AnswerForm::NameTooLong
        }
        Answer::BadDigit { at } => {
            keep_number(*at as u64, bytes);
            AnswerForm::BadDigit
        }
        Answer::NumberTooLong { count } => {
            keep_number(*count as u64, bytes);
            AnswerForm::NumberTooLong
        }
        Answer::ExtFull { count } => AnswerForm::ExtFull { count: *count },
        Answer::Opened { channel } => AnswerForm::Opened { channel: *channel },
        Answer::Exhausted { event } => {
            keep_number(*event, bytes);
            AnswerForm::Exhausted
        }
        Answer::Raw { response } => keep_response(response, bytes),
        Answer::RawRefused { ins } => AnswerForm::RawRefused { ins: *ins },
        Answer::NotHeldRef { handle } => AnswerForm::NotHeldRef { handle: *handle },
        Answer::NotHeldKey { key } => AnswerForm::NotHeldKey { key: *key },
        Answer::Closed => AnswerForm::Closed,
        Answer::Verified => AnswerForm::Verified,
        Answer::Ended => AnswerForm::Ended,
        Answer::Polled => AnswerForm::Polled,
        Answer::Look { seen } => keep_look(seen.count, seen.shown.as_slice(), bytes),
        Answer::Watching => AnswerForm::Watching,
        Answer::Notices { dropped, numbers } => keep_notices(*dropped, numbers.as_slice(), bytes),
    }
}

/// The line of this form and these bytes.
pub(crate) fn line_of(alloc: Global, form: Form, bytes: &[u8]) -> Result<Option<Line>, Memory>
    ensures { IfOk result (λ line. line ≡ spec.line_of form bytes.now) }
{
    match form {
        Form::Turn { actor } => Ok(Some(Line::Turn { actor })),
        Form::Begin { actor, op } => Ok(Some(Line::Begin { actor, op })),
        Form::Exchange { actor, command } => Ok(exchange_of(actor, command as usize, bytes)),
        Form::Failed { actor, acted } => Ok(failed_of(actor, acted, bytes)),
        Form::Reset { actor } => Ok(Some(Line::Reset { actor })),
        Form::ResetFailed { actor } => Ok(Some(Line::ResetFailed { actor })),
        Form::World { actor, event } => Ok(Some(Line::World { actor, event })),
        Form::Published { family } => {
            let (number, epoch, bytes) = take_two(bytes);
            let (point, bytes) = take_number(bytes);
            published_of(alloc, number, family, epoch, point, bytes)
        }
        Form::EpochEnd => Ok(Some(epoch_end_of(bytes))),
        Form::Refused { family } => Ok(Some(Line::Refused {
            family,
            event: first_number(bytes),
        })),
        Form::Answered { actor, op, answer } => answered_of(alloc, actor, op, answer, bytes),
    }
}

fn epoch_end_of(bytes: &[u8]) -> Line
    ensures { result ≡ spec.epoch_end_of bytes.now }
{
    let (number, epoch, bytes) = take_two(bytes);
    Line::EpochEnd {
        number,
        epoch,
        event: first_number(bytes),
    }
}

fn exchange_of(actor: u8, command: usize, bytes: &[u8]) -> Option<Line>
    ensures { result ≡ spec.exchange_of actor command bytes.now }
{
    if bytes.len() < command {
        return None;
    }
    let (sent, answered) = bytes.split_at(command);
    let command = Command::read(sent).ok()?;
    let response = Response::read(answered).ok()?;
    Some(Line::Exchange {
        actor,
        command,
        response,
    })
}

fn failed_of(actor: u8, acted: bool, bytes: &[u8]) -> Option<Line>
    ensures { result ≡ spec.failed_of actor acted bytes.now }
{
    let command = Command::read(bytes).ok()?;
    Some(Line::Failed {
        actor,
        command,
        acted,
    })
}

#[tactic(auto, using(crate::proofs::Entries::utf8_tests))]
fn published_of(
    alloc: Global,
    number: u64,
    family: u8,
    epoch: u64,
    point: u64,
    bytes: &[u8],
) -> Result<Option<Line>, Memory>
    ensures { IfOk result (λ line. line ≡ spec.published_of number family epoch point bytes.now) }
{
    let Ok(text) = from_utf8(bytes) else {
        return Ok(None);
    };
    let content = Text::from_str(alloc, text)?;
    Ok(Some(Line::Published {
        number,
        family,
        epoch,
        point,
        content,
    }))
}

fn answered_of(
    alloc: Global,
    actor: u8,
    op: u32,
    form: AnswerForm,
    bytes: &[u8],
) -> Result<Option<Line>, Memory>
    ensures { IfOk result
        (λ line. line ≡ spec.answered_of actor op (spec.answer_of form bytes.now)) }
{
    let Some(answer) = answer_of(alloc, form, bytes)? else {
        return Ok(None);
    };
    Ok(Some(Line::Answered { actor, op, answer }))
}

fn status_of(bytes: &[u8]) -> Answer
    ensures { result ≡ Answer.Status (record { 0 = spec.first_word bytes.now })
        (spec.second_number bytes.now) }
{
    let (_, event, _) = take_two(bytes);
    Answer::Status {
        sw: Sw(first_word(bytes)),
        event,
    }
}

/// The character of a code, or U+FFFD where it has none.
fn character(code: u64) -> char
    ensures { result ≡ spec.character code }
{
    if code > 0x10_FFFF {
        return char::REPLACEMENT_CHARACTER;
    }
    char::from_u32(code as u32).unwrap_or(char::REPLACEMENT_CHARACTER)
}

fn done_of(alloc: Global, bytes: &[u8]) -> Result<Answer, Memory>
    ensures { IfOk result (λ answer. answer ≡ spec.done_of bytes.now) }
{
    let (event, bytes) = take_number(bytes);
    let (publication, bytes) = take_place(bytes);
    let left = Bytes::from_slice(alloc, bytes)?;
    Ok(Answer::Done {
        event,
        publication,
        left,
    })
}

fn raw_of(bytes: &[u8]) -> Option<Answer>
    ensures { result ≡ spec.raw_of bytes.now }
{
    let response = Response::read(bytes).ok()?;
    Some(Answer::Raw { response })
}

fn look_of(families: u8, bytes: &[u8]) -> Option<Answer>
    ensures { result ≡ spec.look_of families bytes.now }
{
    let (count, bytes) = take_number(bytes);
    let shown = shown_of(families as usize, bytes)?;
    Some(Answer::Look {
        seen: Seen { count, shown },
    })
}

fn notices_of(count: u8, bytes: &[u8]) -> Option<Answer>
    ensures { result ≡ spec.notices_of count bytes.now }
{
    let (dropped, bytes) = take_number(bytes);
    let numbers = numbers_of(count as usize, bytes)?;
    Some(Answer::Notices { dropped, numbers })
}

fn answer_of(alloc: Global, form: AnswerForm, bytes: &[u8]) -> Result<Option<Answer>, Memory>
    ensures { IfOk result (λ answer. answer ≡ spec.answer_of form bytes.now) }
{
    Ok(match form {
        AnswerForm::Moved => Some(Answer::Moved),
        AnswerForm::SlotFull => Some(Answer::SlotFull),
        AnswerForm::SlotEmpty => Some(Answer::SlotEmpty),
        AnswerForm::ArmFull => Some(Answer::ArmFull),
        AnswerForm::Absent => Some(Answer::Absent),
        AnswerForm::EpochEnded { unsure } => {
            let (epoch, event, _) = take_two(bytes);
            Some(Answer::EpochEnded {
                epoch,
                event,
                unsure,
            })
        }
        AnswerForm::Status => Some(status_of(bytes)),
        AnswerForm::Loop => Some(Answer::Loop {
            event: first_number(bytes),
        }),
        AnswerForm::BadFcp => Some(Answer::BadFcp {
            event: first_number(bytes),
        }),
        AnswerForm::Loaded => Some(Answer::Loaded {
            publication: first_number(bytes),
        }),
        AnswerForm::Done => Some(done_of(alloc, bytes)?),
        AnswerForm::NeedsPin { key } => Some(Answer::NeedsPin { key }),
        AnswerForm::BadFile => Some(Answer::BadFile {
            width: first_word(bytes),
        }),
        AnswerForm::NoRecord { at } => Some(Answer::NoRecord { at }),
        AnswerForm::Full { count } => Some(Answer::Full { count }),
        AnswerForm::NotWritable => Some(Answer::NotWritable {
            found: character(first_number(bytes)),
        }),
        AnswerForm::NameTooLong => {
            let (need, room, _) = take_two(bytes);
            Some(Answer::NameTooLong {
                need: need as usize,
                room: room as usize,
            })
        }
        AnswerForm::BadDigit => Some(Answer::BadDigit {
            at: first_number(bytes) as usize,
        }),
        AnswerForm::NumberTooLong => Some(Answer::NumberTooLong {
            count: first_number(bytes) as usize,
        }),
        AnswerForm::ExtFull { count } => Some(Answer::ExtFull { count }),
        AnswerForm::Opened { channel } => Some(Answer::Opened { channel }),
        AnswerForm::Exhausted => Some(Answer::Exhausted {
            event: first_number(bytes),
        }),
        AnswerForm::Raw => raw_of(bytes),
        AnswerForm::RawRefused { ins } => Some(Answer::RawRefused { ins }),
        AnswerForm::NotHeldRef { handle } => Some(Answer::NotHeldRef { handle }),
        AnswerForm::NotHeldKey { key } => Some(Answer::NotHeldKey { key }),
        AnswerForm::Closed => Some(Answer::Closed),
        AnswerForm::Verified => Some(Answer::Verified),
        AnswerForm::Ended => Some(Answer::Ended),
        AnswerForm::Polled => Some(Answer::Polled),
        AnswerForm::Look { families } => look_of(families, bytes),
        AnswerForm::Watching => Some(Answer::Watching),
        AnswerForm::Notices { count } => notices_of(count, bytes),
    })
}
