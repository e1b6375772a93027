// The text of a report.
ghost use Rattle.std.specs.Prelude.{◌≡◌, ◌++◌, true, flat_map, reverse, slice_get, IfOk, OnOk};
ghost use Rattle.std.specs.Fmt.{radix_digits};
ghost use Rattle.std.specs.Option.{option_to_list};
ghost use Rattle.report.specs.Texts as spec;

use crate::{Answer, Line, Lines, Mode, Report, Seen};
use apdu::{Bytes, Command, Memory, Response, Text};
use card_model::WorldEvent;
use script::write_script;
use std::alloc::Global;

fn put(out: &mut String, text: &str) -> Result<(), Memory>
    ensures { OnOk result (spec.Puts out.old out.new text.now) }
{
    out.push_str(text)?;
    Ok(())
}

fn put_number(alloc: Global, out: &mut String, number: u64) -> Result<(), Memory>
    ensures { OnOk result (spec.Puts out.old out.new (spec.number_text number)) }
{
    put(out, " ")?;
    put(out, number.to_string(alloc)?.as_str())
}

fn put_hex(alloc: Global, out: &mut String, bytes: &[u8]) -> Result<(), Memory>
    ensures { OnOk result (spec.Puts out.old out.new (spec.hex_text bytes.now)) }
{
    put(out, " ")?;
    put(out, hex::encode_upper(alloc, bytes)?.as_str())
}

/// Puts a word and a number.
fn put_one(alloc: Global, out: &mut String, word: &str, number: u64) -> Result<(), Memory>
    ensures { OnOk result (spec.Puts out.old out.new (word.now ++ spec.number_text number)) }
{
    put(out, word)?;
    put_number(alloc, out, number)
}

/// Puts a word and two numbers.
fn put_two(
    alloc: Global,
    out: &mut String,
    word: &str,
    first: u64,
    second: u64,
) -> Result<(), Memory>
    ensures { OnOk result (spec.Puts out.old out.new
        (word.now ++ spec.number_text first ++ spec.number_text second)) }
{
    put_one(alloc, out, word, first)?;
    put_number(alloc, out, second)
}

/// Puts a word and a byte in hexadecimal.
fn put_byte(alloc: Global, out: &mut String, word: &str, byte: u8) -> Result<(), Memory>
    ensures { OnOk result (spec.Puts out.old out.new (word.now ++ spec.byte_text byte)) }
{
    put(out, word)?;
    put_hex(alloc, out, &[byte])
}

fn put_optional(alloc: Global, out: &mut String, number: Option<u64>) -> Result<(), Memory>
    ensures { OnOk result (spec.Puts out.old out.new (spec.optional_text number)) }
{
    match number {
        Some(number) => put_number(alloc, out, number),
        None => put(out, " -"),
    }
}

fn put_numbers(alloc: Global, out: &mut String, numbers: &[u64]) -> Result<(), Memory>
    ensures { OnOk result (spec.Puts out.old out.new (spec.numbers_text numbers.now)) }
{
    for number in numbers {
        put_number(alloc, out, *number)?;
    }
    Ok(())
}

fn put_shown(alloc: Global, out: &mut String, shown: &[Option<u64>]) -> Result<(), Memory>
    ensures { OnOk result (spec.Puts out.old out.new (spec.shown_text shown.now)) }
{
    for number in shown {
        put_optional(alloc, out, *number)?;
    }
    Ok(())
}

fn put_comma(alloc: Global, out: &mut String, row: u8) -> Result<(), Memory>
    ensures { OnOk result (spec.Puts out.old out.new (spec.comma_text row)) }
{
    put(out, ",")?;
    put(out, row.to_string(alloc)?.as_str())
}

fn put_others(alloc: Global, out: &mut String, rows: &[u8]) -> Result<(), Memory>
    ensures { OnOk result (spec.Puts out.old out.new (flat_map spec.comma_text rows.now)) }
{
    for row in rows {
        put_comma(alloc, out, *row)?;
    }
    Ok(())
}

fn put_rows(alloc: Global, out: &mut String, rows: &[u8]) -> Result<(), Memory>
    ensures { OnOk result (spec.Puts out.old out.new (spec.rows_text rows.now)) }
{
    match rows {
        [] => put(out, " -"),
        [first, others @ ..] => {
            put_number(alloc, out, u64::from(*first))?;
            put_others(alloc, out, others)
        }
    }
}

fn put_unsure(out: &mut String, unsure: bool) -> Result<(), Memory>
    ensures { OnOk result (spec.Puts out.old out.new (spec.unsure_text unsure)) }
{
    if unsure { put(out, " unsure") } else { Ok(()) }
}

fn put_epoch_ended(
    alloc: Global,
    out: &mut String,
    epoch: u64,
    event: u64,
    unsure: bool,
) -> Result<(), Memory>
    ensures { OnOk result (spec.Puts out.old out.new
        (spec.answer_text (Answer.EpochEnded epoch event unsure))) }
{
    put_two(alloc, out, " epoch-ended", epoch, event)?;
    put_unsure(out, unsure)
}

fn put_status(alloc: Global, out: &mut String, sw: u16, event: u64) -> Result<(), Memory>
    ensures { OnOk result (spec.Puts out.old out.new (spec.status_text sw event)) }
{
    put(out, " status")?;
    put_hex(alloc, out, &[(sw / 256) as u8, (sw % 256) as u8])?;
    put_number(alloc, out, event)
}

fn put_done(
    alloc: Global,
    out: &mut String,
    event: u64,
    publication: Option<u64>,
    left: &Bytes,
) -> Result<(), Memory>
    ensures { OnOk result (spec.Puts out.old out.new
        (spec.answer_text (Answer.Done event publication left.now))) }
{
    put_one(alloc, out, " done", event)?;
    put_optional(alloc, out, publication)?;
    put_rows(alloc, out, left.as_slice())
}

fn put_name_too_long(
    alloc: Global,
    out: &mut String,
    need: usize,
    room: usize,
) -> Result<(), Memory>
    ensures { OnOk result (spec.Puts out.old out.new
        (spec.answer_text (Answer.NameTooLong need room))) }
{
    put_two(alloc, out, " name-too-long", need as u64, room as u64)
}

/// Puts a word and a number in hexadecimal.
fn put_hex_number(alloc: Global, out: &mut String, word: &str, number: u32) -> Result<(), Memory>
    ensures { OnOk result (spec.Puts out.old out.new
        (word.now ++ spec.word (radix_digits 16 true number))) }
{
    put(out, word)?;
    put(out, " ")?;
    let digits = format!(in alloc; "{:X}", number)?;
    put(out, digits.as_str())
}

fn put_command(alloc: Global, out: &mut String, command: &Command) -> Result<(), Memory>
    ensures { OnOk result (spec.Puts out.old out.new (spec.command_text command.now)) }
{
    put_hex(alloc, out, command.write().as_slice())
}

fn put_response(alloc: Global, out: &mut String, response: &Response) -> Result<(), Memory>
    ensures { OnOk result (spec.Puts out.old out.new (spec.response_text response.now)) }
{
    put_hex(alloc, out, response.write().as_slice())
}

fn put_raw(alloc: Global, out: &mut String, response: &Response) -> Result<(), Memory>
    ensures { OnOk result (spec.Puts out.old out.new (spec.answer_text (Answer.Raw response.now))) }
{
    put(out, " raw")?;
    put_response(alloc, out, response)
}

fn put_look(alloc: Global, out: &mut String, seen: &Seen) -> Result<(), Memory>
    ensures { OnOk result (spec.Puts out.old out.new (spec.answer_text (Answer.Look seen.now))) }
{
    put_one(alloc, out, " look", seen.count)?;
    put_shown(alloc, out, seen.shown.as_slice())
}

fn put_notices(alloc: Global, out: &mut String, dropped: u64, numbers: &[u64]) -> Result<(), Memory>
    ensures { OnOk result (spec.Puts out.old out.new (spec.notices_text dropped numbers.now)) }
{
    put_one(alloc, out, " notices", dropped)?;
    put_numbers(alloc, out, numbers)
}

fn put_answer(alloc: Global, out: &mut String, answer: &Answer) -> Result<(), Memory>
    ensures { OnOk result (spec.Puts out.old out.new (spec.answer_text answer.now)) }
{
    match answer {
        Answer::Moved => put(out, " moved"),
        Answer::SlotFull => put(out, " slot-full"),
        Answer::SlotEmpty => put(out, " slot-empty"),
        Answer::ArmFull => put(out, " arm-full"),
        Answer::Absent => put(out, " absent"),
        Answer::EpochEnded {
            epoch,
            event,
            unsure,
        } => put_epoch_ended(alloc, out, *epoch, *event, *unsure),
        Answer::Status { sw, event } => put_status(alloc, out, sw.0, *event),
        Answer::Loop { event } => put_one(alloc, out, " loop", *event),
        Answer::BadFcp { event } => put_one(alloc, out, " bad-fcp", *event),
        Answer::Loaded { publication } => put_one(alloc, out, " loaded", *publication),
        Answer::Done {
            event,
            publication,
            left,
        } => put_done(alloc, out, *event, *publication, left),
        Answer::NeedsPin { key } => put_byte(alloc, out, " needs-pin", *key),
        Answer::BadFile { width } => put_one(alloc, out, " bad-file", u64::from(*width)),
        Answer::NoRecord { at } => put_one(alloc, out, " no-record", u64::from(*at)),
        Answer::Full { count } => put_one(alloc, out, " full", u64::from(*count)),
        Answer::NotWritable { found } => put_hex_number(alloc, out, " not-writable", *found as u32),
        Answer::NameTooLong { need, room } => put_name_too_long(alloc, out, *need, *room),
        Answer::BadDigit { at } => put_one(alloc, out, " bad-digit", *at as u64),
        Answer::NumberTooLong { count } => put_one(alloc, out, " number-too-long", *count as u64),
        Answer::ExtFull { count } => put_one(alloc, out, " ext-full", u64::from(*count)),
        Answer::Opened { channel } => put_one(alloc, out, " opened", u64::from(*channel)),
        Answer::Exhausted { event } => put_one(alloc, out, " exhausted", *event),
        Answer::Raw { response } => put_raw(alloc, out, response),
        Answer::RawRefused { ins } => put_byte(alloc, out, " raw-refused", *ins),
        Answer::NotHeldRef { handle } => put_one(alloc, out, " not-held", u64::from(*handle)),
        Answer::NotHeldKey { key } => put_byte(alloc, out, " not-held", *key),
        Answer::Closed => put(out, " closed"),
        Answer::Verified => put(out, " verified"),
        Answer::Ended => put(out, " ended"),
        Answer::Polled => put(out, " polled"),
        Answer::Look { seen } => put_look(alloc, out, seen),
        Answer::Watching => put(out, " watching"),
        Answer::Notices { dropped, numbers } => {
            put_notices(alloc, out, *dropped, numbers.as_slice())
        }
    }
}

fn put_event(alloc: Global, out: &mut String, event: WorldEvent) -> Result<(), Memory>
    ensures { OnOk result (spec.Puts out.old out.new (spec.event_text event)) }
{
    match event {
        WorldEvent::Arm(change) => put_one(alloc, out, " arm", u64::from(change)),
        WorldEvent::Out => put(out, " out"),
        WorldEvent::Insert(card) => put_one(alloc, out, " in", u64::from(card)),
    }
}

fn put_family(out: &mut String, family: u8) -> Result<(), Memory>
    ensures { OnOk result (spec.Puts out.old out.new (spec.family_text family)) }
{
    match family {
        0 => put(out, " records"),
        1 => put(out, " phonebook"),
        _ => put(out, " fixed"),
    }
}

fn put_acted(out: &mut String, acted: bool) -> Result<(), Memory>
    ensures { OnOk result (spec.Puts out.old out.new (spec.acted_text acted)) }
{
    put(out, if acted { " 1" } else { " 0" })
}

fn put_exchange(
    alloc: Global,
    out: &mut String,
    actor: u8,
    command: &Command,
    response: &Response,
) -> Result<(), Memory>
    ensures { OnOk result (spec.Puts out.old out.new
        (spec.line_words (Line.Exchange actor command.now response.now))) }
{
    put_one(alloc, out, "x", u64::from(actor))?;
    put_command(alloc, out, command)?;
    put_response(alloc, out, response)
}

fn put_failed(
    alloc: Global,
    out: &mut String,
    actor: u8,
    command: &Command,
    acted: bool,
) -> Result<(), Memory>
    ensures { OnOk result (spec.Puts out.old out.new
        (spec.line_words (Line.Failed actor command.now acted))) }
{
    put_one(alloc, out, "f", u64::from(actor))?;
    put_command(alloc, out, command)?;
    put_acted(out, acted)
}

fn put_world(alloc: Global, out: &mut String, actor: u8, event: WorldEvent) -> Result<(), Memory>
    ensures { OnOk result (spec.Puts out.old out.new (spec.line_words (Line.World actor event))) }
{
    put_one(alloc, out, "w", u64::from(actor))?;
    put_event(alloc, out, event)
}

fn put_published(
    alloc: Global,
    out: &mut String,
    number: u64,
    family: u8,
    epoch: u64,
    point: u64,
    content: &Text,
) -> Result<(), Memory>
    ensures { OnOk result (spec.Puts out.old out.new
        (spec.line_words (Line.Published number family epoch point content.now))) }
{
    put_one(alloc, out, "p", number)?;
    put_family(out, family)?;
    put_number(alloc, out, epoch)?;
    put_number(alloc, out, point)?;
    put(out, " ")?;
    put(out, content.as_str())
}

fn put_epoch_end(
    alloc: Global,
    out: &mut String,
    number: u64,
    epoch: u64,
    event: u64,
) -> Result<(), Memory>
    ensures { OnOk result (spec.Puts out.old out.new
        (spec.line_words (Line.EpochEnd number epoch event))) }
{
    put_two(alloc, out, "z", number, epoch)?;
    put_number(alloc, out, event)
}

fn put_refused(alloc: Global, out: &mut String, family: u8, event: u64) -> Result<(), Memory>
    ensures { OnOk result (spec.Puts out.old out.new
        (spec.line_words (Line.Refused family event))) }
{
    put(out, "d")?;
    put_family(out, family)?;
    put_number(alloc, out, event)
}

fn put_answered(
    alloc: Global,
    out: &mut String,
    actor: u8,
    op: u32,
    answer: &Answer,
) -> Result<(), Memory>
    ensures { OnOk result (spec.Puts out.old out.new
        (spec.line_words (Line.Answered actor op answer.now))) }
{
    put_two(alloc, out, "a", u64::from(actor), u64::from(op))?;
    put_answer(alloc, out, answer)
}

fn put_words(alloc: Global, out: &mut String, line: &Line) -> Result<(), Memory>
    ensures { OnOk result (spec.Puts out.old out.new (spec.line_words line.now)) }
{
    match line {
        Line::Turn { actor } => put_one(alloc, out, "t", u64::from(*actor)),
        Line::Begin { actor, op } => put_two(alloc, out, "b", u64::from(*actor), u64::from(*op)),
        Line::Exchange {
            actor,
            command,
            response,
        } => put_exchange(alloc, out, *actor, command, response),
        Line::Failed {
            actor,
            command,
            acted,
        } => put_failed(alloc, out, *actor, command, *acted),
        Line::Reset { actor } => put_one(alloc, out, "r", u64::from(*actor)),
        Line::ResetFailed { actor } => put_one(alloc, out, "q", u64::from(*actor)),
        Line::World { actor, event } => put_world(alloc, out, *actor, *event),
        Line::Published {
            number,
            family,
            epoch,
            point,
            content,
        } => put_published(alloc, out, *number, *family, *epoch, *point, content),
        Line::EpochEnd {
            number,
            epoch,
            event,
        } => put_epoch_end(alloc, out, *number, *epoch, *event),
        Line::Refused { family, event } => put_refused(alloc, out, *family, *event),
        Line::Answered { actor, op, answer } => put_answered(alloc, out, *actor, *op, answer),
    }
}

fn put_line(alloc: Global, out: &mut String, line: &Line) -> Result<(), Memory>
    ensures { OnOk result (spec.Puts out.old out.new (spec.line_text line.now)) }
{
    put_words(alloc, out, line)?;
    put(out, "\n")
}

/// Puts the line of this index, where there is one.
fn put_line_at(alloc: Global, out: &mut String, lines: &Lines, at: usize) -> Result<(), Memory>
    ensures { OnOk result (spec.Puts out.old out.new
        (flat_map spec.line_text (option_to_list (slice_get (reverse lines.now) at)))) }
{
    match lines.get(at)? {
        Some(line) => put_line(alloc, out, &line),
        None => Ok(()),
    }
}

fn put_lines(alloc: Global, out: &mut String, lines: &Lines) -> Result<(), Memory>
    ensures { OnOk result (spec.Puts out.old out.new (spec.lines_text lines.now)) }
{
    for at in 0..lines.len() {
        put_line_at(alloc, out, lines, at)?;
    }
    Ok(())
}

fn put_mode(out: &mut String, mode: Mode) -> Result<(), Memory>
    ensures { OnOk result (spec.Puts out.old out.new (spec.mode_text mode)) }
{
    match mode {
        Mode::Replay => put(out, "\nmode replay\n"),
        Mode::Run => put(out, "\nmode run\n"),
    }
}

/// The text of a line, with the line feed that ends it.
pub fn write_line(alloc: Global, line: &Line) -> Result<Text, Memory>
    ensures { IfOk result (λ text. text ≡ spec.line_text line.now) }
{
    let mut out = String::new(alloc);
    put_line(alloc, &mut out, line)?;
    Ok(Text::from_string(out))
}

/// The text of a report: a line for the script, one for the mode, one for each of its lines, and `end`.
pub fn write_report(alloc: Global, report: &Report) -> Result<Bytes, Memory>
    ensures { IfOk result (λ bytes. bytes ≡ spec.report_text report.now) }
{
    let mut out = String::new(alloc);
    put(&mut out, "script ")?;
    put(&mut out, write_script(alloc, &report.script)?.as_str())?;
    put_mode(&mut out, report.mode)?;
    put_lines(alloc, &mut out, &report.lines)?;
    put(&mut out, "end\n")?;
    Ok(Bytes::from_vec(out.into_bytes()))
}
