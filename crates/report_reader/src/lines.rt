// The lines of a report, each read by its first word.
ghost use Rattle.std.specs.Prelude.{◌≡◌};
ghost use Rattle.report_reader.specs.Reads.{ReadsAs, texts};
ghost use Rattle.report_reader.specs.Lines as spec;

use crate::answers::answer_of;
use crate::content::content;
use crate::error::LineError;
use crate::words::{
    behind_word, byte, command, family, first_word, is_word, number, number_to, parts_of, response,
};
use card_model::WorldEvent;
use report::Line;
use script::{Operation, Script};
use std::alloc::Global;

/// The number of an operation among those of its actor.
fn place(word: &[u8]) -> Result<u32, LineError>
    ensures { ReadsAs (spec.place word.now) result }
{
    Ok(number_to(4_294_967_295, word)? as u32)
}

/// The actor of a line that names it alone.
fn actor_of(words: &[&[u8]]) -> Result<u8, LineError>
    ensures { ReadsAs (spec.actor_of (texts words.now)) result }
{
    match words {
        [actor] => byte(actor),
        _ => Err(LineError::NoPlace),
    }
}

fn begin(words: &[&[u8]]) -> Result<Line, LineError>
    ensures { ReadsAs (spec.begin (texts words.now)) result }
{
    let [actor, op] = words else {
        return Err(LineError::NoPlace);
    };
    let actor = byte(actor)?;
    let op = place(op)?;
    Ok(Line::Begin { actor, op })
}

fn exchange_of(alloc: Global, actor: &[u8], sent: &[u8], answered: &[u8]) -> Result<Line, LineError>
    ensures { ReadsAs (spec.exchange_of actor.now sent.now answered.now) result }
{
    let actor = byte(actor)?;
    let command = command(alloc, sent)?;
    let response = response(alloc, answered)?;
    Ok(Line::Exchange {
        actor,
        command,
        response,
    })
}

#[tactic(auto, using(crate::proofs::Counts::other_count, crate::proofs::Counts::three_words))]
fn exchange(alloc: Global, words: &[&[u8]]) -> Result<Line, LineError>
    ensures { ReadsAs (spec.exchange (texts words.now)) result }
{
    if words.len() != 3 {
        return Err(LineError::NoPlace);
    }
    exchange_of(alloc, words[0], words[1], words[2])
}

/// Whether the card acted, as 1 or 0.
fn acted_of(word: &[u8]) -> Result<bool, LineError>
    ensures { ReadsAs (spec.acted_of word.now) result }
{
    if is_word(word, "1") {
        Ok(true)
    } else if is_word(word, "0") {
        Ok(false)
    } else {
        Err(LineError::NoPlace)
    }
}

fn failed(alloc: Global, words: &[&[u8]]) -> Result<Line, LineError>
    ensures { ReadsAs (spec.failed (texts words.now)) result }
{
    let [actor, sent, acted] = words else {
        return Err(LineError::NoPlace);
    };
    let actor = byte(actor)?;
    let command = command(alloc, sent)?;
    let acted = acted_of(acted)?;
    Ok(Line::Failed {
        actor,
        command,
        acted,
    })
}

fn epoch_end(words: &[&[u8]]) -> Result<Line, LineError>
    ensures { ReadsAs (spec.epoch_end (texts words.now)) result }
{
    let [publication, epoch, event] = words else {
        return Err(LineError::NoPlace);
    };
    let publication = number(publication)?;
    let epoch = number(epoch)?;
    let event = number(event)?;
    Ok(Line::EpochEnd {
        number: publication,
        epoch,
        event,
    })
}

fn named_event(name: &[u8], word: &[u8]) -> Result<WorldEvent, LineError>
    ensures { ReadsAs (spec.named_event name.now word.now) result }
{
    if is_word(name, "arm") {
        Ok(WorldEvent::Arm(byte(word)?))
    } else if is_word(name, "in") {
        Ok(WorldEvent::Insert(byte(word)?))
    } else {
        Err(LineError::NoPlace)
    }
}

fn out(name: &[u8]) -> Result<WorldEvent, LineError>
    ensures { ReadsAs (spec.out name.now) result }
{
    if is_word(name, "out") {
        Ok(WorldEvent::Out)
    } else {
        Err(LineError::NoPlace)
    }
}

fn event_of(words: &[&[u8]]) -> Result<WorldEvent, LineError>
    ensures { ReadsAs (spec.event_of (texts words.now)) result }
{
    match words {
        [name] => out(name),
        [name, word] => named_event(name, word),
        _ => Err(LineError::NoPlace),
    }
}

fn world(words: &[&[u8]]) -> Result<Line, LineError>
    ensures { ReadsAs (spec.world (texts words.now)) result }
{
    let [actor, behind @ ..] = words else {
        return Err(LineError::NoPlace);
    };
    let actor = byte(actor)?;
    let event = event_of(behind)?;
    Ok(Line::World { actor, event })
}

fn refused(words: &[&[u8]]) -> Result<Line, LineError>
    ensures { ReadsAs (spec.refused (texts words.now)) result }
{
    let [name, event] = words else {
        return Err(LineError::NoPlace);
    };
    let family = family(name)?;
    let event = number(event)?;
    Ok(Line::Refused { family, event })
}

/// Whether operation `op` of the actor is an `end`.
fn ends(script: &Script, actor: u8, op: u32) -> bool
    ensures { result ≡ spec.ends script.now actor op }
{
    if actor == 0 {
        return false;
    }
    let Some(operations) = script.actors.get(usize::from(actor) - 1) else {
        return false;
    };
    match operations.get(op as usize) {
        Some(Operation::End { .. }) => true,
        _ => false,
    }
}

#[tactic(auto, using(crate::proofs::Counts::few_words))]
fn answered(alloc: Global, script: &Script, words: &[&[u8]]) -> Result<Line, LineError>
    ensures { ReadsAs (spec.answered script.now (texts words.now)) result }
{
    let [actor, op, name, fields @ ..] = words else {
        return Err(LineError::NoPlace);
    };
    let actor = byte(actor)?;
    let op = place(op)?;
    let answer = answer_of(alloc, ends(script, actor, op), name, fields)?;
    Ok(Line::Answered { actor, op, answer })
}

fn published_of(
    alloc: Global,
    publication: &[u8],
    name: &[u8],
    epoch: &[u8],
    point: &[u8],
    text: &[u8],
) -> Result<Line, LineError>
    ensures { ReadsAs
        (spec.published_of publication.now name.now epoch.now point.now text.now) result }
{
    let publication = number(publication)?;
    let family = family(name)?;
    let epoch = number(epoch)?;
    let point = number(point)?;
    let content = content(alloc, text)?;
    Ok(Line::Published {
        number: publication,
        family,
        epoch,
        point,
        content,
    })
}

/// The line of a publication, whose content is all that stands behind four words.
fn published(alloc: Global, text: &[u8]) -> Result<Line, LineError>
    ensures { ReadsAs (spec.published text.now) result }
{
    let behind_number = behind_word(text);
    let behind_name = behind_word(behind_number);
    let behind_epoch = behind_word(behind_name);
    published_of(
        alloc,
        first_word(text),
        first_word(behind_number),
        first_word(behind_name),
        first_word(behind_epoch),
        behind_word(behind_epoch),
    )
}

fn event_line(alloc: Global, kind: &[u8], words: &[&[u8]]) -> Result<Line, LineError>
    ensures { ReadsAs (spec.event_line kind.now (texts words.now)) result }
{
    if is_word(kind, "x") {
        exchange(alloc, words)
    } else if is_word(kind, "f") {
        failed(alloc, words)
    } else if is_word(kind, "r") {
        Ok(Line::Reset {
            actor: actor_of(words)?,
        })
    } else if is_word(kind, "q") {
        Ok(Line::ResetFailed {
            actor: actor_of(words)?,
        })
    } else if is_word(kind, "w") {
        world(words)
    } else {
        Err(LineError::NoPlace)
    }
}

fn line_of_words(
    alloc: Global,
    script: &Script,
    kind: &[u8],
    words: &[&[u8]],
) -> Result<Line, LineError>
    ensures { ReadsAs (spec.line_of_words script.now kind.now (texts words.now)) result }
{
    if is_word(kind, "t") {
        Ok(Line::Turn {
            actor: actor_of(words)?,
        })
    } else if is_word(kind, "b") {
        begin(words)
    } else if is_word(kind, "a") {
        answered(alloc, script, words)
    } else if is_word(kind, "z") {
        epoch_end(words)
    } else if is_word(kind, "d") {
        refused(words)
    } else {
        event_line(alloc, kind, words)
    }
}

/// The line of this text, among those of a run of the script.
pub(crate) fn line_of(alloc: Global, script: &Script, text: &[u8]) -> Result<Line, LineError>
    ensures { ReadsAs (spec.line_of script.now text.now) result }
{
    let kind = first_word(text);
    let behind = behind_word(text);
    if is_word(kind, "p") {
        return published(alloc, behind);
    }
    let words = parts_of(alloc, b' ', behind)?;
    line_of_words(alloc, script, kind, words.as_slice())
}
