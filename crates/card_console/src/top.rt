// All that the program does, over any source and sink.
ghost use Rattle.std.specs.Prelude.{◌≡◌, true, List, ℕ, map, IsTrue, IfSome, IfOk};
ghost use Rattle.apdu.specs.Stream.{Rose};
ghost use Rattle.script_reader.specs.Rules.{keeps_rules};
ghost use Rattle.script_reader.specs.Scripts.{script_of_bytes};
ghost use Rattle.streams.specs.Streams.{HasMore, Wrote};
ghost use Rattle.card_console.specs.Top.{line_of, is_status, conversation_limit, answer_of, answer_of_reading, answer_of_script, IsDue, Tells, IsPlayed, IsRefused, WritesPart, Writes, Ends};

use crate::lines::parts_of;
use crate::play::{put_lines, slot_of};
use crate::text::{bad_text, put, refused_text};
use apdu::{Bytes, Memory, Sink, Source};
use script::{Script, ScriptError, read_script};
use std::alloc::Global;
use streams::{Input, Streams, read_all, write_piece};

/// How a call ends, if the sink takes what it writes.
#[derive(Drop)]
pub enum Ending {
    /// The conversation was played; this is it with its answers.
    Played { text: Bytes },
    /// The bytes are no conversation; this line tells why.
    Refused { line: Bytes },
    /// The source gave more bytes than a conversation may have.
    TooLong,
    /// The source failed.
    ReadFault,
    /// Memory ran out.
    Memory,
}

/// The most bytes that a conversation may have.
fn conversation_limit() -> usize
    ensures { result ≡ conversation_limit }
{
    16_777_216
}

/// The ending of a script, whose text is the first line, and the lines behind it.
fn play_script(
    alloc: Global,
    script: &Script,
    first: &[u8],
    lines: &[&[u8]],
) -> Result<Ending, Memory>
    requires { keeps_rules script.now ≡ true }
    ensures { IfOk result (Tells (answer_of_script first.now
        (map (λ line. line.now) lines.now) script.now)) }
{
    let mut slot = slot_of(alloc, script)?;
    let mut out = first.to_vec(alloc)?;
    put(&mut out, "\n")?;
    match put_lines(alloc, &mut out, &mut slot, lines)? {
        None => Ok(Ending::Played {
            text: Bytes::from_vec(out),
        }),
        Some(number) => Ok(Ending::Refused {
            line: bad_text(alloc, number)?,
        }),
    }
}

/// The ending of a first line and the lines behind it.
fn play_first(alloc: Global, first: &[u8], lines: &[&[u8]]) -> Result<Ending, Memory>
    ensures { IfOk result (Tells (answer_of_reading first.now
        (map (λ line. line.now) lines.now) (script_of_bytes first.now))) }
{
    match read_script(alloc, first) {
        Ok(script) => play_script(alloc, &script, first, lines),
        Err(ScriptError::Refused { part, index, why }) => Ok(Ending::Refused {
            line: refused_text(alloc, part, index, why)?,
        }),
        Err(ScriptError::Memory) => Err(Memory),
    }
}

/// The ending of bytes that were read.
fn play_bytes(alloc: Global, bytes: &[u8]) -> Result<Ending, Memory>
    ensures { IfOk result (Tells (answer_of bytes.now)) }
{
    let lines = parts_of(alloc, b'\n', bytes)?;
    match lines.as_slice() {
        [first, behind @ ..] => play_first(alloc, first, behind),
        [] => play_first(alloc, &[], &[]),
    }
}

/// How the call ends.
fn ending_of<S: Source, K: Sink>(alloc: Global, streams: &mut Streams<S, K>) -> Ending
    ensures due { IsDue streams.old.source streams.new.source result }
    ensures sink { streams.new.sink ≡ streams.old.sink }
{
    match read_all(alloc, conversation_limit(), streams) {
        Ok(Input::All(bytes)) => play_bytes(alloc, bytes.as_slice()).unwrap_or(Ending::Memory),
        Ok(Input::TooLong) => Ending::TooLong,
        Ok(Input::Fault) => Ending::ReadFault,
        Err(_) => Ending::Memory,
    }
}

/// Writes the piece with which a call of this status ends.
fn end_with<S: Source, K: Sink>(streams: &mut Streams<S, K>, status: u8, piece: &[u8]) -> u8
    ensures writes { Writes status piece.now streams.old.sink streams.new.sink result }
    ensures source { streams.new.source ≡ streams.old.source }
{
    match write_piece(streams, piece) {
        Ok(()) => status,
        Err(_) => 5,
    }
}

/// Writes what the ending writes.
#[tactic(auto, unfolding(crate::specs::Top::too_long_line, crate::specs::Top::read_fault_line, crate::specs::Top::memory_line))]
fn write_ending<S: Source, K: Sink>(streams: &mut Streams<S, K>, ending: Ending) -> u8
    ensures ends { Ends ending streams.old.sink streams.new.sink result }
    ensures source { streams.new.source ≡ streams.old.source }
{
    match ending {
        Ending::Played { text } => end_with(streams, 0, text.as_slice()),
        Ending::Refused { line } => end_with(streams, 3, line.as_slice()),
        Ending::TooLong => end_with(streams, 8, b"too long\n"),
        Ending::ReadFault => end_with(streams, 4, b"read fault\n"),
        Ending::Memory => end_with(streams, 9, b"memory\n"),
    }
}

/// All that the program does: plays the conversation that the source gives, and writes it with its
/// answers, or the line that says what went wrong; the result is the status.
pub fn top<S: Source, K: Sink>(alloc: Global, streams: &mut Streams<S, K>) -> u8
    ensures played { result ≡ 0 → IsPlayed streams.old streams.new }
    ensures refused { result ≡ 3 → IsRefused streams.old streams.new }
    ensures read { result ≡ 4 → Rose streams.old.source.faults streams.new.source.faults }
    ensures write { result ≡ 5 → Rose streams.old.sink.faults streams.new.sink.faults }
    ensures too_long { result ≡ 8
        → HasMore conversation_limit streams.old.source streams.new.source }
    ensures known { IsTrue (is_status result) }
    ensures line { IfSome (line_of result) (Wrote streams.old streams.new) }
    ensures part { result ≡ 5 → WritesPart streams.old streams.new }
{
    let ending = ending_of(alloc, streams);
    write_ending(streams, ending)
}
