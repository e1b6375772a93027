// All that the program does, over any source and sink.
ghost use Rattle.std.specs.Prelude.{◌≡◌, ◌≢◌, ◌≤◌, true, false, IsTrue, IfSome, None};
ghost use Rattle.apdu.specs.Stream.{Rose};
ghost use Rattle.streams.specs.Streams.{HasMore, Wrote};
ghost use Rattle.script_reader.specs.Rules.{keeps_rules};
ghost use Rattle.subcommands.specs.Subcommands.{HasSize, subcommand_of};
ghost use Rattle.uicc_replay.specs.Checking.{HasChecked};
ghost use Rattle.uicc_replay.specs.Top.{served, reads, line_of, is_status, script_limit, limit_of, IsDue, IsDueOfSource, IsDueOfBytes, IsDueOfScript, IsDueOfReport, IsDueOfBudget, IsDueOfLine, IsDueOfSizes, IsDone, IsRefused, IsBudgetSpent, WritesPart, Writes, Ends};

use crate::bulk::ending_of_bulk;
use crate::check::{Verdict, ending_of_check};
use crate::text::{budget_text, generated_text, refused_text};
use apdu::{Bytes, Memory, Sink, Source, Text};
use replay::{Replayed, replay};
use report::{Report, write_report};
use script::{Script, ScriptError, read_script};
use std::alloc::Global;
use streams::{Input, Streams, read_all};
use subcommands::{Subcommand, read_words};

/// How a call of the program ended: its status, and the report where there is one.
#[derive(Drop)]
pub struct Outcome {
    pub status: u8,
    pub report: Option<Report>,
}

/// How a call ends, if the sink takes what it writes.
#[derive(Drop)]
pub enum Ending {
    /// The words are no command that is served.
    Usage,
    /// The source gave more bytes than a script, or a report, may have.
    TooLong,
    /// The bytes are not replayed; this line tells why.
    Refused { line: Text },
    /// The source failed.
    ReadFault,
    /// The budget is spent, and the run is not finished; this line tells how many events it has.
    Spent { line: Text },
    /// Memory ran out.
    Memory,
    /// The script was replayed; this is the report and its text.
    Replayed { report: Report, text: Bytes },
    /// The script was generated; this is its text.
    Generated { text: Bytes },
    /// This is said of the report; this line tells it.
    Checked { verdict: Verdict, line: Text },
    /// The generated script was replayed; this is the report, and the line that tells how much that did.
    Counted { report: Report, line: Text },
}

/// The most bytes that a script may have.
fn script_limit() -> usize
    ensures { result ≡ script_limit }
{
    8_388_608
}

/// The ending of bytes that are not replayed, with the line that tells why.
fn ending_of_line(line: Result<Text, Memory>) -> Ending
    ensures { IsDueOfLine line result }
{
    match line {
        Ok(line) => Ending::Refused { line },
        Err(_) => Ending::Memory,
    }
}

/// The ending of a run whose budget is spent by so many events.
pub fn ending_of_budget(alloc: Global, events: u64) -> Ending
    ensures { IsDueOfBudget events result }
{
    match budget_text(alloc, events) {
        Ok(line) => Ending::Spent { line },
        Err(_) => Ending::Memory,
    }
}

/// The ending of a report.
fn ending_of_report(alloc: Global, report: Report) -> Ending
    ensures { IsDueOfReport report result }
{
    match write_report(alloc, &report) {
        Ok(text) => Ending::Replayed { report, text },
        Err(_) => Ending::Memory,
    }
}

/// The ending of a script.
fn ending_of_script(alloc: Global, script: Script) -> Ending
    requires { keeps_rules script ≡ true }
    ensures { IsDueOfScript script result }
{
    match replay(alloc, script) {
        Ok(Replayed::Finished(report)) => ending_of_report(alloc, report),
        Ok(Replayed::Spent { events }) => ending_of_budget(alloc, events),
        Err(_) => Ending::Memory,
    }
}

/// The ending of bytes that were read.
fn ending_of_bytes(alloc: Global, bytes: &[u8]) -> Ending
    ensures { IsDueOfBytes bytes.now result }
{
    match read_script(alloc, bytes) {
        Ok(script) => ending_of_script(alloc, script),
        Err(ScriptError::Refused { part, index, why }) => {
            ending_of_line(refused_text(alloc, part, index, why))
        }
        Err(ScriptError::Memory) => Ending::Memory,
    }
}

/// The ending of the script of a seed and a size.
fn ending_of_sizes(alloc: Global, seed: u32, size: u16) -> Ending
    requires some { 1 ≤ size }
    requires few { size ≤ 250 }
    ensures { IsDueOfSizes seed size result }
{
    match generated_text(alloc, seed, size) {
        Ok(text) => Ending::Generated { text },
        Err(_) => Ending::Memory,
    }
}

/// How a replay ends.
fn ending_of_source<S: Source, K: Sink>(alloc: Global, streams: &mut Streams<S, K>) -> Ending
    ensures due { IsDueOfSource streams.old.source streams.new.source result }
    ensures sink { streams.new.sink ≡ streams.old.sink }
{
    match read_all(alloc, script_limit(), streams) {
        Ok(Input::All(bytes)) => ending_of_bytes(alloc, bytes.as_slice()),
        Ok(Input::TooLong) => Ending::TooLong,
        Ok(Input::Fault) => Ending::ReadFault,
        Err(_) => Ending::Memory,
    }
}

/// How a call of this command ends.
fn ending_of_command<S: Source, K: Sink>(
    alloc: Global,
    command: Option<Subcommand>,
    streams: &mut Streams<S, K>,
) -> Ending
    requires { IfSome command HasSize }
    ensures due { IsDue command streams.old.source streams.new.source result }
    ensures sink { streams.new.sink ≡ streams.old.sink }
{
    match command {
        Some(Subcommand::Replay) => ending_of_source(alloc, streams),
        Some(Subcommand::Check) => ending_of_check(alloc, streams),
        Some(Subcommand::Generate { seed, size }) => ending_of_sizes(alloc, seed, size),
        Some(Subcommand::Bulk { seed, size }) => ending_of_bulk(alloc, seed, size),
        Some(Subcommand::Run) | None => Ending::Usage,
    }
}

/// How the call ends.
#[tactic(auto, using(crate::proofs::Unread::memory_is_due))]
fn ending_of<S: Source, K: Sink>(
    alloc: Global,
    words: &[String],
    streams: &mut Streams<S, K>,
) -> Ending
    ensures due { IsDue (subcommand_of words.now) streams.old.source streams.new.source result }
    ensures sink { streams.new.sink ≡ streams.old.sink }
{
    match read_words(alloc, words) {
        Ok(command) => ending_of_command(alloc, command, streams),
        Err(_) => Ending::Memory,
    }
}

/// Writes the piece with which a call of this status ends.
fn write_piece<S: Source, K: Sink>(
    streams: &mut Streams<S, K>,
    status: u8,
    report: Option<Report>,
    piece: &[u8],
) -> Outcome
    ensures writes { Writes status report piece.now streams.old.sink streams.new.sink result }
    ensures source { streams.new.source ≡ streams.old.source }
{
    match streams::write_piece(streams, piece) {
        Ok(()) => Outcome { status, report },
        Err(_) => Outcome {
            status: 5,
            report: None,
        },
    }
}

/// Writes what the ending writes.
#[tactic(auto, unfolding(crate::specs::Top::usage_line, crate::specs::Top::too_long_line, crate::specs::Top::read_fault_line, crate::specs::Top::memory_line))]
fn write_ending<S: Source, K: Sink>(streams: &mut Streams<S, K>, ending: Ending) -> Outcome
    ensures ends { Ends ending streams.old.sink streams.new.sink result }
    ensures source { streams.new.source ≡ streams.old.source }
{
    match ending {
        Ending::Usage => write_piece(
            streams,
            2,
            None,
            b"usage: uicc_replay replay, run, check, gen SEED SIZE or bulk SEED SIZE\n",
        ),
        Ending::TooLong => write_piece(streams, 8, None, b"too long\n"),
        Ending::Refused { line } => write_piece(streams, 3, None, line.as_str().as_bytes()),
        Ending::ReadFault => write_piece(streams, 4, None, b"read fault\n"),
        Ending::Spent { line } => write_piece(streams, 6, None, line.as_str().as_bytes()),
        Ending::Memory => write_piece(streams, 9, None, b"memory\n"),
        Ending::Replayed { report, text } => {
            write_piece(streams, 0, Some(report), text.as_slice())
        }
        Ending::Generated { text } => write_piece(streams, 0, None, text.as_slice()),
        Ending::Checked { verdict, line } => {
            write_piece(streams, verdict.status(), None, line.as_str().as_bytes())
        }
        Ending::Counted { report, line } => {
            write_piece(streams, 0, Some(report), line.as_str().as_bytes())
        }
    }
}

/// All that the program does. Where the words are the one word `replay`, it reads a script to its end,
/// runs it over simulated cards, in the order of its schedule and then round, and writes the report of
/// the run, which is legal. Status 0 says so: the source's bytes are a script, the report that is handed
/// out is of that script and of mode replay, it breaks no rule, none of its turns began once the budget
/// was spent, and its text was written whole. Where the words are `gen`, a seed and a size, it reads
/// nothing, and at status 0 the generated script was written whole. Where they are `bulk`, a seed and a
/// size, it reads nothing, replays the generated script, and at status 0 hands out its report, which is
/// legal, and wrote how many events, publications, answers and refusals that has. Where the words are the
/// one word `check`, it reads a report to its end, and at status 0 the report is legal, and the numbers of
/// its lines and events were written. Each other status says what stood in the way, and its line was
/// written: bytes that are no script, or, for a check, no report (3), a run that spent its budget before it
/// was finished (6), a report that breaks a rule, at the first such line, and the lowest such rule there
/// (7), more bytes than a script or a report may have (8), words that are no command that is served (2), a
/// source (4) or a sink (5) that failed, or want of memory (9).
pub fn top<S: Source, K: Sink>(
    alloc: Global,
    words: &[String],
    streams: &mut Streams<S, K>,
) -> Outcome
    // What each status says. 0: the report is the legal replay of all the source's bytes, and its
    // text was written, or a generated script was, or the bytes are a legal report. 6: a legal run of
    // the bytes has the budget's events, and is not finished. 7: the bytes are a report that is not
    // legal.
    ensures done { result.status ≡ 0
        → IsDone (subcommand_of words.now) streams.old streams.new result.report }
    ensures usage { result.status ≡ 2 → served (subcommand_of words.now) ≡ None }
    ensures refused { result.status ≡ 3
        → IsRefused (subcommand_of words.now) streams.old streams.new }
    ensures read { result.status ≡ 4 → Rose streams.old.source.faults streams.new.source.faults }
    ensures write { result.status ≡ 5 → Rose streams.old.sink.faults streams.new.sink.faults }
    ensures spent { result.status ≡ 6
        → IsBudgetSpent (subcommand_of words.now) streams.old streams.new }
    ensures illegal { result.status ≡ 7 → HasChecked 7 streams.old streams.new }
    ensures too_long { result.status ≡ 8
        → HasMore (limit_of (subcommand_of words.now)) streams.old.source streams.new.source }

    // The statuses of each command; words that are none that is served end in 2, 5 or 9. Only a
    // replay and a check read.
    ensures known { IsTrue (is_status (subcommand_of words.now) result.status) }
    ensures unread { reads (subcommand_of words.now) ≡ false
        → streams.new.source ≡ streams.old.source }

    // What is written, and that a report is handed out at status 0 alone.
    ensures line { IfSome (line_of result.status) (Wrote streams.old streams.new) }
    ensures part { result.status ≡ 5
        → WritesPart (subcommand_of words.now) streams.old streams.new }
    ensures report { result.status ≢ 0 → result.report ≡ None }
{
    let ending = ending_of(alloc, words, streams);
    write_ending(streams, ending)
}
