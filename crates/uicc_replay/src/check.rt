// A report is read, and checked.
ghost use Rattle.std.specs.Prelude.{◌≡◌, ◌++◌, true, codes, decimal, IfOk};
ghost use Rattle.rules.specs.Legal.{legal as is_legal};
ghost use Rattle.script_reader.specs.Rules.{keeps_rules};
ghost use Rattle.uicc_replay.specs.Checking as spec;
ghost use Rattle.uicc_replay.specs.Checking.{IsChecked, IsDueOfCheck, IsDueOfVerdict, IsDueOfReportBytes, IsSaid};

use crate::text::{put, put_numbered};
use crate::top::Ending;
use apdu::{Memory, Sink, Source, Text};
use report::Report;
use report_reader::{ReportError, read_report};
use report_summary::summary_of;
use rules::legal_or_broken;
use std::alloc::Global;
use streams::{Input, Streams, read_all};
use trace_check::{CheckError, check};

/// What is said of the bytes of a report.
#[derive(Clone, Copy, Debug, PartialEq, Eq)]
pub enum Verdict {
    /// They are a legal report, of so many lines and events.
    Legal { lines: u64, events: u64 },
    /// They are a report. Up to this line the rule is broken, and none up to a line before it, nor a lower one.
    Illegal { line: u64, rule: u8 },
    /// They are no report: this is the first line that has no place.
    NoReport { line: u64 },
}

impl Verdict {
    /// The status that says so.
    pub fn status(&self) -> u8
        ensures { result ≡ spec.status_of_verdict self.now }
    {
        match self {
            Verdict::Legal { .. } => 0,
            Verdict::Illegal { .. } => 7,
            Verdict::NoReport { .. } => 3,
        }
    }
}

/// The most bytes that a report may have.
fn report_limit() -> usize
    ensures { result ≡ spec.report_limit }
{
    16_777_216
}

/// No memory holds so many lines.
const MOST_LINES: usize = usize::MAX - 3;

// ---- what is said

/// What is said of a legal report.
fn verdict_on_legal(report: &Report) -> Result<Verdict, Memory>
    requires { is_legal report.now ≡ true }
    ensures { IfOk result (IsSaid report.now) }
{
    if report.lines.len() > MOST_LINES {
        return Err(Memory);
    }
    let summary = summary_of(&report.lines)?;
    Ok(Verdict::Legal {
        lines: report.lines.len() as u64 + 3,
        events: summary.events,
    })
}

/// What is said of a report.
fn verdict_on(alloc: Global, report: &Report) -> Result<Verdict, Memory>
    requires { keeps_rules report.now.script ≡ true }
    ensures { IfOk result (IsSaid report.now) }
{
    legal_or_broken();
    match check(alloc, report) {
        Ok(()) => verdict_on_legal(report),
        Err(CheckError::Illegal { line, rule }) => Ok(Verdict::Illegal { line, rule }),
        Err(CheckError::Memory) => Err(Memory),
    }
}

/// What is said of bytes.
fn verdict_of(alloc: Global, bytes: &[u8]) -> Result<Verdict, Memory>
    ensures { IfOk result (IsChecked bytes.now) }
{
    match read_report(alloc, bytes) {
        Ok(report) => verdict_on(alloc, &report),
        Err(ReportError::Refused { line }) => Ok(Verdict::NoReport { line }),
        Err(ReportError::Memory) => Err(Memory),
    }
}

// ---- how it is told

fn numbers_text(alloc: Global, word: &str, first: u64, second: u64) -> Result<Text, Memory>
    ensures { IfOk result (λ text. text ≡ spec.numbers_line word.now first second) }
{
    let mut out = String::new(alloc);
    put_numbered(alloc, &mut out, word, first)?;
    put_numbered(alloc, &mut out, " ", second)?;
    put(&mut out, "\n")?;
    Ok(Text::from_string(out))
}

fn no_report_text(alloc: Global, line: u64) -> Result<Text, Memory>
    ensures { IfOk result (λ text. text ≡ codes "refused line " ++ decimal line ++ codes "\n") }
{
    let mut out = String::new(alloc);
    put_numbered(alloc, &mut out, "refused line ", line)?;
    put(&mut out, "\n")?;
    Ok(Text::from_string(out))
}

/// How it is told what is said.
fn verdict_text(alloc: Global, verdict: &Verdict) -> Result<Text, Memory>
    ensures { IfOk result (λ text. text ≡ spec.told_of verdict.now) }
{
    match verdict {
        Verdict::Legal { lines, events } => numbers_text(alloc, "legal ", *lines, *events),
        Verdict::Illegal { line, rule } => {
            numbers_text(alloc, "illegal ", *line, u64::from(*rule))
        }
        Verdict::NoReport { line } => no_report_text(alloc, *line),
    }
}

// ---- endings

fn ending_of_verdict(alloc: Global, verdict: Verdict) -> Ending
    ensures { IsDueOfVerdict verdict result }
{
    match verdict_text(alloc, &verdict) {
        Ok(line) => Ending::Checked { verdict, line },
        Err(_) => Ending::Memory,
    }
}

/// The ending of the bytes of a report.
fn ending_of_report_bytes(alloc: Global, bytes: &[u8]) -> Ending
    ensures { IsDueOfReportBytes bytes.now result }
{
    match verdict_of(alloc, bytes) {
        Ok(verdict) => ending_of_verdict(alloc, verdict),
        Err(_) => Ending::Memory,
    }
}

/// How a check ends.
pub fn ending_of_check<S: Source, K: Sink>(alloc: Global, streams: &mut Streams<S, K>) -> Ending
    ensures due { IsDueOfCheck streams.old.source streams.new.source result }
    ensures sink { streams.new.sink ≡ streams.old.sink }
{
    match read_all(alloc, report_limit(), streams) {
        Ok(Input::All(bytes)) => ending_of_report_bytes(alloc, bytes.as_slice()),
        Ok(Input::TooLong) => Ending::TooLong,
        Ok(Input::Fault) => Ending::ReadFault,
        Err(_) => Ending::Memory,
    }
}
