// Whether a report is legal.
ghost use Rattle.std.specs.Prelude.{◌≡◌, ◌<◌, ◌+◌, ◌^◌, true, Some, length, reverse, slice_get, is_err, IfOk, OnOk};
ghost use Rattle.rules.specs.Legal.{at_line, first_broken};
ghost use Rattle.script_reader.specs.Rules.{keeps_rules};
ghost use Rattle.trace_check.specs.UpTo.{UpTo};
ghost use Rattle.trace_check.specs.Verdict as spec;

use crate::behind::{Behind, Bench};
use apdu::Memory;
use report::{Line, Lines, Report};
use std::alloc::Global;
use thiserror::Error;

/// Why a report is not said to be legal.
#[derive(Clone, Copy, Debug, PartialEq, Eq, Error)]
pub enum CheckError {
    /// Up to this line, counted from 1, a rule is broken, and up to none before it. The script is line 1, the mode line 2, and the end
    /// stands behind the last line. Of the rules that are broken there this is the lowest, from 1: responses, snapshots, edits, channels,
    /// rest, answers, verifications, turns, the end, faults.
    #[error("illegal: rule {rule} is broken at line {line}")]
    Illegal { line: u64, rule: u8 },
    #[error("out of memory")]
    Memory,
}

impl From<Memory> for CheckError {
    ghost use Rattle.std.specs.Prelude.{◌≡◌};
    ghost use Rattle.trace_check.specs.declared.checking.CheckError.{CheckError};

    ghost from_gives = { λ _ error. error ≡ CheckError.Memory };

    fn from(_: Memory) -> Self {
        CheckError::Memory
    }
}

/// No memory holds so many lines.
const MOST_LINES: usize = usize::MAX - 3;

/// The verdict where this rule is broken at this line, if one is.
fn verdict(line: u64, broken: Option<u8>) -> Result<(), CheckError>
    ensures { spec.Says (at_line line broken) result }
{
    match broken {
        None => Ok(()),
        Some(rule) => Err(CheckError::Illegal { line, rule }),
    }
}

/// The line of this index, from the first line behind the mode.
#[tactic(auto, using(crate::proofs::Judged::line_there))]
fn line_of(lines: &Lines, at: usize) -> Result<Line, Memory>
    requires { at < length lines.now }
    ensures { IfOk result (λ line. slice_get (reverse lines.now) at ≡ Some line) }
{
    match lines.get(at)? {
        Some(line) => Ok(line),
        None => unreachable!(),
    }
}

/// Judges a line behind the lines before it; `at` is its index.
fn judge_line(
    alloc: Global,
    report: &Report,
    at: usize,
    line: &Line,
    behind: &mut Behind,
) -> Result<(), CheckError>
    requires rules { keeps_rules report.now.script ≡ true }
    requires few { at + 3 < 2 ^ 64 }
    requires line { slice_get (reverse report.now.lines) at ≡ Some line.now }
    requires before { UpTo report.now at behind.old }
    ensures more { OnOk result (UpTo report.now (at + 1) behind.new) }
    ensures broken { is_err result ≡ true → spec.Says (first_broken report.now) result }
{
    let bench = Bench::new(alloc, report);
    let broken = bench.judge(behind, line)?;
    verdict(at as u64 + 3, broken)
}

/// Judges the line of this index.
fn judge_next(
    alloc: Global,
    report: &Report,
    at: usize,
    behind: &mut Behind,
) -> Result<(), CheckError>
    requires rules { keeps_rules report.now.script ≡ true }
    requires few { at + 3 < 2 ^ 64 }
    requires within { at < length report.now.lines }
    requires before { UpTo report.now at behind.old }
    ensures more { OnOk result (UpTo report.now (at + 1) behind.new) }
    ensures broken { is_err result ≡ true → spec.Says (first_broken report.now) result }
{
    let line = line_of(&report.lines, at)?;
    judge_line(alloc, report, at, &line, behind)
}

/// Judges the end of a report of which no line breaks a rule.
fn judge_end(alloc: Global, report: &Report, behind: &Behind) -> Result<(), CheckError>
    requires rules { keeps_rules report.now.script ≡ true }
    requires few { length report.now.lines + 3 < 2 ^ 64 }
    requires before { UpTo report.now (length report.now.lines) behind.now }
    ensures { spec.Says (first_broken report.now) result }
{
    let bench = Bench::new(alloc, report);
    let broken = bench.judge_end(behind)?;
    verdict(report.lines.len() as u64 + 3, broken)
}

/// Whether a report is legal: no rule is broken up to any of its lines, nor up to its end. Its lines are taken one by one, from the first
/// on, and the time is linear in them.
#[tactic(auto, using(crate::proofs::UpTo::upto_first))]
pub fn check(alloc: Global, report: &Report) -> Result<(), CheckError>
    requires { keeps_rules report.now.script ≡ true }
    ensures { spec.Says (first_broken report.now) result }
{
    if report.lines.len() > MOST_LINES {
        return Err(CheckError::Memory);
    }
    let mut behind = Behind::new(alloc, &report.script)?;
    for at in 0..report.lines.len() {
        judge_next(alloc, report, at, &mut behind)?;
    }
    judge_end(alloc, report, &behind)
}
