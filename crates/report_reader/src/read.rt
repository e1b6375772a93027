// A report from its bytes.
ghost use Rattle.std.specs.Prelude.{◌≡◌, ℕ, [], true, Err, IfOk};
ghost use Rattle.script_reader.specs.Rules.{keeps_rules};
ghost use Rattle.report.specs.Texts.{report_text};
ghost use Rattle.report_reader.specs.Forms.{IsReport};
ghost use Rattle.report_reader.specs.Laws.{IsFirst};
ghost use Rattle.report_reader.specs.Reads.{ReadsAs, AnswersAs, ChangesTo, texts};
ghost use Rattle.report_reader.specs.Reports as spec;

use crate::error::{LineError, ReportError, check};
use crate::lines::line_of;
use crate::words::{behind_word, first_word, is_word, parts_of};
use report::{Line, Lines, Mode, Report};
use script::{Script, ScriptError, read_script, write_script};
use std::alloc::Global;

/// The script, if these bytes are its text.
fn script_of(alloc: Global, bytes: &[u8]) -> Result<Script, LineError>
    ensures value { ReadsAs (spec.script_of bytes.now) result }
    ensures rules { IfOk result (λ script. keeps_rules script ≡ true) }
{
    match read_script(alloc, bytes) {
        Ok(script) => {
            let text = write_script(alloc, &script)?;
            check(text.as_str().as_bytes() == bytes)?;
            Ok(script)
        }
        Err(ScriptError::Refused { .. }) => Err(LineError::NoPlace),
        Err(ScriptError::Memory) => Err(LineError::Memory),
    }
}

fn script_line(alloc: Global, line: &[u8]) -> Result<Script, LineError>
    ensures value { ReadsAs (spec.script_line line.now) result }
    ensures rules { IfOk result (λ script. keeps_rules script ≡ true) }
{
    if is_word(first_word(line), "script") {
        script_of(alloc, behind_word(line))
    } else {
        Err(LineError::NoPlace)
    }
}

fn mode_line(line: &[u8]) -> Result<Mode, LineError>
    ensures { ReadsAs (spec.mode_line line.now) result }
{
    if is_word(line, "mode replay") {
        Ok(Mode::Replay)
    } else if is_word(line, "mode run") {
        Ok(Mode::Run)
    } else {
        Err(LineError::NoPlace)
    }
}

/// The lines, where nothing stands behind the last line feed.
fn ended(lines: Lines, number: u64, behind: &[&[u8]]) -> Result<Lines, ReportError>
    ensures { AnswersAs (spec.ended lines number (texts behind.now)) result }
{
    match behind {
        [[]] => Ok(lines),
        _ => Err(ReportError::Refused { line: number }),
    }
}

fn read_line(alloc: Global, script: &Script, number: u64, text: &[u8]) -> Result<Line, ReportError>
    ensures { AnswersAs (spec.read_line script.now number text.now) result }
{
    match line_of(alloc, script, text) {
        Ok(line) => Ok(line),
        Err(error) => Err(error.at(number)),
    }
}

/// Puts the line of this text behind the others.
fn add_line(
    alloc: Global,
    script: &Script,
    number: u64,
    text: &[u8],
    lines: &mut Lines,
) -> Result<(), ReportError>
    ensures { ChangesTo (spec.with_line script.now number text.now lines.old) lines.new result }
{
    let line = read_line(alloc, script, number, text)?;
    lines.push(&line)?;
    Ok(())
}

/// The lines of these parts up to `end`. The first of them is line 3.
fn lines_of(alloc: Global, script: &Script, parts: &[&[u8]]) -> Result<Lines, ReportError>
    ensures { AnswersAs (spec.lines_from script.now 3 [] (texts parts.now)) result }
{
    let mut lines = Lines::new(alloc);
    let mut number = 3u64;
    let mut rest = parts;
    'lines: while let [text, behind @ ..] = rest {
        if behind.is_empty() {
            return Err(ReportError::Refused { line: number });
        }
        if is_word(text, "end") {
            return ended(lines, number + 1, behind);
        }
        add_line(alloc, script, number, text, &mut lines)?;
        number += 1;
        rest = behind;
    }
    Err(ReportError::Refused { line: number })
}

fn script_part(alloc: Global, line: &[u8]) -> Result<Script, ReportError>
    ensures value { AnswersAs (spec.script_part line.now) result }
    ensures rules { IfOk result (λ script. keeps_rules script ≡ true) }
{
    match script_line(alloc, line) {
        Ok(script) => Ok(script),
        Err(error) => Err(error.at(1)),
    }
}

/// The mode, in a line that has this behind it.
fn second_line(line: &[u8], behind: &[&[u8]]) -> Result<Mode, LineError>
    ensures { ReadsAs (spec.second_line line.now (texts behind.now)) result }
{
    if behind.is_empty() {
        Err(LineError::NoPlace)
    } else {
        mode_line(line)
    }
}

fn mode_part(line: &[u8], behind: &[&[u8]]) -> Result<Mode, ReportError>
    ensures { AnswersAs (spec.mode_part line.now (texts behind.now)) result }
{
    match second_line(line, behind) {
        Ok(mode) => Ok(mode),
        Err(error) => Err(error.at(2)),
    }
}

#[tactic(auto, using(crate::proofs::Counts::few_parts))]
fn report_of_parts(alloc: Global, parts: &[&[u8]]) -> Result<Report, ReportError>
    ensures value { AnswersAs (spec.report_of_parts (texts parts.now)) result }
    ensures rules { IfOk result (λ report. keeps_rules report.script ≡ true) }
{
    let [first, second, behind @ ..] = parts else {
        return Err(ReportError::Refused { line: 1 });
    };
    let script = script_part(alloc, first)?;
    let mode = mode_part(second, behind)?;
    let lines = lines_of(alloc, &script, behind)?;
    Ok(Report {
        script,
        mode,
        lines,
    })
}

/// The report of which the bytes are the text, or the first line that has no place.
pub fn read_report(alloc: Global, bytes: &[u8]) -> Result<Report, ReportError>
    ensures value { AnswersAs (spec.report_of bytes.now) result }
    ensures rules { IfOk result (λ report. keeps_rules report.script ≡ true) }
    ensures text { IfOk result (λ report. IsReport report × (report_text report ≡ bytes.now)) }
    ensures refused { (n : ℕ) → result ≡ Err (ReportError.Refused n) → IsFirst n bytes.now }
{
    let parts = parts_of(alloc, b'\n', bytes)?;
    report_of_parts(alloc, parts.as_slice())
}
