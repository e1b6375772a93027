// The lines of a report are counted by what they tell.
ghost use Rattle.std.specs.Prelude.{◌≡◌, ◌<◌, ◌+◌, ◌^◌, length, IfOk};
ghost use Rattle.rules.specs.After as after;
ghost use Rattle.rules.specs.History as history;
ghost use Rattle.report_summary.specs.Summary as spec;

use apdu::Memory;
use report::{Answer, Line, Lines};

/// How many lines of a report are events, publications (snapshots and ends of epochs), answers, and
/// answers that refuse what was asked for.
#[derive(Clone, Copy, Debug, Default, PartialEq, Eq)]
pub struct Summary {
    pub events: u64,
    pub publications: u64,
    pub answers: u64,
    pub refusals: u64,
}

/// An exchange or a reset, done or failed, or an event of the world.
fn is_event(line: &Line) -> bool
    ensures { result ≡ history.is_event line.now }
{
    matches!(
        line,
        Line::Exchange { .. }
            | Line::Failed { .. }
            | Line::Reset { .. }
            | Line::ResetFailed { .. }
            | Line::World { .. }
    )
}

fn is_publication(line: &Line) -> bool
    ensures { result ≡ after.is_publication line.now }
{
    matches!(line, Line::Published { .. } | Line::EpochEnd { .. })
}

fn refuses(answer: &Answer) -> bool
    ensures { result ≡ spec.refuses answer.now }
{
    !matches!(
        answer,
        Answer::Moved
            | Answer::Loaded { .. }
            | Answer::Done { .. }
            | Answer::Opened { .. }
            | Answer::Raw { .. }
            | Answer::Closed
            | Answer::Verified
            | Answer::Ended
            | Answer::Polled
            | Answer::Look { .. }
            | Answer::Watching
            | Answer::Notices { .. }
    )
}

fn is_answer(line: &Line) -> bool
    ensures { result ≡ spec.is_answer line.now }
{
    matches!(line, Line::Answered { .. })
}

fn is_refusal(line: &Line) -> bool
    ensures { result ≡ spec.is_refusal line.now }
{
    match line {
        Line::Answered { answer, .. } => refuses(answer),
        _ => false,
    }
}

fn count_if(is_so: bool, count: u64) -> u64
    requires { count + 1 < 2 ^ 64 }
    ensures { result ≡ spec.count_if is_so count }
{
    if is_so { count + 1 } else { count }
}

impl Summary {
    /// A line more.
    fn count(self, line: &Line) -> Summary
        requires events { self.events + 1 < 2 ^ 64 }
        requires publications { self.publications + 1 < 2 ^ 64 }
        requires answers { self.answers + 1 < 2 ^ 64 }
        requires refusals { self.refusals + 1 < 2 ^ 64 }
        ensures { result ≡ spec.counted line.now self }
    {
        Summary {
            events: count_if(is_event(line), self.events),
            publications: count_if(is_publication(line), self.publications),
            answers: count_if(is_answer(line), self.answers),
            refusals: count_if(is_refusal(line), self.refusals),
        }
    }
}

/// What the line of this index makes of the counts of those before it.
#[tactic(auto, using(crate::proofs::Counted::line_there))]
fn count_at(lines: &Lines, at: usize, summary: Summary) -> Result<Summary, Memory>
    requires within { at < length lines.now }
    requires few { at + 1 < 2 ^ 64 }
    requires before { summary ≡ spec.summary_of (spec.seen at lines.now) }
    ensures { IfOk result (λ after. after ≡ spec.summary_of (spec.seen (at + 1) lines.now)) }
{
    match lines.get(at)? {
        Some(line) => Ok(summary.count(&line)),
        None => unreachable!(),
    }
}

/// How much a run did, counted over its lines; or memory ran out.
pub fn summary_of(lines: &Lines) -> Result<Summary, Memory>
    ensures { IfOk result (λ summary. summary ≡ spec.summary_of lines.now) }
{
    let mut summary = Summary::default();
    for at in 0..lines.len() {
        summary = count_at(lines, at, summary)?;
    }
    Ok(summary)
}
