// A generated script is replayed, and what that did is counted.
ghost use Rattle.std.specs.Prelude.{◌≡◌, ◌≤◌, IfOk};
ghost use Rattle.report_summary.specs.Summary.{summary_of as summary_of_lines};
ghost use Rattle.script_generator.specs.Generated.{generated};
ghost use Rattle.replay.specs.Replay.{IsReplayed};
ghost use Rattle.uicc_replay.specs.Top.{summary_line, IsDueOfCounts, IsDueOfGenerated};

use crate::text::{put, put_numbered};
use crate::top::{Ending, ending_of_budget};
use apdu::{Memory, Text};
use replay::{Replayed, replay};
use report::Report;
use report_summary::{Summary, summary_of};
use script_generator::{generate, generated_keeps};
use std::alloc::Global;

fn summary_text(alloc: Global, summary: Summary) -> Result<Text, Memory>
    ensures { IfOk result (λ text. text ≡ summary_line summary) }
{
    let mut out = String::new(alloc);
    put_numbered(alloc, &mut out, "events ", summary.events)?;
    put_numbered(alloc, &mut out, " publications ", summary.publications)?;
    put_numbered(alloc, &mut out, " answers ", summary.answers)?;
    put_numbered(alloc, &mut out, " refusals ", summary.refusals)?;
    put(&mut out, "\n")?;
    Ok(Text::from_string(out))
}

/// How much the run of a report did.
fn counts_text(alloc: Global, report: &Report) -> Result<Text, Memory>
    ensures { IfOk result (λ text. text ≡ summary_line (summary_of_lines report.now.lines)) }
{
    let summary = summary_of(&report.lines)?;
    summary_text(alloc, summary)
}

/// The ending of a report whose lines are counted.
fn ending_of_counts(alloc: Global, report: Report) -> Ending
    ensures { IsDueOfCounts report result }
{
    match counts_text(alloc, &report) {
        Ok(line) => Ending::Counted { report, line },
        Err(_) => Ending::Memory,
    }
}

/// The replay of the script of a seed and a size.
fn replay_of(alloc: Global, seed: u32, size: u16) -> Result<Replayed, Memory>
    requires some { 1 ≤ size }
    requires few { size ≤ 250 }
    ensures { IfOk result (IsReplayed (generated seed size)) }
{
    generated_keeps();
    let script = generate(alloc, seed, size)?;
    replay(alloc, script)
}

/// How the replay of the script of a seed and a size ends.
pub fn ending_of_bulk(alloc: Global, seed: u32, size: u16) -> Ending
    requires some { 1 ≤ size }
    requires few { size ≤ 250 }
    ensures { IsDueOfGenerated seed size result }
{
    match replay_of(alloc, seed, size) {
        Ok(Replayed::Finished(report)) => ending_of_counts(alloc, report),
        Ok(Replayed::Spent { events }) => ending_of_budget(alloc, events),
        Err(_) => Ending::Memory,
    }
}
