// What a line says, by what is kept before it.
ghost use Rattle.std.specs.Prelude.{◌≡◌, ◌+◌, ◌<◌, ◌^◌};
ghost use Rattle.std.specs.Option.{option_copied};
ghost use Rattle.apdu.specs.Words.{has_value};
ghost use Rattle.rules.specs.After as rules;
ghost use Rattle.rules.specs.Cache as cache;

use crate::fields::final_of;
use crate::history::ends_epoch;
use crate::lines::begins_epoch;
use apdu::Path;
use epoch_cache::{Touch, Written};
use planner::operation_now;
use report::Line;
use rules::{Facts, Jobs, Kept};
use script::{Operation, Script};

fn is_raw(operation: Option<&Operation>) -> bool
    ensures { result ≡ has_value rules.is_raw (option_copied operation.entry) }
{
    match operation {
        Some(Operation::Raw { .. }) => true,
        _ => false,
    }
}

fn is_raw_line(script: &Script, line: &Line, jobs: &Jobs) -> bool
    ensures { result ≡ rules.is_raw_line script.now line.now jobs.now }
{
    match line {
        Line::Exchange { actor, .. } => is_raw(operation_now(script, *actor, jobs)),
        _ => false,
    }
}

fn touch_of(raw: bool, selected: Option<&Path>, line: &Line) -> Touch
    ensures { result ≡ cache.touch_of raw (option_copied selected.entry) line.now }
{
    match line {
        Line::Exchange {
            command,
            response,
            ..
        } => Touch::exchanged(raw, selected, command, response),
        other => Touch {
            begins: begins_epoch(other),
            written: Written::Nothing,
            refresh: None,
        },
    }
}

pub fn facts_of(script: &Script, line: &Line, kept: &Kept) -> Facts
    requires { kept.now.history.events + 1 < 2 ^ 64 }
    ensures { result ≡ rules.facts_of script.now line.now kept.now }
{
    let raw = is_raw_line(script, line, &kept.jobs);
    Facts {
        event: kept.history.events + 1,
        answered: final_of(line, kept.history.events, kept.chain.as_ref()),
        touch: touch_of(raw, kept.selected.as_ref(), line),
        ends: ends_epoch(line, kept.history),
    }
}
