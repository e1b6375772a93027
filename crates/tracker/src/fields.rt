// What a line leaves of the chain of exchanges, the selection, start-up and the current files.
ghost use Rattle.std.specs.Prelude.{◌≡◌, ◌+◌, ◌<◌, ◌^◌, [], if◌then◌else◌, OnOk};
ghost use Rattle.std.specs.Option.{option_copied};
ghost use Rattle.link.specs.Commands as commands;
ghost use Rattle.rules.specs.Cache as cache;
ghost use Rattle.epoch_cache.specs.Cache.{forgotten};
ghost use Rattle.rules.specs.Commands as rules;
ghost use Rattle.rules.specs.History as history;
ghost use Rattle.rules.specs.Refresh as startup;

use crate::lines::{is_epoch_border, stops_epoch};
use apdu::{Command, Memory, Path, Response};
use epoch_cache::{CachedFile, CachedFiles, Touch, exchange_files, forget_moved};
use link::{Chain, Final, has_more, is_basic_select, is_path_select, named_path};
use refresh_cmd::Proactive;
use refresher::{owed_by, startup_after};
use report::Line;
use std::alloc::Global;

pub fn chain_behind(line: &Line, before: Option<&Chain>) -> Option<Chain>
    ensures { result ≡ rules.chain_behind line.now (option_copied before.entry) }
{
    match line {
        Line::Exchange {
            command,
            response,
            ..
        } => Chain::after(command, response, before),
        _ => None,
    }
}

/// The command to which the line gives the final response.
pub fn final_of(line: &Line, events: u64, before: Option<&Chain>) -> Option<Final>
    requires { events + 1 < 2 ^ 64 }
    ensures { result ≡ rules.final_of line.now events (option_copied before.entry) }
{
    match line {
        Line::Exchange {
            actor,
            command,
            response,
        } => Final::after(*actor, command, response, events, before),
        _ => None,
    }
}

fn selection_after(command: &Command, response: &Response, before: Option<Path>) -> Option<Path>
    ensures { result ≡ commands.selection_after command.now response.now before }
{
    if !is_basic_select(command) || !(response.sw.is_success() || has_more(response.sw)) {
        before
    } else if is_path_select(command) {
        named_path(command)
    } else {
        None
    }
}

pub fn selection_behind(line: &Line, before: Option<Path>) -> Option<Path>
    ensures { result ≡ rules.selection_behind line.now before }
{
    match line {
        Line::Exchange {
            command,
            response,
            ..
        } => selection_after(command, response, before),
        other => if is_epoch_border(other) { None } else { before },
    }
}

pub fn startup_behind(line: &Line, answered: Option<&Final>, step: u8) -> u8
    ensures { result ≡ startup.startup_behind line.now (option_copied answered.entry) step }
{
    match line {
        Line::Exchange { command, .. } => startup_after(command, answered, step),
        other => if is_epoch_border(other) { 0 } else { step },
    }
}

pub fn owed_behind(
    line: &Line,
    refresh: Option<&Proactive>,
    answered: Option<&Final>,
    before: Option<Command>,
) -> Option<Command>
    ensures { result ≡ startup.owed_behind line.now (option_copied refresh.entry)
        (option_copied answered.entry) before }
{
    if is_epoch_border(line) {
        None
    } else {
        owed_by(refresh, answered, before)
    }
}

/// Changes the current files as a line does that is no exchange, which takes no memory.
pub fn files_beside(alloc: Global, line: &Line, touch: &Touch, files: &mut CachedFiles)
    ensures { files.new ≡ (if history.stops_epoch line.now then [] else forgotten touch.now files.old) }
{
    if stops_epoch(line) {
        files.truncate(0);
    } else {
        forget_moved(alloc, touch, files);
    }
}

/// Changes the current files. `completed` is the file of a reading that the line completes, and `selected` was current on the basic channel.
pub fn files_behind(
    alloc: Global,
    line: &Line,
    touch: &Touch,
    selected: Option<&Path>,
    completed: Option<CachedFile>,
    files: &mut CachedFiles,
) -> Result<(), Memory>
    ensures { OnOk result (files.new ≡ cache.files_behind line.now touch.now
        (option_copied selected.entry) completed files.old) }
{
    match line {
        Line::Exchange { command, .. } => {
            exchange_files(alloc, touch, selected, command, completed, files)
        }
        other => {
            files_beside(alloc, other, touch, files);
            Ok(())
        }
    }
}
