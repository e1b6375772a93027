// How far a turn of a load has come.
ghost use Rattle.std.specs.Prelude.{◌≡◌, ◌+◌, ◌<◌, ◌^◌, Some, None, option_and_then, option_map};
ghost use Rattle.std.specs.Option.{option_copied};
ghost use Rattle.fcp.specs.Control.{read_fcp as fcp_of};
ghost use Rattle.loader.specs.Load as spec;
ghost use Rattle.loader.specs.declared.stage.Stage.TheVariants.{Over};
ghost use Rattle.loader.specs.Reading.{next_read, reading_of as reading_in};

use crate::{LoadError, Reading, Stage, reading_of};
use apdu::{Command, Path};
use fcp::read_fcp;
use link::{
    Chain, Final, Selection, is_path_select, is_reading_select, select_for_reading, select_only,
    wants_more,
};

/// How far a turn has come.
#[derive(Drop)]
pub struct Turning {
    /// The chain of exchanges of which the last is one.
    pub chain: Option<Chain>,
    pub stage: Stage,
    pub selection: Selection,
    /// How many events there were.
    pub events: u64,
    /// Why the last command was refused.
    pub refused: Option<LoadError>,
}

fn selected_first(selection: &Selection, path: &Path, command: Command) -> Command
    ensures { result ≡ spec.selected_first selection.now path.now command }
{
    if selection.is_at(path) {
        command
    } else {
        select_only(path)
    }
}

/// The command that reads the path on.
pub(crate) fn reading_command(selection: &Selection, path: &Path, g: Option<&Reading>) -> Command
    ensures { result ≡ spec.reading_command selection.now path.now (option_copied g.entry) }
{
    match g {
        None => select_for_reading(path),
        Some(g) => match g.next_read() {
            None => select_for_reading(path),
            Some(command) => selected_first(selection, path, command),
        },
    }
}

fn next_of(g: Option<&Reading>) -> Option<Command>
    ensures { result ≡ option_and_then next_read (option_copied g.entry) }
{
    g?.next_read()
}

fn next_or_over(command: Option<Command>) -> Stage
    ensures { result ≡ spec.next_or_over command }
{
    match command {
        None => Stage::Over,
        Some(command) => Stage::Next(command),
    }
}

/// The stage behind an exchange. `readings` are those behind it.
pub(crate) fn stage_behind(
    path: &Path,
    readings: &[Reading],
    answered: &Option<Final>,
    before: Stage,
) -> Stage
    ensures { result ≡ spec.stage_behind path.now readings.now answered.now before }
{
    match answered {
        None => before,
        Some(answered) => stage_behind_final(path, readings, answered),
    }
}

fn stage_behind_final(path: &Path, readings: &[Reading], answered: &Final) -> Stage
    ensures { result ≡ spec.stage_behind path.now readings.now (Some answered.now) Stage.Over }
{
    if is_path_select(&answered.command) && answered.response.sw.is_success() {
        next_or_over(next_of(reading_of(path, readings)))
    } else {
        Stage::Over
    }
}

fn bad_fcp(body: &[u8]) -> Option<LoadError>
    ensures { result ≡ spec.bad_fcp (fcp_of body.now) }
{
    Some(LoadError::BadFcp(read_fcp(body).err()?))
}

/// Why a command is refused.
pub(crate) fn refusal_of(answered: &Final) -> Option<LoadError>
    ensures { result ≡ spec.refusal_of answered.now }
{
    let sw = answered.response.sw;
    if wants_more(sw) {
        Some(LoadError::Loop(sw))
    } else if answered.is_refused() {
        Some(LoadError::Status(sw))
    } else if is_reading_select(&answered.command) && sw.is_success() {
        bad_fcp(answered.response.body.as_slice())
    } else {
        None
    }
}

pub(crate) fn refusal_behind(answered: &Option<Final>) -> Option<LoadError>
    ensures { result ≡ option_and_then spec.refusal_of answered.now }
{
    match answered {
        None => None,
        Some(answered) => refusal_of(answered),
    }
}
