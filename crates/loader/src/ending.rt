// How a reading ends.
ghost use Rattle.std.specs.Prelude.{◌≡◌, false, IsOk, IfOk, OnOk, OnErr, option_map};
ghost use Rattle.std.specs.Option.{option_copied};
ghost use Rattle.apdu.specs.Words.{has_value};
ghost use Rattle.card_model.specs.Card.{is_in_application as is_application_path};
ghost use Rattle.link.specs.Commands as commands;
ghost use Rattle.loader.specs.Reading as spec;
ghost use Rattle.loader.specs.Values.{ReadingValue};

use crate::readings::is_basic_read;
use crate::{Reading, Readings, RefusedReading, read_on, reading_at};
use apdu::{Memory, Path};
use epoch_cache::CachedFile;
use fcp::{Rows, read_fcp};
use link::{Final, is_reading_select, named_path, wants_more};
use std::alloc::Global;

const APPLICATION: u16 = 0x7FFF;

const FILE_NOT_FOUND: u16 = 0x6A82;

fn is_in_application(path: &Path) -> bool
    ensures { result ≡ is_application_path path.now }
{
    matches!(path.ids(), [APPLICATION, ..])
}

fn names_application(path: &Option<Path>) -> bool
    ensures { result ≡ has_value is_application_path path.now }
{
    match path {
        None => false,
        Some(path) => is_in_application(path),
    }
}

/// Whether the card tells that it has no file of the path: 6A82 to the SELECT of a reading. Of a
/// file of the USIM it tells so only once start-up is finished, which has selected the USIM.
pub fn tells_no_file(started: bool, answered: &Final) -> bool
    ensures { result ≡ spec.tells_no_file started answered.now }
{
    is_reading_select(&answered.command)
        && answered.response.sw.0 == FILE_NOT_FOUND
        && (started || !names_application(&named_path(&answered.command)))
}

fn no_file(alloc: Global, path: Option<Path>) -> Option<CachedFile>
    ensures { result ≡ option_map spec.no_file path }
{
    Some(CachedFile {
        path: path?,
        content: Rows::missing(alloc),
        arr: None,
    })
}

fn file_of(alloc: Global, done: Option<Reading>) -> Option<CachedFile>
    ensures { result ≡ option_map spec.file_read done }
{
    Some(done?.into_file(alloc))
}

/// Leads a job's readings on by a command of its own that was answered, as `read_on` does, and
/// hands out the file that the command completed. `started` says that start-up is finished.
pub fn completed_by(
    alloc: Global,
    started: bool,
    answered: &Final,
    selected: Option<&Path>,
    readings: &mut Readings,
) -> Result<Option<CachedFile>, Memory>
    ensures value { IfOk result (λ file. file
        ≡ spec.completed_by started answered.now (option_copied selected.entry) readings.old) }
    ensures ok { OnOk result (readings.new
        ≡ spec.readings_after answered.now (option_copied selected.entry) readings.old) }
    ensures err { OnErr result (readings.new ≡ readings.old) }
    ensures room { commands.is_reading_select answered.now.command ≡ false → IsOk result }
{
    let done = read_on(alloc, answered, selected, readings)?;
    if tells_no_file(started, answered) {
        Ok(no_file(alloc, named_path(&answered.command)))
    } else {
        Ok(file_of(alloc, done))
    }
}

/// Whether the SELECT of a reading succeeded with a body that is no template of control
/// parameters.
pub fn has_bad_fcp(answered: &Final) -> bool
    ensures { result ≡ spec.has_bad_fcp answered.now }
{
    is_reading_select(&answered.command)
        && answered.response.sw.is_success()
        && read_fcp(answered.response.body.as_slice()).is_err()
}

fn refused_select(answered: &Final) -> Option<RefusedReading>
    ensures { result ≡ option_map (λ path. spec.refused_at path answered.now.first_event)
        (commands.named_path answered.now.command) }
{
    Some(RefusedReading {
        path: named_path(&answered.command)?,
        first_event: answered.first_event,
    })
}

fn refused_read(g: Option<&Reading>) -> Option<RefusedReading>
    ensures { result ≡ option_map (λ (g : ReadingValue). spec.refused_at g.path g.first_event)
        (option_copied g.entry) }
{
    let g = g?;
    Some(RefusedReading {
        path: g.path().copy(),
        first_event: g.first_event(),
    })
}

/// The reading that the command ended by a refusal. `readings` are those before it, and `selected`
/// is current on the basic channel.
pub fn refused_by(
    answered: &Final,
    selected: Option<&Path>,
    readings: &[Reading],
) -> Option<RefusedReading>
    ensures { result ≡ spec.refused_by answered.now (option_copied selected.entry) readings.now }
{
    if is_reading_select(&answered.command) {
        if answered.is_refused() || wants_more(answered.response.sw) || has_bad_fcp(answered) {
            return refused_select(answered);
        }
    } else if is_basic_read(&answered.command) && !answered.response.sw.is_success() {
        return refused_read(reading_at(selected, readings));
    }
    None
}
