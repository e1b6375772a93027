// The files that a job reads one beside another.
ghost use Rattle.std.specs.Prelude.{◌≡◌, ◌<◌, ◌≤◌, ◌+◌, true, false, option_and_then, not, filter, IsOk, IfSome, IfOk, OnOk, OnErr};
ghost use Rattle.std.specs.Option.{option_copied};
ghost use Rattle.link.specs.Commands as commands;
ghost use Rattle.loader.specs.Reading as spec;

use crate::{Reading, Readings};
use apdu::{Command, Memory, Path, Reserved, Sequence};
use epoch_cache::Touch;
use link::{Final, is_reading_select, named_path};
use std::alloc::Global;
use std::mem;

fn is_reading_of(path: &Path, g: &Reading) -> bool
    ensures { result ≡ spec.is_reading_of path.now g.now }
{
    g.path().equals(path)
}

/// The reading of a path.
pub fn reading_of<'a>(path: &Path, readings: &'a [Reading]) -> Option<&'a Reading>
    ensures { option_copied result ≡ spec.reading_of path.now readings.now }
{
    readings.iter().find(|g| is_reading_of(path, g))
}

/// The reading of the selected file.
pub fn reading_at<'a>(selected: Option<&Path>, readings: &'a [Reading]) -> Option<&'a Reading>
    ensures { option_copied result ≡ spec.reading_at (option_copied selected.entry) readings.now }
{
    match selected {
        None => None,
        Some(path) => reading_of(path, readings),
    }
}

/// Takes the reading of a path out, whose place becomes room.
fn take_out(path: &Path, readings: &mut Reserved<Reading>) -> Option<Reading>
    ensures taken { result ≡ spec.reading_of path.now readings.old.items }
    ensures rest { readings.new.items ≡ spec.without_path path.now readings.old.items }
    ensures room { IfSome result (λ g. readings.new.spare ≡ readings.old.spare + 1) }
    ensures grows { readings.old.spare ≤ readings.new.spare }
{
    for (i, g) in readings.as_slice().iter().enumerate() {
        if is_reading_of(path, g) {
            return Some(readings.remove(i));
        }
    }
    None
}

fn take_selected(selected: Option<&Path>, readings: &mut Reserved<Reading>) -> Option<Reading>
    ensures taken { result ≡ spec.reading_at (option_copied selected.entry) readings.old.items }
    ensures rest { readings.new.items
        ≡ spec.without_reading (option_copied selected.entry) readings.old.items }
    ensures room { IfSome result (λ g. readings.new.spare ≡ readings.old.spare + 1) }
    ensures grows { readings.old.spare ≤ readings.new.spare }
{
    match selected {
        None => None,
        Some(path) => take_out(path, readings),
    }
}

/// A reading that goes on is kept, and one that is complete is handed out.
fn put_back(g: Option<Reading>, readings: &mut Reserved<Reading>) -> Option<Reading>
    requires { IfSome g (λ _. 0 < readings.old.spare) }
    ensures value { result ≡ spec.complete_one g }
    ensures rest { readings.new.items ≡ spec.with_reading g readings.old.items }
{
    let g = g?;
    if g.is_complete() {
        return Some(g);
    }
    readings.push_within(g);
    None
}

pub(crate) fn is_basic_read(command: &Command) -> bool
    ensures { result ≡ spec.is_basic_read command.now }
{
    command.class == 0 && matches!(command.ins, 0xB0 | 0xB2)
}

fn begin(
    alloc: Global,
    answered: &Final,
    readings: &mut Reserved<Reading>,
) -> Result<Option<Reading>, Memory>
    requires { commands.is_reading_select answered.now.command ≡ true }
    ensures value { IfOk result (λ done. done ≡ spec.complete_one (spec.begun answered.now)) }
    ensures ok { OnOk result (readings.new.items
        ≡ spec.with_reading (spec.begun answered.now) (spec.without_reading
        (commands.named_path answered.now.command) readings.old.items)) }
    ensures err { OnErr result (readings.new.items ≡ readings.old.items) }
{
    let g = Reading::begun(alloc, answered)?;
    readings.reserve(1)?;
    let named = named_path(&answered.command);
    let _ = take_selected(named.as_ref(), readings);
    Ok(put_back(g, readings))
}

fn go_on(
    answered: &Final,
    selected: Option<&Path>,
    readings: &mut Reserved<Reading>,
) -> Option<Reading>
    ensures value { result
        ≡ spec.complete_one (option_and_then (spec.further answered.now) (spec.reading_at
        (option_copied selected.entry) readings.old.items)) }
    ensures rest { readings.new.items
        ≡ spec.with_reading (option_and_then (spec.further answered.now) (spec.reading_at
        (option_copied selected.entry) readings.old.items)) (spec.without_reading
        (option_copied selected.entry) readings.old.items) }
{
    let g = take_selected(selected, readings)?;
    put_back(g.further(answered), readings)
}

fn read_on_in(
    alloc: Global,
    answered: &Final,
    selected: Option<&Path>,
    readings: &mut Reserved<Reading>,
) -> Result<Option<Reading>, Memory>
    ensures value { IfOk result (λ done. done
        ≡ spec.complete_one (spec.reading_after answered.now
        (option_copied selected.entry) readings.old.items)) }
    ensures ok { OnOk result (readings.new.items
        ≡ spec.readings_after answered.now (option_copied selected.entry) readings.old.items) }
    ensures err { OnErr result (readings.new.items ≡ readings.old.items) }
    ensures room { commands.is_reading_select answered.now.command ≡ false → IsOk result }
{
    if is_reading_select(&answered.command) {
        begin(alloc, answered, readings)
    } else if is_basic_read(&answered.command) {
        Ok(go_on(answered, selected, readings))
    } else {
        Ok(None)
    }
}

/// Leads a job's readings on by a command of its own that was answered, and hands out the reading
/// that it completed. `selected` is current on the basic channel.
pub fn read_on(
    alloc: Global,
    answered: &Final,
    selected: Option<&Path>,
    readings: &mut Readings,
) -> Result<Option<Reading>, Memory>
    ensures value { IfOk result (λ done. done
        ≡ spec.complete_one (spec.reading_after answered.now
        (option_copied selected.entry) readings.old)) }
    ensures ok { OnOk result (readings.new
        ≡ spec.readings_after answered.now (option_copied selected.entry) readings.old) }
    ensures err { OnErr result (readings.new ≡ readings.old) }
    ensures room { commands.is_reading_select answered.now.command ≡ false → IsOk result }
{
    let mut list = Reserved::from_sequence(mem::replace(readings, Sequence::new(alloc)));
    let done = read_on_in(alloc, answered, selected, &mut list);
    *readings = list.into_sequence();
    done
}

fn keep_unspoiled(touch: &Touch, selected: Option<&Path>, readings: &mut Vec<Reading>)
    ensures { readings.new.items
        ≡ spec.unspoiled touch.now (option_copied selected.entry) readings.old.items }
{
    readings.retain(|g| !touch.spoils(selected, g.path()));
}

/// Drops the readings of what moved or was written, which are to begin anew. This takes no memory.
pub fn drop_spoiled(alloc: Global, touch: &Touch, selected: Option<&Path>, readings: &mut Readings)
    ensures { readings.new ≡ spec.unspoiled touch.now (option_copied selected.entry) readings.old }
{
    let mut items = mem::replace(readings, Sequence::new(alloc)).into_vec();
    keep_unspoiled(touch, selected, &mut items);
    *readings = Sequence::from_vec(items);
}
