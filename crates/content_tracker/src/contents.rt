// What the current files of each family are decoded to.
ghost use Rattle.std.specs.Prelude.{◌≡◌, ◌<◌, true, is_some, IfOk};
ghost use Rattle.std.specs.Option.{option_copied};
ghost use Rattle.epoch_cache.specs.Cache.{view_of_files};
ghost use Rattle.families.specs.Contents as families;
ghost use Rattle.families.specs.Families.{shown};
ghost use Rattle.link.specs.Commands as commands;
ghost use Rattle.loader.specs.Reading as reading;
ghost use Rattle.content_tracker.specs.Contents as spec;

use apdu::{Command, Memory, Path, Text};
use card_model::WorldEvent;
use editor::has_path;
use epoch_cache::CachedFiles;
use families::{ContentText, Families, Standard, StandardContent};
use family_files::CurrentFiles;
use link::{Chain, is_reading_select, named_path};
use std::alloc::Global;

pub(crate) const RECORDS: u8 = 0;

pub(crate) const PHONEBOOK: u8 = 1;

pub(crate) const FIXED: u8 = 2;

/// What the current files of each family are decoded to, where that is kept.
#[derive(Drop)]
pub struct Contents {
    pub records: Option<StandardContent>,
    pub phonebook: Option<StandardContent>,
    pub fixed: Option<StandardContent>,
}

impl Contents {
    /// Nothing is kept.
    pub fn new() -> Contents
        ensures { result ≡ spec.no_contents }
    {
        Contents {
            records: None,
            phonebook: None,
            fixed: None,
        }
    }

    /// Nothing is kept any more.
    pub fn clear(&mut self)
        ensures { self.new ≡ spec.no_contents }
    {
        *self = Contents::new();
    }

    /// The text of a family, whose files are decoded where their content is not kept. `count` counts the decodings.
    pub fn text(
        &mut self,
        alloc: Global,
        family: u8,
        files: &CachedFiles,
        count: &mut u64,
    ) -> Result<Text, Memory>
        requires known { family < families.family_count }
        requires contents { spec.AreOf files.now self.old }
        ensures contents { spec.AreOf files.now self.new }
        ensures once { is_some (spec.kept_of family self.old) ≡ true → count.new ≡ count.old }
        ensures kept { IfOk result (λ text. is_some (spec.kept_of family self.new) ≡ true) }
        ensures text { IfOk result (λ text. text ≡ shown family (view_of_files files.now)) }
    {
        if family == RECORDS {
            text_of(alloc, RECORDS, files, &mut self.records, count)
        } else if family == PHONEBOOK {
            text_of(alloc, PHONEBOOK, files, &mut self.phonebook, count)
        } else {
            text_of(alloc, FIXED, files, &mut self.fixed, count)
        }
    }
}

// ---- texts

/// What the current files of a family are decoded to, which is counted.
fn decoded(
    alloc: Global,
    family: u8,
    files: &CachedFiles,
    count: &mut u64,
) -> Result<StandardContent, Memory>
    requires { family < families.family_count }
    ensures content { IfOk result (λ content.
        content ≡ families.decoded family (view_of_files files.now)) }
    ensures count { count.new ≡ spec.counted_on count.old }
{
    *count = count.saturating_add(1);
    Standard.decode(alloc, family, &CurrentFiles { files })
}

fn kept_or_decoded(
    alloc: Global,
    family: u8,
    files: &CachedFiles,
    kept: Option<StandardContent>,
    count: &mut u64,
) -> Result<StandardContent, Memory>
    requires known { family < families.family_count }
    requires kept { spec.IsOf family files.now kept }
    ensures content { IfOk result (λ content.
        content ≡ families.decoded family (view_of_files files.now)) }
    ensures once { is_some kept ≡ true → count.new ≡ count.old }
{
    match kept {
        Some(content) => Ok(content),
        None => decoded(alloc, family, files, count),
    }
}

fn text_of(
    alloc: Global,
    family: u8,
    files: &CachedFiles,
    kept: &mut Option<StandardContent>,
    count: &mut u64,
) -> Result<Text, Memory>
    requires known { family < families.family_count }
    requires kept { spec.IsOf family files.now kept.old }
    ensures content { spec.IsOf family files.now kept.new }
    ensures once { is_some kept.old ≡ true → count.new ≡ count.old }
    ensures kept { IfOk result (λ text. is_some kept.new ≡ true) }
    ensures text { IfOk result (λ text. text ≡ shown family (view_of_files files.now)) }
{
    let content = kept_or_decoded(alloc, family, files, kept.take(), count)?;
    let text = content.text(alloc);
    *kept = Some(content);
    text
}

// ---- files that are read

fn is_basic_read(command: &Command) -> bool
    ensures { result ≡ reading.is_basic_read command.now }
{
    command.class == 0 && matches!(command.ins, 0xB0 | 0xB2)
}

/// The path that a command reads, or selects to read it.
fn path_read<'a>(
    selected: Option<&'a Path>,
    command: &Command,
    named: &'a Option<Path>,
) -> Option<&'a Path>
    requires { named.now ≡ commands.named_path command.now }
    ensures { option_copied result ≡ spec.path_read (option_copied selected.entry) command.now }
{
    if is_reading_select(command) {
        named.as_ref()
    } else if is_basic_read(command) {
        selected
    } else {
        None
    }
}

/// Forgets what is kept of a family, where it has the path that is read.
fn leave_if_read(family: u8, read: Option<&Path>, kept: &mut Option<StandardContent>)
    ensures { kept.new ≡ spec.unless_in family (option_copied read.entry) kept.old }
{
    match read {
        None => {}
        Some(path) => {
            if kept.is_some() && has_path(family, path) {
                *kept = None;
            }
        }
    }
}

impl Contents {
    fn leave_read(&mut self, read: Option<&Path>)
        ensures { self.new ≡ spec.without_read (option_copied read.entry) self.old }
    {
        leave_if_read(RECORDS, read, &mut self.records);
        leave_if_read(PHONEBOOK, read, &mut self.phonebook);
        leave_if_read(FIXED, read, &mut self.fixed);
    }

    /// Forgets the family of the path that a command, or the first form of its chain, reads. `selected` is current on the basic channel.
    pub fn leave_readings(
        &mut self,
        selected: Option<&Path>,
        command: &Command,
        chain: Option<&Chain>,
    )
        ensures { self.new ≡ spec.without_readings (option_copied selected.entry) command.now
            (option_copied chain.entry) self.old }
    {
        let named = named_path(command);
        self.leave_read(path_read(selected, command, &named));
        match chain {
            None => {}
            Some(chain) => {
                let named = named_path(&chain.first);
                self.leave_read(path_read(selected, &chain.first, &named));
            }
        }
    }

    /// Forgets all, where an event of the world changes which card is read: a change that is armed leaves all as it is.
    pub fn follow_event(&mut self, event: &WorldEvent)
        ensures { self.new ≡ spec.behind_event event.now self.old }
    {
        match event {
            WorldEvent::Arm(_) => {}
            WorldEvent::Out | WorldEvent::Insert(_) => self.clear(),
        }
    }
}
