// What an exchange does to what was read of the card.
ghost use Rattle.std.specs.Prelude.{◌≡◌, ◌+◌, ◌<◌, ◌≤◌, ◌^◌, length, OnOk, OnErr};
ghost use Rattle.std.specs.Option.{option_copied};
ghost use Rattle.epoch_cache.specs.Cache.{files_exchanged, forgotten, patched, with_completed, written_files};
ghost use Rattle.epoch_cache.specs.Places as spec;

use crate::refresh::asks_reset;
use crate::{Cache, CachedFile, Touch, Written};
use apdu::{Command, Memory, Path};
use refresh_cmd::Proactive;

/// Whether it names every file, or asks for a reset.
fn renews_every(refresh: &Proactive) -> bool
    ensures { result ≡ spec.renews_every refresh.now }
{
    asks_reset(refresh) || matches!(refresh.qualifier, 0 | 3)
}

/// Whether it names the files of its list.
fn names_listed(refresh: &Proactive) -> bool
    ensures { result ≡ spec.names_listed refresh.now }
{
    matches!(refresh.qualifier, 1 | 2)
}

/// Whether it moves every path, whatever was handed over.
fn moves_every(touch: &Touch) -> bool
    ensures { result ≡ spec.moves_every touch.now }
{
    touch.begins || touch.written.is_raw()
}

impl Cache {
    /// What was read of these paths is no longer current.
    pub fn touch_listed(&mut self, paths: &[Path])
        requires { spec.highest_version self.old.places + length paths.now < 2 ^ 128 }
        ensures files { self.new.files ≡ spec.without_listed paths.now self.old.files }
        ensures places { self.new.places ≡ spec.raised_in_turn paths.now self.old.places }
        ensures bound { spec.highest_version self.new.places
            ≤ spec.highest_version self.old.places + length paths.now }
    {
        for path in paths {
            self.touch(path);
        }
    }

    /// What a REFRESH names is no longer current.
    fn touch_refreshed(&mut self, refresh: &Proactive)
        requires { spec.highest_version self.old.places + 64 < 2 ^ 128 }
        ensures files { self.new.files ≡ spec.without_refreshed refresh.now self.old.files }
        ensures places { self.new.places ≡ spec.refreshed_places refresh.now self.old.places }
        ensures bound { spec.highest_version self.new.places
            ≤ spec.highest_version self.old.places + 64 }
    {
        if renews_every(refresh) {
            self.touch_all();
        } else if names_listed(refresh) {
            self.touch_listed(refresh.list.as_slice());
        }
    }

    /// What an exchange or another event moved is no longer current.
    pub fn touch_moved(&mut self, touch: &Touch)
        requires { spec.highest_version self.old.places + 64 < 2 ^ 128 }
        ensures files { self.new.files ≡ forgotten touch.now self.old.files }
        ensures places { self.new.places ≡ spec.moved_places touch.now self.old.places }
        ensures bound { spec.highest_version self.new.places
            ≤ spec.highest_version self.old.places + 64 }
    {
        if moves_every(touch) {
            self.touch_all();
        } else if let Some(refresh) = &touch.refresh {
            self.touch_refreshed(refresh);
        }
    }

    /// What the framework wrote: a row of the selected file is written over, and where it is not known what was written, nothing that was
    /// read is current any longer.
    pub fn write(&mut self, selected: Option<&Path>, command: &Command, written: Written)
        requires { spec.highest_version self.old.places + 1 < 2 ^ 128 }
        ensures files { self.new.files
            ≡ written_files (option_copied selected.entry) command.now self.old.files written }
        ensures places { self.new.places
            ≡ spec.written_places (option_copied selected.entry) self.old.places written }
        ensures bound { spec.highest_version self.new.places
            ≤ spec.highest_version self.old.places + 1 }
    {
        match written {
            Written::Nothing | Written::Raw => {}
            Written::Unknown => self.touch_all(),
            Written::Row => self.write_row(selected, command),
        }
    }

    fn write_row(&mut self, selected: Option<&Path>, command: &Command)
        requires { spec.highest_version self.old.places + 1 < 2 ^ 128 }
        ensures files { self.new.files
            ≡ patched (option_copied selected.entry) command.now self.old.files }
        ensures places { self.new.places
            ≡ spec.patched_places (option_copied selected.entry) self.old.places }
        ensures bound { spec.highest_version self.new.places
            ≤ spec.highest_version self.old.places + 1 }
    {
        if let Some(path) = selected {
            self.patch(path, command.p1, command.body.as_slice());
        }
    }

    /// Puts the file of a reading that was completed.
    pub fn put_completed(&mut self, completed: Option<CachedFile>) -> Result<(), Memory>
        ensures files { OnOk result (self.new.files ≡ with_completed completed self.old.files) }
        ensures err { OnErr result (self.new.files ≡ self.old.files) }
        ensures bound { spec.highest_version self.new.places
            ≡ spec.highest_version self.old.places }
    {
        match completed {
            None => Ok(()),
            Some(file) => {
                let CachedFile { path, content, arr } = file;
                self.put(&path, content, arr)
            }
        }
    }

    /// Changes the files as an exchange did. `completed` is the file of the reading that it completed.
    pub fn exchange(
        &mut self,
        touch: &Touch,
        selected: Option<&Path>,
        command: &Command,
        completed: Option<CachedFile>,
    ) -> Result<(), Memory>
        requires { spec.highest_version self.old.places + 65 < 2 ^ 128 }
        ensures files { OnOk result (self.new.files
            ≡ files_exchanged touch.now (option_copied selected.entry) command.now completed
            self.old.files) }
        ensures bound { spec.highest_version self.new.places
            ≤ spec.highest_version self.old.places + 65 }
    {
        self.write(selected, command, touch.written);
        self.touch_moved(touch);
        self.put_completed(completed)
    }
}
