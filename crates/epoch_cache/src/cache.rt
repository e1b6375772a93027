// What was read of the card, as far as it is current.
ghost use Rattle.std.specs.Prelude.{◌≡◌, ◌+◌, ◌<◌, ◌≤◌, ◌^◌, [], Some, None, OnOk, OnErr, map, option_map};
ghost use Rattle.std.specs.Option.{option_copied};
ghost use Rattle.epoch_cache.specs.Cache as files;
ghost use Rattle.epoch_cache.specs.Places as spec;
ghost use Rattle.epoch_cache.specs.Places.{KeepsOthers};

use crate::files::{forget_file, patch_file, put_file, taken};
use crate::{CachedFile, CachedFiles, Versions};
use apdu::{Memory, Path, Sequence};
use fcp::{ArrRef, FileView, Rows};
use std::alloc::Global;
use std::marker::Model;

/// What was read of the card, as far as it is current, and a version for each path that was tracked. Contracts see the files in the
/// order in which they were put, and the places of the paths.
#[derive(Drop)]
pub struct Cache {
    alloc: Global,
    current: CachedFiles,
    versions: Versions,
}

impl Model for Cache {
    ghost use Rattle.epoch_cache.specs.Places.{CacheValue};

    ghost Value = { CacheValue };

    ghost view = { λ c. record { files = c.current; places = c.versions } };
}

impl Cache {
    pub fn new(alloc: Global) -> Cache
        ensures { result ≡ record { files = []; places = [] } }
    {
        Cache {
            alloc,
            current: Sequence::new(alloc),
            versions: Versions::new(alloc),
        }
    }

    /// The files that are current.
    pub fn files(&self) -> &CachedFiles
        ensures { result.now ≡ self.now.files }
    {
        &self.current
    }

    /// Gives the path a place, unless it has one.
    pub fn track(&mut self, path: &Path) -> Result<(), Memory>
        ensures files { self.new.files ≡ self.old.files }
        ensures ok { OnOk result (self.new.places ≡ spec.with_place path.now self.old.places) }
        ensures err { OnErr result (self.new ≡ self.old) }
        ensures bound { spec.highest_version self.new.places
            ≡ spec.highest_version self.old.places }
    {
        self.versions.track(path)
    }

    /// The version of a path, 0 where it has no place.
    pub fn version(&self, path: &Path) -> u128
        ensures { result ≡ spec.version_of path.now self.now.places }
    {
        self.versions.get(path)
    }

    /// Makes the rows of a path current, and gives it a place.
    pub fn put(&mut self, path: &Path, rows: Rows, arr: Option<ArrRef>) -> Result<(), Memory>
        ensures files { OnOk result (self.new.files
            ≡ files.with_file (record { path = path.now; content = rows; arr = arr })
            self.old.files) }
        ensures places { OnOk result (self.new.places ≡ spec.with_place path.now self.old.places) }
        ensures taken { OnOk result (files.taken path.now self.new.files
            ≡ Some (record { path = path.now; content = rows; arr = arr })) }
        ensures others { OnOk result (KeepsOthers path.now self.old.files self.new.files) }
        ensures err { OnErr result (self.new.files ≡ self.old.files) }
        ensures bound { spec.highest_version self.new.places
            ≡ spec.highest_version self.old.places }
    {
        self.versions.track(path)?;
        let file = CachedFile {
            path: path.copy(),
            content: rows,
            arr,
        };
        put_file(self.alloc, file, &mut self.current)
    }

    /// The rows of a path, where they are current.
    pub fn take(&self, path: &Path) -> Option<&Rows>
        ensures { option_copied result ≡ spec.content_taken path.now self.now.files }
    {
        taken(path, &self.current).map(|file| &file.content)
    }

    /// The reference to the access rule of a file, where it is current and has one.
    pub fn arr(&self, path: &Path) -> Option<ArrRef>
        ensures { result ≡ spec.arr_taken path.now self.now.files }
    {
        taken(path, &self.current)?.arr
    }

    /// Writes over a row, counted from 1, of the file of a path, where that is current and has a row so wide.
    pub fn patch(&mut self, path: &Path, row: u8, bytes: &[u8])
        requires { spec.highest_version self.old.places + 1 < 2 ^ 128 }
        ensures files { self.new.files
            ≡ map (files.patched_file path.now row bytes.now) self.old.files }
        ensures places { self.new.places ≡ spec.raised_at path.now self.old.places }
        ensures taken { files.taken path.now self.new.files
            ≡ option_map (files.patched_file path.now row bytes.now)
            (files.taken path.now self.old.files) }
        ensures others { KeepsOthers path.now self.old.files self.new.files }
        ensures bound { spec.highest_version self.new.places
            ≤ spec.highest_version self.old.places + 1 }
    {
        self.versions.raise(path);
        patch_file(self.alloc, path, row, bytes, &mut self.current);
    }

    /// What was read of the path is no longer current.
    pub fn touch(&mut self, path: &Path)
        requires { spec.highest_version self.old.places + 1 < 2 ^ 128 }
        ensures files { self.new.files ≡ files.without_file path.now self.old.files }
        ensures places { self.new.places ≡ spec.raised_at path.now self.old.places }
        ensures taken { files.taken path.now self.new.files ≡ None }
        ensures others { KeepsOthers path.now self.old.files self.new.files }
        ensures bound { spec.highest_version self.new.places
            ≤ spec.highest_version self.old.places + 1 }
    {
        self.versions.raise(path);
        forget_file(self.alloc, path, &mut self.current);
    }

    /// Nothing that was read is current any longer.
    pub fn touch_all(&mut self)
        requires { spec.highest_version self.old.places + 1 < 2 ^ 128 }
        ensures files { self.new.files ≡ [] }
        ensures places { self.new.places ≡ spec.all_raised self.old.places }
        ensures bound { spec.highest_version self.new.places
            ≤ spec.highest_version self.old.places + 1 }
    {
        self.versions.raise_all();
        self.current.truncate(0);
    }

    /// The same at the end of an epoch.
    pub fn end_epoch(&mut self)
        requires { spec.highest_version self.old.places + 1 < 2 ^ 128 }
        ensures files { self.new.files ≡ [] }
        ensures places { self.new.places ≡ spec.all_raised self.old.places }
        ensures bound { spec.highest_version self.new.places
            ≤ spec.highest_version self.old.places + 1 }
    {
        self.touch_all();
    }
}

impl FileView for Cache {
    ghost content = { λ cache path. spec.content_taken path cache.files };

    fn rows(&self, path: &Path) -> Option<&Rows> {
        self.take(path)
    }
}
