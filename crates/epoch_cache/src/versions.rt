// The paths that a cache knows, and their versions.
ghost use Rattle.std.specs.Prelude.{◌≡◌, ◌+◌, ◌<◌, ◌≤◌, ◌^◌, [], OnOk, OnErr};
ghost use Rattle.epoch_cache.specs.Places as spec;

use apdu::{Memory, Path};
use arrayvec::ArrayVec;
use indexmap::IndexMap;
use std::alloc::Global;
use std::marker::Model;

/// A path by its ids, as a key.
type Key = ArrayVec<u16, 3>;

fn key_of(path: &Path) -> Key
    ensures { result.items ≡ path.now }
{
    let mut key = ArrayVec::new();
    let _ = key.try_extend_from_slice(path.ids());
    key
}

/// The versions of paths. Contracts see a place for each path, in the order in which they came.
#[derive(Drop)]
pub struct Versions {
    by_path: IndexMap<Key, u128>,
}

impl Model for Versions {
    ghost use Rattle.std.specs.Prelude.{List, map};
    ghost use Rattle.epoch_cache.specs.Places.{Place};

    ghost Value = { List Place };

    ghost view = { λ v. map (λ e. record { path = e.0.items; version = e.1 }) v.by_path.entries };
}

impl Versions {
    pub fn new(alloc: Global) -> Versions
        ensures { result ≡ [] }
    {
        Versions {
            by_path: IndexMap::new(alloc),
        }
    }

    pub fn get(&self, path: &Path) -> u128
        ensures value { result ≡ spec.version_of path.now self.now }
    {
        self.by_path.get(&key_of(path)).copied().unwrap_or(0)
    }

    /// Gives the path a place, unless it has one.
    pub fn track(&mut self, path: &Path) -> Result<(), Memory>
        ensures ok { OnOk result (self.new ≡ spec.with_place path.now self.old) }
        ensures err { OnErr result (self.new ≡ self.old) }
        ensures bound { spec.highest_version self.new ≡ spec.highest_version self.old }
    {
        let key = key_of(path);
        if !self.by_path.contains_key(&key) {
            self.by_path.insert(key, 0)?;
        }
        Ok(())
    }

    /// Raises the version of a path, where it has a place.
    pub fn raise(&mut self, path: &Path)
        requires { spec.highest_version self.old + 1 < 2 ^ 128 }
        ensures value { self.new ≡ spec.raised_at path.now self.old }
        ensures bound { spec.highest_version self.new ≤ spec.highest_version self.old + 1 }
    {
        let Some(version) = self.by_path.get_mut(&key_of(path)) else {
            return;
        };
        *version += 1;
    }

    /// Raises every version.
    pub fn raise_all(&mut self)
        requires { spec.highest_version self.old + 1 < 2 ^ 128 }
        ensures value { self.new ≡ spec.all_raised self.old }
        ensures bound { spec.highest_version self.new ≤ spec.highest_version self.old + 1 }
    {
        for i in 0..self.by_path.len() {
            self.by_path[i] += 1;
        }
    }
}
