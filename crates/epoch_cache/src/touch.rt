// What a line does to what was read of files.
ghost use Rattle.std.specs.Prelude.{◌≡◌, is_some};
ghost use Rattle.std.specs.Option.{option_copied};
ghost use Rattle.apdu.specs.Words.{has_value};
ghost use Rattle.link.specs.Commands.{is_at as is_path_at};
ghost use Rattle.epoch_cache.specs.Cache as spec;

use crate::refresh::{handed_refresh, is_moved_by, is_refreshed};
use crate::{Touch, Written};
use apdu::{Command, Path, Response};
use refresh_cmd::Proactive;

const UPDATE_BINARY: u8 = 0xD6;

const UPDATE_RECORD: u8 = 0xDC;

const ABSOLUTE: u8 = 0x04;

/// Whether the exchange is an UPDATE that succeeded.
pub fn is_update(command: &Command, response: &Response) -> bool
    ensures { result ≡ spec.is_update command.now response.now }
{
    matches!(command.ins, UPDATE_BINARY | UPDATE_RECORD) && response.sw.is_success()
}

/// Whether the command is UPDATE RECORD in absolute mode on the basic channel.
fn is_row_update(command: &Command) -> bool
    ensures { result ≡ spec.is_row_update command.now }
{
    command.class == 0 && command.ins == UPDATE_RECORD && command.p2 == ABSOLUTE
}

/// Whether this path is selected on the basic channel.
fn is_at(selected: Option<&Path>, path: &Path) -> bool
    ensures { result ≡ is_path_at (option_copied selected.entry) path.now }
{
    match selected {
        None => false,
        Some(selected) => path.equals(selected),
    }
}

impl Written {
    /// What an exchange wrote. `raw` says that the command is an application's, `selected` is the file that was selected before it.
    pub fn by(raw: bool, selected: Option<&Path>, command: &Command, response: &Response) -> Written
        ensures { result
            ≡ spec.written_by raw (option_copied selected.entry) command.now response.now }
    {
        if !is_update(command, response) {
            Written::Nothing
        } else if raw {
            Written::Raw
        } else if is_row_update(command) && selected.is_some() {
            Written::Row
        } else {
            Written::Unknown
        }
    }

    pub fn is_raw(self) -> bool
        ensures { result ≡ spec.is_raw_write self }
    {
        matches!(self, Written::Raw)
    }

    pub fn is_unknown(self) -> bool
        ensures { result ≡ spec.is_unknown_write self }
    {
        matches!(self, Written::Unknown)
    }

    /// Whether the framework wrote into the file of this path, or may have.
    pub fn overwrites(self, selected: Option<&Path>, path: &Path) -> bool
        ensures { result ≡ spec.is_overwritten (option_copied selected.entry) path.now self }
    {
        match self {
            Written::Row => is_at(selected, path),
            Written::Unknown => true,
            Written::Nothing | Written::Raw => false,
        }
    }
}

fn moves_path(path: &Path, refresh: &Option<Proactive>) -> bool
    ensures { result ≡ has_value (spec.is_moved_by path.now) refresh.now }
{
    match refresh {
        None => false,
        Some(refresh) => is_moved_by(path, refresh),
    }
}

fn renews_path(path: &Path, refresh: &Option<Proactive>) -> bool
    ensures { result ≡ has_value (spec.is_refreshed path.now) refresh.now }
{
    match refresh {
        None => false,
        Some(refresh) => is_refreshed(path, refresh),
    }
}

impl Touch {
    /// What an exchange does.
    pub fn exchanged(
        raw: bool,
        selected: Option<&Path>,
        command: &Command,
        response: &Response,
    ) -> Touch
        ensures { result
            ≡ spec.touch_exchanged raw (option_copied selected.entry) command.now response.now }
    {
        Touch {
            begins: false,
            written: Written::by(raw, selected, command, response),
            refresh: handed_refresh(command, response),
        }
    }

    /// Whether it moves the path: what was read of it may be old.
    pub fn moves(&self, path: &Path) -> bool
        ensures { result ≡ spec.is_moved self.now path.now }
    {
        self.begins || self.written.is_raw() || moves_path(path, &self.refresh)
    }

    /// Whether it makes a family stale that has the path.
    pub fn renews(&self, path: &Path) -> bool
        ensures { result ≡ spec.is_renewed self.now path.now }
    {
        self.begins || self.written.is_raw() || renews_path(path, &self.refresh)
    }

    /// Whether a reading of the path is to begin anew.
    pub fn spoils(&self, selected: Option<&Path>, path: &Path) -> bool
        ensures { result ≡ spec.is_spoiled self.now (option_copied selected.entry) path.now }
    {
        self.moves(path) || self.written.overwrites(selected, path)
    }

    /// Whether it moves one of the paths.
    pub fn moves_one(&self, paths: &[Path]) -> bool
        ensures { result ≡ spec.moves_one self.now paths.now }
    {
        paths.iter().any(|path| self.moves(path))
    }

    /// Whether it makes a family of these paths stale.
    pub fn renews_one(&self, paths: &[Path]) -> bool
        ensures { result ≡ spec.renews_one self.now paths.now }
    {
        paths.iter().any(|path| self.renews(path))
    }
}
