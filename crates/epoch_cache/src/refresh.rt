// The REFRESH that a FETCH hands over, ETSI TS 102 223 clause 6.4.7.
ghost use Rattle.std.specs.Prelude.{◌≡◌};
ghost use Rattle.apdu.specs.Words.{path_is_in};
ghost use Rattle.refresh_cmd.specs.Proactive.{read_proactive};
ghost use Rattle.epoch_cache.specs.Cache as spec;

use apdu::{Command, Path, Response};
use refresh_cmd::{Proactive, read_proactive};

const FETCH: u8 = 0x12;

const REFRESH: u8 = 0x01;

/// The REFRESH that an exchange handed over, where it is a FETCH and did.
pub fn handed_refresh(command: &Command, response: &Response) -> Option<Proactive>
    ensures { result ≡ spec.handed_refresh command.now response.now }
{
    if command.ins == FETCH && response.sw.is_success() {
        refresh_of(response.body.as_slice())
    } else {
        None
    }
}

fn refresh_of(body: &[u8]) -> Option<Proactive>
    ensures { result ≡ spec.refresh_of (read_proactive body.now) }
{
    match read_proactive(body) {
        Ok(proactive) => {
            if proactive.kind == REFRESH {
                Some(proactive)
            } else {
                None
            }
        }
        Err(_) => None,
    }
}

/// Whether it asks for a reset of the card.
pub fn asks_reset(refresh: &Proactive) -> bool
    ensures { result ≡ spec.asks_reset refresh.now }
{
    matches!(refresh.qualifier, 4 | 5 | 6)
}

/// Whether the file of this path is among those that it names.
pub fn is_refreshed(path: &Path, refresh: &Proactive) -> bool
    ensures { result ≡ spec.is_refreshed path.now refresh.now }
{
    match refresh.qualifier {
        0 | 3 => true,
        1 | 2 => is_in(refresh.list.as_slice(), path),
        _ => false,
    }
}

fn is_in(paths: &[Path], path: &Path) -> bool
    ensures { result ≡ path_is_in paths.now path.now }
{
    paths.iter().any(|other| path.equals(other))
}

/// Whether what was read of this path may be old behind it.
pub fn is_moved_by(path: &Path, refresh: &Proactive) -> bool
    ensures { result ≡ spec.is_moved_by path.now refresh.now }
{
    asks_reset(refresh) || is_refreshed(path, refresh)
}
