// SELECT on the basic channel, ETSI TS 102 221 clause 11.1.1.
ghost use Rattle.std.specs.Prelude.{◌≡◌, ◌≤◌, ◌*◌, length};
ghost use Rattle.apdu.specs.Words.{pair_value, path_of};
ghost use Rattle.card_model.specs.Select.{ids_of};
ghost use Rattle.link.specs.Commands as rule;

use apdu::{Command, Path};
use arrayvec::ArrayVec;

const SELECT: u8 = 0xA4;

// P1: by path from the master file.
const BY_PATH: u8 = 0x08;

// P2: the control parameters are asked for.
const WITH_PARAMETERS: u8 = 0x04;

// P2: no answer is asked for.
const WITHOUT_ANSWER: u8 = 0x0C;

/// SELECT by path from the master file, which asks for the control parameters.
pub fn select_for_reading(path: &Path) -> Command
    ensures { result ≡ rule.select_for_reading path.now }
{
    Command {
        class: 0,
        ins: SELECT,
        p1: BY_PATH,
        p2: WITH_PARAMETERS,
        body: path_body(path),
        le: Some(256),
    }
}

/// SELECT by path from the master file, without an answer.
pub fn select_only(path: &Path) -> Command
    ensures { result ≡ rule.select_only path.now }
{
    Command {
        class: 0,
        ins: SELECT,
        p1: BY_PATH,
        p2: WITHOUT_ANSWER,
        body: path_body(path),
        le: None,
    }
}

fn path_body(path: &Path) -> ArrayVec<u8, 255>
    ensures { result.items ≡ rule.path_body path.now }
{
    let mut body = ArrayVec::new();
    for id in path.ids() {
        body.push((*id / 256) as u8);
        body.push((*id % 256) as u8);
    }
    body
}

/// Whether this is a SELECT on the basic channel.
pub fn is_basic_select(command: &Command) -> bool
    ensures { result ≡ rule.is_basic_select command.now }
{
    command.class == 0 && command.ins == SELECT
}

/// Whether this is a SELECT by path on the basic channel.
pub fn is_path_select(command: &Command) -> bool
    ensures { result ≡ rule.is_path_select command.now }
{
    is_basic_select(command) && command.p1 == BY_PATH
}

/// Whether this is a SELECT by path on the basic channel which asks for the control parameters.
pub fn is_reading_select(command: &Command) -> bool
    ensures { result ≡ rule.is_reading_select command.now }
{
    is_path_select(command) && command.p2 == WITH_PARAMETERS
}

/// The path that a SELECT by path names, where its body has one to three ids.
pub fn named_path(command: &Command) -> Option<Path>
    ensures { result ≡ rule.named_path command.now }
{
    path_in(command.body.as_slice())
}

fn path_in(body: &[u8]) -> Option<Path>
    ensures { result ≡ path_of (ids_of body.now) }
{
    match body {
        [a, b] | [a, b, _] => Path::from_ids(&[file_id(*a, *b)]),
        [a, b, c, d] | [a, b, c, d, _] => Path::from_ids(&[file_id(*a, *b), file_id(*c, *d)]),
        [a, b, c, d, e, f] | [a, b, c, d, e, f, _] => Path::from_ids(&[
            file_id(*a, *b),
            file_id(*c, *d),
            file_id(*e, *f),
        ]),
        _ => None,
    }
}

fn file_id(high: u8, low: u8) -> u16
    ensures { result ≡ pair_value high low }
{
    high as u16 * 256 + low as u16
}
