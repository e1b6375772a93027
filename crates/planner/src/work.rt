// What a turn has to do, but for edits.
ghost use Rattle.std.specs.Prelude.{◌≡◌, true};
ghost use Rattle.std.specs.Option.{option_copied};
ghost use Rattle.families.specs.Families as families;
ghost use Rattle.rules.specs.Channels as channel_rules;
ghost use Rattle.rules.specs.Sessions as session_rules;
ghost use Rattle.rules.specs.Work as spec;
ghost use Rattle.planner.specs.Room.{channel_fits};

use crate::holdings::lives_in;
use crate::open::{first_stale, is_starting};
use apdu::{Command, Path};
use arrayvec::ArrayVec;
use channels::{close_command, on_channel};
use editor::family_paths;
use epoch_cache::{CachedFiles, first_missing};
use refresher::{fetch_command, startup_command};
use rules::{Begun, Decision, Handle, Kept, Work};

const VERIFY: u8 = 0x20;

const STATUS: u8 = 0xF2;

// P2 of a STATUS which asks for no data.
const WITHOUT_DATA: u8 = 0x0C;

// The class of the commands of the toolkit.
const TOOLKIT: u8 = 0x80;

/// No attempt of an edit begins.
pub fn decides(work: Work) -> Decision
    ensures { result ≡ spec.decides work }
{
    Decision {
        work,
        attempt: None,
    }
}

pub fn reads_first(files: &CachedFiles, paths: &[Path]) -> Work
    ensures { result ≡ spec.reads_first files.now paths.now }
{
    match first_missing(files, paths) {
        None => Work::Rests,
        Some(path) => Work::Reads(path.copy()),
    }
}

/// The first file of a family that is not current.
pub fn reads_family(files: &CachedFiles, family: u8) -> Work
    ensures { result ≡ spec.reads_first files.now (families.family_paths family) }
{
    reads_first(files, family_paths(family).as_slice())
}

// ---- the framework

/// The family that a turn of the framework reads: the first stale one, where nothing else is open.
pub fn family_read(kept: &Kept) -> Option<u8>
    ensures { result ≡ spec.family_read kept.now }
{
    if kept.history.owes_reset
        || !kept.history.living
        || is_starting(kept)
        || kept.owed.is_some()
        || kept.history.announced.is_some()
    {
        None
    } else {
        first_stale(&kept.standings)
    }
}

fn read_stale(kept: &Kept) -> Work
    ensures { result ≡ spec.read_stale kept.now }
{
    match first_stale(&kept.standings) {
        None => Work::Rests,
        Some(family) => reads_family(&kept.files, family),
    }
}

// The first open item, of a card that lives.
fn first_item(kept: &Kept) -> Work
    ensures { result ≡ spec.first_item kept.now }
{
    if is_starting(kept) {
        return Work::Sends(startup_command(kept.startup));
    }
    match &kept.owed {
        Some(command) => Work::Sends(command.copy()),
        None => match kept.history.announced {
            Some(byte) => Work::Sends(fetch_command(byte)),
            None => read_stale(kept),
        },
    }
}

/// What a turn of the framework has to do: the first open item.
pub fn framework_work(kept: &Kept) -> Work
    ensures { result ≡ spec.framework_work kept.now }
{
    if kept.history.owes_reset {
        Work::Resets
    } else if kept.history.living {
        first_item(kept)
    } else {
        Work::Rests
    }
}

// ---- operations

/// STATUS, ETSI TS 102 221 clause 11.1.2.
pub(crate) fn status_command() -> Command
    ensures { result ≡ spec.status_command }
{
    Command {
        class: TOOLKIT,
        ins: STATUS,
        p1: 0,
        p2: WITHOUT_DATA,
        body: ArrayVec::new(),
        le: None,
    }
}

/// VERIFY PIN, ETSI TS 102 221 clause 11.1.9.
pub(crate) fn verify_command(key: u8, pin: &[u8; 8]) -> Command
    ensures { result ≡ session_rules.verify_command key pin.now }
{
    let mut body = ArrayVec::new();
    let _ = body.try_extend_from_slice(pin);
    Command {
        class: 0,
        ins: VERIFY,
        p1: 0,
        p2: key,
        body,
        le: None,
    }
}

/// The work, in the epoch in which the operation began.
pub(crate) fn if_living(kept: &Kept, begun: &Begun, work: Work) -> Work
    ensures { result ≡ spec.if_living kept.now begun.now work }
{
    if lives_in(kept.history, begun.epoch) {
        work
    } else {
        Work::Rests
    }
}

// The instructions that an application may send.
pub(crate) fn is_raw_ins(ins: u8) -> bool
    ensures { result ≡ channel_rules.is_raw_ins ins }
{
    matches!(ins, 0xA4 | 0xF2 | 0xB0 | 0xD6 | 0xB2 | 0xDC)
}

/// A command of the application on the channel that it holds.
pub(crate) fn sends_raw(command: &Command, held: Option<&Handle>) -> Work
    requires { channel_fits (option_copied held) ≡ true }
    ensures { result ≡ spec.sends_raw command.now (option_copied held.entry) }
{
    match held {
        None => Work::Rests,
        Some(held) => {
            if is_raw_ins(command.ins) {
                Work::Sends(on_channel(held.number, command))
            } else {
                Work::Rests
            }
        }
    }
}

/// The close of the channel that an application holds.
pub(crate) fn sends_close(held: Option<&Handle>) -> Work
    ensures { result ≡ spec.sends_close (option_copied held.entry) }
{
    match held {
        None => Work::Rests,
        Some(held) => Work::Sends(close_command(held.number)),
    }
}
