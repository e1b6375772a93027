// The commands of logical channels, ETSI TS 102 221 clauses 8.7, 11.1.1 and 11.1.17.
ghost use Rattle.std.specs.Prelude.{◌≡◌, ◌≤◌, [], length, IfSome};
ghost use Rattle.channels.specs.Channels as spec;

use apdu::{ClassKind, Command, channel_of, class_for};
use arrayvec::ArrayVec;
use link::Final;

const SELECT: u8 = 0xA4;

const MANAGE_CHANNEL: u8 = 0x70;

const OPEN: u8 = 0x00;

const CLOSE: u8 = 0x80;

// P1 and P2 of a SELECT by the identifier of an application, without an answer.
const BY_AID: u8 = 0x04;

const WITHOUT_ANSWER: u8 = 0x0C;

const HIGHEST_CHANNEL: u8 = 19;

/// MANAGE CHANNEL which opens a channel, whose number the card assigns.
pub fn open_command() -> Command
    ensures { result ≡ spec.open_command }
{
    Command {
        class: 0,
        ins: MANAGE_CHANNEL,
        p1: OPEN,
        p2: 0,
        body: ArrayVec::new(),
        le: Some(1),
    }
}

/// MANAGE CHANNEL which closes a channel.
pub fn close_command(number: u8) -> Command
    ensures { result ≡ spec.close_command number }
{
    Command {
        class: 0,
        ins: MANAGE_CHANNEL,
        p1: CLOSE,
        p2: number,
        body: ArrayVec::new(),
        le: None,
    }
}

/// SELECT of an application on a channel.
pub fn select_application(channel: u8, aid: &[u8]) -> Command
    requires channel { channel ≤ 19 }
    requires short { length aid.now ≤ 255 }
    ensures { result ≡ spec.select_application channel aid.now }
{
    let mut body = ArrayVec::new();
    let _ = body.try_extend_from_slice(aid);
    Command {
        class: class_for(ClassKind::Plain, channel),
        ins: SELECT,
        p1: BY_AID,
        p2: WITHOUT_ANSWER,
        body,
        le: None,
    }
}

/// Whether the command opens a channel.
pub fn is_opening(command: &Command) -> bool
    ensures { result ≡ spec.is_opening command.now }
{
    command.ins == MANAGE_CHANNEL && command.p1 == OPEN
}

fn new_number(body: &[u8]) -> Option<u8>
    ensures value { result ≡ spec.new_number [] body.now }
    ensures within { IfSome result (λ number. number ≤ 19) }
{
    match body {
        [number] => if 1 <= *number && *number <= HIGHEST_CHANNEL {
            Some(*number)
        } else {
            None
        },
        _ => None,
    }
}

/// The number that a MANAGE CHANNEL gave: one byte from 1 to 19.
pub fn assigned_number(answered: &Final) -> Option<u8>
    ensures value { result ≡ spec.opened_number [] answered.now }
    ensures within { IfSome result (λ number. number ≤ 19) }
{
    if answered.response.sw.is_success() {
        new_number(answered.response.body.as_slice())
    } else {
        None
    }
}

/// The command with the class of its kind for a channel.
pub fn on_channel(channel: u8, command: &Command) -> Command
    requires { channel ≤ 19 }
    ensures { result ≡ spec.on_channel channel command.now }
{
    let mut copy = command.copy();
    if let Some((kind, _)) = channel_of(command.class) {
        copy.class = class_for(kind, channel);
    }
    copy
}
