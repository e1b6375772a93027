// A command and its exchanges.
ghost use Rattle.std.specs.Prelude.{◌≡◌, ◌+◌, ◌<◌, ◌^◌, Some};
ghost use Rattle.std.specs.Option.{option_copied};
ghost use Rattle.apdu.specs.Apdu.{same_command as same_command_values};
ghost use Rattle.apdu.specs.Values.{HasLe};
ghost use Rattle.apdu.specs.Words.{same_bytes, same_number as same_numbers};
ghost use Rattle.link.specs.Commands as rule;

use crate::select::is_reading_select;
use crate::status::{has_more, is_refusal, named_le, wants_more};
use apdu::{ClassKind, Command, Response, channel_of, class_for};
use arrayvec::ArrayVec;

const GET_RESPONSE: u8 = 0xC0;

pub const VERIFY: u8 = 0x20;

const MOST_EXCHANGES: u16 = 4;

const FILE_NOT_FOUND: u16 = 0x6A82;

/// A command whose last response asks for one exchange more.
#[derive(Drop)]
pub struct Chain {
    /// The command in its first form.
    pub first: Command,
    /// How many exchanges it has had.
    pub count: u8,
    /// What follows.
    pub next: Command,
}

impl Chain {
    /// The chain behind an exchange, given the chain before it; none where no exchange of the
    /// command is to follow.
    pub fn after(command: &Command, response: &Response, before: Option<&Chain>) -> Option<Chain>
        ensures { result ≡ rule.chain_after command.now response.now (option_copied before.entry) }
    {
        let going_on = continued(command, before);
        let count = count_of(going_on) as u16 + 1;
        if !asks_more(count, command, response) {
            return None;
        }
        Some(Chain {
            first: first_of(going_on, command).copy(),
            count: count as u8,
            next: follow_up(command, response),
        })
    }
}

/// A command that was answered.
#[derive(Drop)]
pub struct Final {
    /// Who sent it.
    pub actor: u8,
    /// Its first form.
    pub command: Command,
    /// The final response.
    pub response: Response,
    /// The number of its last event.
    pub event: u64,
    /// The number of its first event.
    pub first_event: u64,
}

impl Final {
    /// The final response, where an exchange after so many events gave it, given the chain before
    /// that exchange.
    pub fn after(
        actor: u8,
        command: &Command,
        response: &Response,
        events: u64,
        before: Option<&Chain>,
    ) -> Option<Final>
        requires { events + 1 < 2 ^ 64 }
        ensures { result
            ≡ rule.final_after actor command.now response.now events (option_copied before.entry) }
    {
        let going_on = continued(command, before);
        let count = count_of(going_on);
        if asks_more(count as u16 + 1, command, response) {
            return None;
        }
        Some(Final {
            actor,
            command: first_of(going_on, command).copy(),
            response: response.copy(),
            event: events + 1,
            first_event: (events + 1).saturating_sub(count as u64),
        })
    }

    /// Whether the status refuses the command; 6A82 to the SELECT of a reading does not.
    pub fn is_refused(&self) -> bool
        ensures { result ≡ rule.is_refused self.now }
    {
        is_refusal(self.response.sw)
            && !(is_reading_select(&self.command) && self.response.sw.0 == FILE_NOT_FOUND)
    }
}

/// Whether the response to exchange number `count` of a command asks for one more.
pub fn asks_more(count: u16, command: &Command, response: &Response) -> bool
    ensures { result ≡ rule.asks_more count command.now response.now }
{
    wants_more(response.sw) && count < MOST_EXCHANGES && command.ins != VERIFY
}

/// The command that follows a response 61XX or 6CXX.
pub fn follow_up(command: &Command, response: &Response) -> Command
    ensures { result ≡ rule.follow_up command.now response.now }
{
    let le = named_le(response.sw);
    if has_more(response.sw) {
        get_response_for(command, le)
    } else {
        with_le(command, le)
    }
}

/// GET RESPONSE on the channel of the command.
pub fn get_response_for(command: &Command, le: u16) -> Command
    requires { HasLe (Some le) }
    ensures { result ≡ rule.get_response_for command.now le }
{
    let class = match channel_of(command.class) {
        Some((_, channel)) => class_for(ClassKind::Plain, channel),
        None => 0,
    };
    Command {
        class,
        ins: GET_RESPONSE,
        p1: 0,
        p2: 0,
        body: ArrayVec::new(),
        le: Some(le),
    }
}

fn with_le(command: &Command, le: u16) -> Command
    requires { HasLe (Some le) }
    ensures { result ≡ record command.now { le = Some le } }
{
    let mut copy = command.copy();
    copy.le = Some(le);
    copy
}

// The chain that a command goes on with, where it is what follows.
fn continued<'a>(command: &Command, before: Option<&'a Chain>) -> Option<&'a Chain>
    ensures { option_copied result ≡ rule.continued command.now (option_copied before.entry) }
{
    match before {
        None => None,
        Some(chain) => if same_command(command, &chain.next) {
            Some(chain)
        } else {
            None
        },
    }
}

fn count_of(chain: Option<&Chain>) -> u8
    ensures { result ≡ rule.count_of (option_copied chain.entry) }
{
    match chain {
        None => 0,
        Some(chain) => chain.count,
    }
}

fn first_of<'a>(chain: Option<&'a Chain>, command: &'a Command) -> &'a Command
    ensures { result.now ≡ rule.first_of (option_copied chain.entry) command.now }
{
    match chain {
        None => command,
        Some(chain) => &chain.first,
    }
}

/// Whether two commands are the same.
pub fn same_command(a: &Command, b: &Command) -> bool
    ensures { result ≡ same_command_values a.now b.now }
{
    a.class == b.class
        && a.ins == b.ins
        && a.p1 == b.p1
        && a.p2 == b.p2
        && same_body(a, b)
        && same_number(a.le, b.le)
}

fn same_body(a: &Command, b: &Command) -> bool
    ensures { result ≡ same_bytes a.now.body b.now.body }
{
    a.body.as_slice() == b.body.as_slice()
}

fn same_number(a: Option<u16>, b: Option<u16>) -> bool
    ensures { result ≡ same_numbers a b }
{
    match (a, b) {
        (None, None) => true,
        (Some(a), Some(b)) => a == b,
        (_, _) => false,
    }
}
