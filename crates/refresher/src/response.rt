// Proactive commands that are fetched, and the answers to them, TS 102 223 clause 6.
ghost use Rattle.std.specs.Prelude.{◌≡◌};
ghost use Rattle.std.specs.Option.{option_copied};
ghost use Rattle.apdu.specs.Words.{has_value};
ghost use Rattle.epoch_cache.specs.Cache.{asks_reset as asks_for_reset};
ghost use Rattle.refresh_cmd.specs.Proactive.{read_proactive as proactive_of};
ghost use Rattle.refresher.specs.Refresh as spec;

use apdu::Command;
use arrayvec::ArrayVec;
use epoch_cache::asks_reset;
use link::Final;
use refresh_cmd::{Proactive, ProactiveError, read_proactive, write_terminal_response};

const FETCH: u8 = 0x12;

const TERMINAL_RESPONSE: u8 = 0x14;

const REFRESH: u8 = 0x01;

// General results, TS 102 223 clause 8.12.
const PERFORMED: u8 = 0x00;

const TYPE_NOT_UNDERSTOOD: u8 = 0x31;

const DATA_NOT_UNDERSTOOD: u8 = 0x32;

/// FETCH of what a status 91XX announced, whose second byte this is; 00 stands for 256 bytes.
pub fn fetch_command(byte: u8) -> Command
    ensures { result ≡ spec.fetch_command byte }
{
    Command {
        class: 0x80,
        ins: FETCH,
        p1: 0,
        p2: 0,
        body: ArrayVec::new(),
        le: Some(if byte == 0 { 256 } else { byte as u16 }),
    }
}

fn result_of(proactive: &Proactive) -> u8
    ensures { result ≡ spec.result_of proactive.now }
{
    if proactive.kind != REFRESH {
        TYPE_NOT_UNDERSTOOD
    } else if proactive.qualifier <= 7 {
        PERFORMED
    } else {
        DATA_NOT_UNDERSTOOD
    }
}

fn response_to(read: &Result<Proactive, ProactiveError>) -> ArrayVec<u8, 12>
    ensures { result.items ≡ spec.response_to read.now }
{
    match read {
        Ok(p) => write_terminal_response(p.number, p.kind, p.qualifier, result_of(p)),
        Err(_) => write_terminal_response(1, 0, 0, DATA_NOT_UNDERSTOOD),
    }
}

fn response_command(bytes: &ArrayVec<u8, 12>) -> Command
    ensures { result ≡ spec.response_command bytes.now.items }
{
    let mut body = ArrayVec::new();
    let _ = body.try_extend_from_slice(bytes.as_slice());
    Command {
        class: 0x80,
        ins: TERMINAL_RESPONSE,
        p1: 0,
        p2: 0,
        body,
        le: None,
    }
}

fn response_for(bytes: &[u8]) -> Command
    ensures { result ≡ spec.response_command (spec.response_to (proactive_of bytes.now)) }
{
    response_command(&response_to(&read_proactive(bytes)))
}

fn is_reset_asked(refresh: Option<&Proactive>) -> bool
    ensures { result ≡ has_value asks_for_reset (option_copied refresh.entry) }
{
    match refresh {
        None => false,
        Some(refresh) => asks_reset(refresh),
    }
}

fn owed_to(refresh: Option<&Proactive>, answered: &Final) -> Option<Command>
    ensures { result ≡ spec.owed_to (option_copied refresh.entry) answered.now }
{
    if answered.response.sw.is_success() && !is_reset_asked(refresh) {
        Some(response_for(answered.response.body.as_slice()))
    } else {
        None
    }
}

fn owed_after(
    refresh: Option<&Proactive>,
    answered: &Final,
    before: Option<Command>,
) -> Option<Command>
    ensures { result ≡ spec.owed_after (option_copied refresh.entry) answered.now before }
{
    match answered.command.ins {
        FETCH => owed_to(refresh, answered),
        TERMINAL_RESPONSE => None,
        _ => before,
    }
}

/// The TERMINAL RESPONSE that is owed behind an exchange. `answered` is the command to which it gave the final response, and `refresh` the
/// REFRESH that it handed over.
pub fn owed_by(
    refresh: Option<&Proactive>,
    answered: Option<&Final>,
    before: Option<Command>,
) -> Option<Command>
    ensures { result
        ≡ spec.owed_by (option_copied refresh.entry) (option_copied answered.entry) before }
{
    match answered {
        None => before,
        Some(answered) => owed_after(refresh, answered, before),
    }
}
