// What the answer to each command comes to.
ghost use Rattle.std.specs.Prelude.{◌≡◌, false, IfOk, IfSome};
ghost use Rattle.apdu.specs.Words.{is_between, is_one_of};
ghost use Rattle.channels.specs.Channels as command;
ghost use Rattle.channel_table.specs.Opening as spec;
ghost use Rattle.channel_table.specs.Values.{IsNumber};

use crate::{CloseError, OpenError};
use apdu::{Response, Sw};
use link::LinkError;

const NO_CHANNEL_LEFT: u16 = 0x6A81;

const HIGHEST_CHANNEL: u8 = 19;

/// The channel that the answer to MANAGE CHANNEL gives.
pub fn number_given(held: &[u8], answer: Result<Response, LinkError>) -> Result<u8, OpenError>
    ensures value { result ≡ spec.number_given held.now answer }
    ensures number { IfOk result (λ number. IsNumber number) }
    ensures free { IfOk result (λ number. is_one_of number held.now ≡ false) }
{
    match answer {
        Ok(response) => match assigned(held, &response) {
            Some(number) => Ok(number),
            None => Err(refused(response.sw)),
        },
        Err(error) => Err(unanswered(error)),
    }
}

fn assigned(held: &[u8], response: &Response) -> Option<u8>
    ensures value { result ≡ spec.assigned held.now response.now }
    ensures number { IfSome result (λ number. IsNumber number) }
    ensures free { IfSome result (λ number. is_one_of number held.now ≡ false) }
{
    if response.sw.is_success() {
        new_number(held, response.body.as_slice())
    } else {
        None
    }
}

fn new_number(held: &[u8], body: &[u8]) -> Option<u8>
    ensures value { result ≡ command.new_number held.now body.now }
    ensures number { IfSome result (λ number. IsNumber number) }
    ensures free { IfSome result (λ number. is_one_of number held.now ≡ false) }
{
    match body {
        [number] => if is_number(*number) && !is_held(held, *number) {
            Some(*number)
        } else {
            None
        },
        _ => None,
    }
}

fn is_number(number: u8) -> bool
    ensures { result ≡ is_between 1 19 number }
{
    1 <= number && number <= HIGHEST_CHANNEL
}

fn is_held(held: &[u8], number: u8) -> bool
    ensures { result ≡ is_one_of number held.now }
{
    held.iter().any(|other| *other == number)
}

fn refused(sw: Sw) -> OpenError
    ensures { result ≡ spec.refused sw.0 }
{
    if sw.0 == NO_CHANNEL_LEFT {
        OpenError::Exhausted
    } else {
        OpenError::Status(sw)
    }
}

fn unanswered(error: LinkError) -> OpenError
    ensures { result ≡ spec.unanswered error }
{
    match error {
        LinkError::Slot => OpenError::Slot,
        LinkError::Loop(sw) => OpenError::Loop(sw),
    }
}

/// Whether an exchange failed.
pub fn is_fault(error: OpenError) -> bool
    ensures { result ≡ spec.is_fault error }
{
    matches!(error, OpenError::Slot)
}

/// What the answer to the SELECT of an application comes to.
pub fn selected(answer: Result<Response, LinkError>) -> Result<(), OpenError>
    ensures { result ≡ spec.selected answer }
{
    match answer {
        Ok(response) => if response.sw.is_success() {
            Ok(())
        } else {
            Err(OpenError::Status(response.sw))
        },
        Err(error) => Err(unanswered(error)),
    }
}

/// Why no channel was opened, given the refusal of SELECT and the answer to the close behind it.
pub fn closed_again(refusal: OpenError, answer: Result<Response, LinkError>) -> OpenError
    ensures { result ≡ spec.closed_again refusal answer }
{
    match answer {
        Err(LinkError::Slot) => OpenError::Slot,
        Ok(_) | Err(LinkError::Loop(_)) => refusal,
    }
}

/// What the answer to the MANAGE CHANNEL that closes a channel comes to.
pub fn closed(answer: Result<Response, LinkError>) -> Result<(), CloseError>
    ensures { result ≡ spec.closed answer }
{
    match answer {
        Ok(response) => if response.sw.is_success() {
            Ok(())
        } else {
            Err(CloseError::Status(response.sw))
        },
        Err(LinkError::Slot) => Err(CloseError::Slot),
        Err(LinkError::Loop(sw)) => Err(CloseError::Loop(sw)),
    }
}
