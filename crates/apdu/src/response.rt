// A response of a short APDU, ETSI TS 102 221 clause 10.2.
ghost use Rattle.std.specs.Prelude.{◌≡◌, Ok, IfOk, length};
ghost use Rattle.apdu.specs.Apdu.{response_bytes, read_response, same_response, word_of as word_of_bytes};
ghost use Rattle.apdu.specs.Words.{two_bytes};

use crate::{ApduError, Sw};
use arrayvec::ArrayVec;
use std::marker::Model;

/// A response: a body and a status word. Contracts see it as the record of the two.
#[derive(Drop)]
pub struct Response {
    pub body: ArrayVec<u8, 256>,
    pub sw: Sw,
}

impl Model for Response {
    ghost use Rattle.apdu.specs.Values.{ResponseValue};

    ghost Value = { ResponseValue };

    ghost view = { λ r. record { body = r.body.items; sw = r.sw.0 } };
}

impl Response {
    /// The body, and the two bytes of the status word.
    pub fn write(&self) -> ArrayVec<u8, 258>
        ensures value { result.items ≡ response_bytes self.now }
        ensures inverse { read_response result.items ≡ Ok self.now }
    {
        let mut out = ArrayVec::new();
        let _ = out.try_extend_from_slice(self.body.as_slice());
        out.push((self.sw.0 / 256) as u8);
        out.push((self.sw.0 % 256) as u8);
        out
    }

    /// The response of these bytes, all of them.
    pub fn read(bytes: &[u8]) -> Result<Response, ApduError>
        ensures value { result ≡ read_response bytes.now }
        ensures inverse { IfOk result (λ r. response_bytes r ≡ bytes.now) }
    {
        let len = bytes.len();
        if len < 2 {
            return Err(ApduError::TooShort(len));
        }
        if len > 258 {
            return Err(ApduError::BadLength { lc: 256, len });
        }
        let (front, word) = bytes.split_at(len - 2);
        let sw = Sw(word_of(word));
        let mut body = ArrayVec::new();
        let _ = body.try_extend_from_slice(front);
        Ok(Response { body, sw })
    }

    /// A copy of the response.
    pub fn copy(&self) -> Response
        ensures { result ≡ self.now }
    {
        let mut body = ArrayVec::new();
        let _ = body.try_extend_from_slice(self.body.as_slice());
        Response { body, sw: self.sw }
    }

    /// Whether the two have one body and one status word.
    pub fn equals(&self, other: &Response) -> bool
        ensures { result ≡ same_response self.now other.now }
    {
        self.body.as_slice() == other.body.as_slice() && self.sw.0 == other.sw.0
    }
}

fn word_of(bytes: &[u8]) -> u16
    requires { length bytes.now ≡ 2 }
    ensures value { result ≡ word_of_bytes bytes.now }
    ensures inverse { two_bytes result ≡ bytes.now }
{
    bytes[0] as u16 * 256 + bytes[1] as u16
}
