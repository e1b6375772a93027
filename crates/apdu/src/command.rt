// A command of a short APDU, ETSI TS 102 221 clause 10.1.
ghost use Rattle.std.specs.Prelude.{◌≡◌, ◌∷◌, ◌++◌, ◌%◌, ◌≤◌, ◌+◌, [], None, Some, Ok, IfOk, IfSome, length};
ghost use Rattle.apdu.specs.Apdu as spec;
ghost use Rattle.apdu.specs.Values.{HasLe};

use arrayvec::ArrayVec;
use std::marker::Model;
use thiserror::Error;

/// Why bytes are no command or no response.
#[derive(Clone, Copy, Debug, PartialEq, Eq, Error)]
pub enum ApduError {
    /// There are only so many bytes.
    #[error("only {0} bytes")]
    TooShort(usize),
    /// The length byte and the number of bytes do not fit together.
    #[error("a length of {lc} in {len} bytes")]
    BadLength { lc: usize, len: usize },
}

/// A command. Contracts see it as the record of its fields, and its Le, where it is there, is 1 to 256.
#[derive(Drop)]
pub struct Command {
    pub class: u8,
    pub ins: u8,
    pub p1: u8,
    pub p2: u8,
    pub body: ArrayVec<u8, 255>,
    pub le: Option<u16>,
}

impl Model for Command {
    ghost use Rattle.apdu.specs.Values.{CommandValue, HasLe};

    ghost Value = { CommandValue };

    ghost view = { λ c. record { class = c.class; ins = c.ins; p1 = c.p1; p2 = c.p2; body = c.body.items; le = c.le } };

    ghost invariant = { λ c. HasLe c.le };
}

impl Command {
    /// The command's bytes. An Le of 256 is written 00.
    pub fn write(&self) -> ArrayVec<u8, 261>
        ensures value { result.items ≡ spec.command_bytes self.now }
        ensures inverse { spec.read_command result.items ≡ Ok self.now }
    {
        let mut out = ArrayVec::new();
        out.push(self.class);
        out.push(self.ins);
        out.push(self.p1);
        out.push(self.p2);
        let body = self.body.as_slice();
        if !body.is_empty() {
            out.push(body.len() as u8);
            let _ = out.try_extend_from_slice(body);
        }
        if let Some(le) = self.le {
            out.push((le % 256) as u8);
        }
        out
    }

    /// The command of these bytes, all of them.
    pub fn read(bytes: &[u8]) -> Result<Command, ApduError>
        ensures value { result ≡ spec.read_command bytes.now }
        ensures inverse { IfOk result (λ c. spec.command_bytes c ≡ bytes.now) }
    {
        let [class, ins, p1, p2, rest @ ..] = bytes else {
            return Err(ApduError::TooShort(bytes.len()));
        };
        let header = Command {
            class: *class,
            ins: *ins,
            p1: *p1,
            p2: *p2,
            body: ArrayVec::new(),
            le: None,
        };
        header.read_behind(rest)
    }

    // The command of this header, where nothing, or Le, or Lc and more stands behind it.
    fn read_behind(self, rest: &[u8]) -> Result<Command, ApduError>
        requires body { self.body ≡ [] }
        requires le { self.le ≡ None }
        ensures value { result ≡ spec.read_behind self rest.now }
        ensures inverse { IfOk result (λ c. spec.command_bytes c
            ≡ spec.command_bytes self ++ rest.now) }
    {
        match rest {
            [] => Ok(self),
            [le] => Ok(self.with_parts(&[], Some(le_of_byte(*le)))),
            [lc, behind @ ..] => self.read_body(*lc as usize, behind),
        }
    }

    fn read_body(self, lc: usize, rest: &[u8]) -> Result<Command, ApduError>
        requires body { self.body ≡ [] }
        requires le { self.le ≡ None }
        requires one_byte { lc ≤ 255 }
        ensures value { result ≡ spec.read_body self lc rest.now }
        ensures inverse { IfOk result (λ c. spec.command_bytes c
            ≡ spec.command_bytes self ++ lc ∷ rest.now) }
    {
        let error = ApduError::BadLength {
            lc,
            len: 5 + rest.len(),
        };
        if lc == 0 || rest.len() < lc {
            return Err(error);
        }
        let (body, behind) = rest.split_at(lc);
        let le = read_le(behind).ok_or(error)?;
        Ok(self.with_parts(body, le))
    }

    // The command with this body and Le in the place of its own.
    fn with_parts(&self, bytes: &[u8], le: Option<u16>) -> Command
        requires fits { length bytes.now ≤ 255 }
        requires le { HasLe le }
        ensures { result ≡ record self.now { body = bytes.now; le = le } }
    {
        let mut body = ArrayVec::new();
        let _ = body.try_extend_from_slice(bytes);
        Command {
            class: self.class,
            ins: self.ins,
            p1: self.p1,
            p2: self.p2,
            body,
            le,
        }
    }

    /// A copy of the command.
    pub fn copy(&self) -> Command
        ensures { result ≡ self.now }
    {
        let mut body = ArrayVec::new();
        let _ = body.try_extend_from_slice(self.body.as_slice());
        Command {
            class: self.class,
            ins: self.ins,
            p1: self.p1,
            p2: self.p2,
            body,
            le: self.le,
        }
    }
}

// Le as it stands in its byte: 00 asks for 256.
fn le_of_byte(byte: u8) -> u16
    ensures value { result ≡ spec.le_of_byte byte }
    ensures inverse { result % 256 ≡ byte }
    ensures le { HasLe (Some result) }
{
    if byte == 0 { 256 } else { byte as u16 }
}

// The Le that stands last, where there is one. Two bytes and more are none.
fn read_le(bytes: &[u8]) -> Option<Option<u16>>
    ensures value { result ≡ spec.read_le bytes.now }
    ensures inverse { IfSome result (λ le. spec.le_bytes le ≡ bytes.now) }
    ensures le { IfSome result (λ le. HasLe le) }
{
    match bytes {
        [] => Some(None),
        [le] => Some(Some(le_of_byte(*le))),
        _ => None,
    }
}
