// Readers that hand out the objects of a source one by one.
ghost use Rattle.std.specs.Prelude.{◌≡◌, None, Some, IfOk, IfErr, OnOk};
ghost use Rattle.std.specs.Option.{option_copied};
ghost use Rattle.tlv.specs.Objects.{ber_parts, simple_parts, parts_of, stopped, tag_by, value_of_tag, Hands};

use crate::TlvError;
use crate::object::{Form, front};
use std::marker::Model;

/// What is left to read of a source: its last bytes, and the index at which they stand.
#[derive(Drop)]
struct Cursor<'a> {
    form: Form,
    at: usize,
    rest: &'a [u8],
}

impl<'a> Model for Cursor<'a> {
    ghost use Rattle.std.specs.Prelude.{◌+◌, ◌<◌, ◌^◌, length};
    ghost use Rattle.tlv.specs.Objects.{Parts, parts_from, tag_by};

    ghost Value = { Parts };

    ghost view = { λ c. parts_from (tag_by c.form) (length c.rest.now) c.at c.rest.now };

    ghost invariant = { λ c. c.at + length c.rest.now < 2 ^ 64 };
}

impl<'a> Cursor<'a> {
    fn new(form: Form, bytes: &'a [u8]) -> Cursor<'a>
        ensures { result ≡ parts_of (tag_by form) bytes.now }
    {
        Cursor {
            form,
            at: 0,
            rest: bytes,
        }
    }

    /// Leaves nothing to read.
    fn stop(&mut self)
        ensures { self.new ≡ stopped None }
    {
        self.rest = &self.rest[..0];
    }

    fn next(&mut self) -> Result<Option<(u8, &'a [u8])>, TlvError>
        ensures { Hands self.old self.new result }
    {
        match front(self.form, self.at, self.rest) {
            Ok(Some(object)) => {
                self.at = object.next;
                self.rest = object.rest;
                Ok(Some((object.tag, object.value)))
            }
            Ok(None) => {
                self.stop();
                Ok(None)
            }
            Err(error) => {
                self.stop();
                Err(error)
            }
        }
    }

    fn first_value(mut self, tag: u8) -> Result<Option<&'a [u8]>, TlvError>
        ensures whole { OnOk result (self.entry.damage ≡ None) }
        ensures value { IfOk result (λ value. option_copied value
            ≡ value_of_tag tag self.entry.parts) }
        ensures damage { IfErr result (λ error. self.entry.damage ≡ Some error) }
    {
        let mut first = None;
        'objects: while let Some((found, value)) = self.next()? {
            if found == tag && first.is_none() {
                first = Some(value);
            }
        }
        Ok(first)
    }
}

/// Reads BER-TLV objects, ETSI TS 101 220 clause 7.1. A tag byte 00 or FF ends the reading.
/// Indexes count in the bytes that the reader was made with. After an error nothing is left.
#[derive(Drop)]
pub struct BerReader<'a> {
    cursor: Cursor<'a>,
}

impl<'a> Model for BerReader<'a> {
    ghost use Rattle.tlv.specs.Objects.{Parts};

    ghost Value = { Parts };

    ghost view = { λ r. r.cursor };
}

impl<'a> BerReader<'a> {
    pub fn new(bytes: &'a [u8]) -> BerReader<'a>
        ensures { result ≡ ber_parts bytes.now }
    {
        BerReader {
            cursor: Cursor::new(Form::Ber, bytes),
        }
    }

    /// The next object's tag and value, which is a part of the source.
    pub fn next(&mut self) -> Result<Option<(u8, &'a [u8])>, TlvError>
        ensures { Hands self.old self.new result }
    {
        self.cursor.next()
    }

    /// The value of the first object of this tag. All objects that are left are read, and damage among them comes first.
    pub fn first_value(self, tag: u8) -> Result<Option<&'a [u8]>, TlvError>
        ensures whole { OnOk result (self.entry.damage ≡ None) }
        ensures value { IfOk result (λ value. option_copied value
            ≡ value_of_tag tag self.entry.parts) }
        ensures damage { IfErr result (λ error. self.entry.damage ≡ Some error) }
    {
        self.cursor.first_value(tag)
    }
}

/// Reads objects of the simple form of ETSI TS 102 223, whose tags are handed out with bit 8 cleared.
/// Indexes count in the bytes that the reader was made with. After an error nothing is left.
#[derive(Drop)]
pub struct SimpleReader<'a> {
    cursor: Cursor<'a>,
}

impl<'a> Model for SimpleReader<'a> {
    ghost use Rattle.tlv.specs.Objects.{Parts};

    ghost Value = { Parts };

    ghost view = { λ r. r.cursor };
}

impl<'a> SimpleReader<'a> {
    pub fn new(bytes: &'a [u8]) -> SimpleReader<'a>
        ensures { result ≡ simple_parts bytes.now }
    {
        SimpleReader {
            cursor: Cursor::new(Form::Simple, bytes),
        }
    }

    /// The next object's tag, with bit 8 cleared, and value, which is a part of the source.
    pub fn next(&mut self) -> Result<Option<(u8, &'a [u8])>, TlvError>
        ensures { Hands self.old self.new result }
    {
        self.cursor.next()
    }

    /// The value of the first object of this tag. All objects that are left are read, and damage among them comes first.
    pub fn first_value(self, tag: u8) -> Result<Option<&'a [u8]>, TlvError>
        ensures whole { OnOk result (self.entry.damage ≡ None) }
        ensures value { IfOk result (λ value. option_copied value
            ≡ value_of_tag tag self.entry.parts) }
        ensures damage { IfErr result (λ error. self.entry.damage ≡ Some error) }
    {
        self.cursor.first_value(tag)
    }
}
