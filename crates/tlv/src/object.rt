// The object at the front of bytes.
ghost use Rattle.std.specs.Prelude.{◌≡◌, ◌+◌, ◌<◌, ◌^◌, length};
ghost use Rattle.tlv.specs.Objects.{ber_tag, simple_tag, tag_by, with_value, with_length, with_long_length, front, front_seen, object_seen};

use crate::TlvError;

/// How tag bytes are read.
#[derive(Clone, Copy)]
pub enum Form {
    /// BER-TLV, ETSI TS 101 220 clause 7.1.
    Ber,
    /// The simple form of ETSI TS 102 223.
    Simple,
}

/// What a tag byte says.
#[derive(Clone, Copy)]
pub enum TagByte {
    /// It ends the reading.
    Ends,
    /// It is no tag that is read.
    Bad,
    /// It begins an object of this tag.
    Begins(u8),
}

/// An object, the bytes behind it, and the index at which these stand.
#[derive(Clone, Copy)]
pub struct Object<'a> {
    pub tag: u8,
    pub value: &'a [u8],
    pub rest: &'a [u8],
    pub next: usize,
}

/// The object at the front of bytes that stand at index `at`.
pub fn front<'a>(form: Form, at: usize, bytes: &'a [u8]) -> Result<Option<Object<'a>>, TlvError>
    requires { at + length bytes.now < 2 ^ 64 }
    ensures { front_seen result ≡ front (tag_by form) at bytes.now }
{
    let Some((first, rest)) = bytes.split_first() else {
        return Ok(None);
    };
    match tag_by(form, *first) {
        TagByte::Ends => Ok(None),
        TagByte::Bad => Err(TlvError::BadTag { at }),
        TagByte::Begins(tag) => with_length(tag, at, rest).map(Some),
    }
}

fn tag_by(form: Form, byte: u8) -> TagByte
    ensures { result ≡ tag_by form byte }
{
    match form {
        Form::Ber => ber_tag(byte),
        Form::Simple => simple_tag(byte),
    }
}

fn ber_tag(byte: u8) -> TagByte
    ensures { result ≡ ber_tag byte }
{
    if byte == 0 || byte == 0xFF {
        TagByte::Ends
    } else if byte % 32 == 31 {
        TagByte::Bad
    } else {
        TagByte::Begins(byte)
    }
}

fn simple_tag(byte: u8) -> TagByte
    ensures { result ≡ simple_tag byte }
{
    if byte == 0 || byte == 0x7F || byte == 0x80 || byte == 0xFF {
        TagByte::Bad
    } else {
        TagByte::Begins(byte % 128)
    }
}

/// The object of this tag at index `at`, whose length stands at the front of these bytes.
fn with_length<'a>(tag: u8, at: usize, bytes: &'a [u8]) -> Result<Object<'a>, TlvError>
    requires { at + 1 + length bytes.now < 2 ^ 64 }
    ensures { object_seen result ≡ with_length tag at bytes.now }
{
    let Some((first, rest)) = bytes.split_first() else {
        return Err(TlvError::Cut { at });
    };
    if *first < 0x80 {
        with_value(tag, at, at + 2, *first, rest)
    } else if *first == 0x81 {
        with_long_length(tag, at, rest)
    } else {
        Err(TlvError::BadLength { at: at + 1 })
    }
}

/// The object of this tag at index `at`, whose length stands behind a byte 81.
fn with_long_length<'a>(tag: u8, at: usize, bytes: &'a [u8]) -> Result<Object<'a>, TlvError>
    requires { at + 2 + length bytes.now < 2 ^ 64 }
    ensures { object_seen result ≡ with_long_length tag at bytes.now }
{
    let Some((count, rest)) = bytes.split_first() else {
        return Err(TlvError::Cut { at });
    };
    with_value(tag, at, at + 3, *count, rest)
}

/// The object whose value is the first `count` of these bytes, which stand at index `from`.
fn with_value<'a>(
    tag: u8,
    at: usize,
    from: usize,
    count: u8,
    bytes: &'a [u8],
) -> Result<Object<'a>, TlvError>
    requires { from + length bytes.now < 2 ^ 64 }
    ensures { object_seen result ≡ with_value tag at from count bytes.now }
{
    let count = count as usize;
    if bytes.len() < count {
        return Err(TlvError::Cut { at });
    }
    let (value, rest) = bytes.split_at(count);
    Ok(Object {
        tag,
        value,
        rest,
        next: from + count,
    })
}
