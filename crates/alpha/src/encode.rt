// Writing a name.
ghost use Rattle.std.specs.Prelude.{◌≡◌, ◌<◌, ◌≤◌, ◌++◌, [], None, Some, ◌⊎◌, length, flat_map, is_some, unwrap_or, IfOk, IfErr, OnOk, vec_len};
ghost use Rattle.std.specs.List.{list_all};
ghost use Rattle.std.specs.Str.{chars};
ghost use Rattle.apdu.specs.Words.{two_bytes, filled_to};
ghost use Rattle.alpha.specs.Names.{decode_name, alphabet_bytes, written_name, not_writable, name_refusal, encode_name};

use crate::tables::{ESCAPE, default_byte, extension_byte};
use apdu::{Bytes, Memory, Text};
use std::alloc::Global;
use thiserror::Error;

/// Why a name cannot be written.
#[derive(Clone, Copy, Debug, PartialEq, Eq, Error)]
pub enum AlphaError {
    /// The name's first character that is U+FFFF or past it, which UCS2 cannot write.
    #[error("UCS2 cannot write U+{code:04X}", code = u32::from(*.0))]
    NotWritable(char),
    /// The name needs more bytes than there is room for.
    #[error("the name needs {need} bytes and has room for {room}")]
    TooLong { need: usize, room: usize },
    /// Memory ran out.
    #[error("out of memory")]
    Memory,
}

impl From<Memory> for AlphaError {
    ghost use Rattle.std.specs.Prelude.{◌≡◌};
    ghost use Rattle.alpha.specs.declared.encode.AlphaError.{AlphaError};

    ghost from_gives = { λ _ error. error ≡ AlphaError.Memory };

    fn from(_: Memory) -> Self {
        AlphaError::Memory
    }
}

/// The name in exactly `room` bytes: in the default alphabet where that has every character, and
/// else in UCS2 behind 80. FF fills the rest.
#[tactic(auto, using(crate::proofs::ReadBack::read_back))]
pub fn encode_alpha(alloc: Global, text: &Text, room: usize) -> Result<Bytes, AlphaError>
    ensures accepted { OnOk result (name_refusal (chars text.now) room ≡ None) }
    ensures refused { IfErr result (λ error. (error ≡ AlphaError.Memory)
        ⊎ (name_refusal (chars text.now) room ≡ Some error)) }

    ensures written { IfOk result (λ bytes. bytes ≡ encode_name text.now room) }
    ensures filled { IfOk result (λ bytes. length bytes ≡ room) }
    ensures read_back { IfOk result (λ bytes. decode_name bytes ≡ text.now) }
{
    let characters = characters_of(alloc, text.as_str())?;
    if let Some(character) = not_writable(characters.as_slice()) {
        return Err(AlphaError::NotWritable(character));
    }
    let mut bytes = written_name(alloc, characters.as_slice())?;
    if bytes.len() > room {
        return Err(AlphaError::TooLong {
            need: bytes.len(),
            room,
        });
    }
    put_fill(&mut bytes, room)?;
    Ok(Bytes::from_vec(bytes))
}

fn characters_of(alloc: Global, text: &str) -> Result<Vec<char>, Memory>
    ensures { IfOk result (λ characters. characters.items ≡ chars text.now) }
{
    let characters = text.chars().collect(alloc)?;
    Ok(characters)
}

/// The first character that is U+FFFF or past it.
fn not_writable(characters: &[char]) -> Option<char>
    ensures { result ≡ not_writable characters.now }
{
    characters.iter().copied().find(|c| *c >= '\u{FFFF}')
}

/// The name without its fill.
fn written_name(alloc: Global, characters: &[char]) -> Result<Vec<u8>, Memory>
    requires { not_writable characters.now ≡ None }
    ensures { IfOk result (λ bytes. bytes.items ≡ written_name characters.now) }
{
    let mut bytes = Vec::new(alloc);
    if are_in_alphabet(characters) {
        put_in_alphabet(&mut bytes, characters)?;
    } else {
        bytes.push(0x80)?;
        put_in_units(&mut bytes, characters)?;
    }
    Ok(bytes)
}

/// Whether the default alphabet has every character.
fn are_in_alphabet(characters: &[char]) -> bool
    ensures { result ≡ list_all (λ c. is_some (alphabet_bytes c)) characters.now }
{
    characters.iter().all(|c| is_in_alphabet(*c))
}

/// Whether the default alphabet or its extension table has the character.
fn is_in_alphabet(character: char) -> bool
    ensures { result ≡ is_some (alphabet_bytes character) }
{
    default_byte(character).is_some() || extension_byte(character).is_some()
}

fn put_in_alphabet(bytes: &mut Vec<u8>, characters: &[char]) -> Result<(), Memory>
    ensures { OnOk result (bytes.new.items
        ≡ bytes.old.items ++ flat_map (λ c. unwrap_or (alphabet_bytes c) []) characters.now) }
{
    for character in characters {
        put_alphabet_bytes(bytes, *character)?;
    }
    Ok(())
}

/// The bytes of a character in the default alphabet.
fn put_alphabet_bytes(bytes: &mut Vec<u8>, character: char) -> Result<(), Memory>
    ensures { OnOk result (bytes.new.items
        ≡ bytes.old.items ++ unwrap_or (alphabet_bytes character) []) }
{
    if let Some(byte) = default_byte(character) {
        bytes.push(byte as u8)?;
    } else if let Some(byte) = extension_byte(character) {
        bytes.push(ESCAPE)?;
        bytes.push(byte as u8)?;
    }
    Ok(())
}

#[tactic(auto, using(crate::proofs::ReadBack::writable_at))]
fn put_in_units(bytes: &mut Vec<u8>, characters: &[char]) -> Result<(), Memory>
    requires { not_writable characters.now ≡ None }
    ensures { OnOk result (bytes.new.items
        ≡ bytes.old.items ++ flat_map two_bytes characters.now) }
{
    for character in characters {
        put_unit(bytes, *character)?;
    }
    Ok(())
}

/// The unit of a character, the high byte first.
fn put_unit(bytes: &mut Vec<u8>, character: char) -> Result<(), Memory>
    requires { character < 0xFFFF }
    ensures { OnOk result (bytes.new.items ≡ bytes.old.items ++ two_bytes character) }
{
    let unit = u32::from(character);
    bytes.push((unit / 256) as u8)?;
    bytes.push((unit % 256) as u8)?;
    Ok(())
}

/// FF up to the room.
fn put_fill(bytes: &mut Vec<u8>, room: usize) -> Result<(), Memory>
    requires { vec_len bytes.old ≤ room }
    ensures { OnOk result (bytes.new.items ≡ filled_to 0xFF room bytes.old.items) }
{
    bytes.resize(room, 0xFF)?;
    Ok(())
}
