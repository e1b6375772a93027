// Access rules in expanded form, ETSI TS 102 221 clause 9.2.
ghost use Rattle.std.specs.Prelude.{◌≡◌, ◌≤◌};
ghost use Rattle.tlv.specs.Objects.{Parts};
ghost use Rattle.fcp.specs.Control.{read_rule, need_for, need_of, key_of_condition, is_mode, GivesPair};

use tlv::BerReader;

/// What an access asks for.
#[derive(Clone, Copy, Debug, PartialEq, Eq)]
pub enum Need {
    Always,
    Never,
    /// The PIN of this key reference is verified.
    Key(u8),
}

/// What reading and updating a file ask for.
#[derive(Clone, Copy, Debug, PartialEq, Eq)]
pub struct Rule {
    pub read: Need,
    pub update: Need,
}

/// Reads a rule. What cannot be read, and an access of which no pair speaks, is never allowed.
#[tactic(auto, unfolding(crate::specs::Control::read_rule))]
pub fn read_rule(bytes: &[u8]) -> Rule
    ensures { result ≡ read_rule bytes.now }
{
    Rule {
        read: need_for(1, BerReader::new(bytes)),
        update: need_for(2, BerReader::new(bytes)),
    }
}

/// An object's tag and value.
type Object<'a> = (u8, &'a [u8]);

/// What an access asks for whose bit in the access mode is this, from 1.
fn need_for(bit: u8, mut reader: BerReader) -> Need
    requires low { 1 ≤ bit }
    requires high { bit ≤ 8 }
    ensures { result ≡ need_for bit reader.entry.parts }
{
    'pairs: while let Some((mode, condition)) = next_pair(&mut reader) {
        if mode.0 == 0x80 && is_mode(bit, mode.1) {
            return need_of(condition.0, condition.1);
        }
    }
    Need::Never
}

/// The next two objects, if both can be read.
fn next_pair<'a>(reader: &mut BerReader<'a>) -> Option<(Object<'a>, Object<'a>)>
    ensures { GivesPair reader.old.parts reader.new.parts result }
{
    let Ok(Some(mode)) = reader.next() else {
        return None;
    };
    let Ok(Some(condition)) = reader.next() else {
        return None;
    };
    Some((mode, condition))
}

/// Whether an access mode is one byte that has this bit.
fn is_mode(bit: u8, bytes: &[u8]) -> bool
    requires low { 1 ≤ bit }
    requires high { bit ≤ 8 }
    ensures { result ≡ is_mode bit bytes.now }
{
    bytes.len() == 1 && (bytes[0] >> (bit - 1)) % 2 == 1
}

/// What a condition object asks for.
fn need_of(tag: u8, value: &[u8]) -> Need
    ensures { result ≡ need_of tag value.now }
{
    if tag == 0x90 && value.is_empty() {
        Need::Always
    } else if tag == 0xA4 {
        key_of_condition(value)
    } else {
        Need::Never
    }
}

fn key_of_condition(bytes: &[u8]) -> Need
    ensures { result ≡ key_of_condition bytes.now }
{
    if bytes.len() == 6 && bytes == [0x83, 0x01, bytes[2], 0x95, 0x01, 0x08].as_slice() {
        Need::Key(bytes[2])
    } else {
        Need::Never
    }
}
