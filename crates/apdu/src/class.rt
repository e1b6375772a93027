// The class byte of a command, ETSI TS 102 221 clause 10.1.1.
ghost use Rattle.std.specs.Prelude.{◌≡◌, ◌≤◌, Some};
ghost use Rattle.apdu.specs.Apdu.{channel_of as channel_of_class, class_for as class_of_channel};

/// Whose commands a class is for: those of TS 102 221, or those of the toolkit (TS 102 223).
#[derive(Clone, Copy, Debug, PartialEq, Eq)]
pub enum ClassKind {
    Plain,
    Toolkit,
}

/// The class byte for a logical channel.
pub fn class_for(kind: ClassKind, channel: u8) -> u8
    requires { channel ≤ 19 }
    ensures value { result ≡ class_of_channel kind channel }
    ensures inverse { channel_of_class result ≡ Some (kind, channel) }
{
    match kind {
        ClassKind::Plain => if channel < 4 {
            channel
        } else {
            0x40 + (channel - 4)
        },
        ClassKind::Toolkit => if channel < 4 {
            0x80 + channel
        } else {
            0xC0 + (channel - 4)
        },
    }
}

/// The kind and the logical channel that a class byte names.
pub fn channel_of(class: u8) -> Option<(ClassKind, u8)>
    ensures { result ≡ channel_of_class class }
{
    match class {
        0..=0x03 => Some((ClassKind::Plain, class)),
        0x40..=0x4F => Some((ClassKind::Plain, class - 0x40 + 4)),
        0x80..=0x83 => Some((ClassKind::Toolkit, class - 0x80)),
        0xC0..=0xCF => Some((ClassKind::Toolkit, class - 0xC0 + 4)),
        _ => None,
    }
}
