// The default alphabet and its extension table, 3GPP TS 23.038 clauses 6.2.1 and 6.2.1.1.
ghost use Rattle.std.specs.Prelude.{◌≡◌, ◌<◌, slice_index, IfSome};
ghost use Rattle.alpha.specs.Alphabet.{default_alphabet, extension_table};
ghost use Rattle.alpha.specs.Names.{default_character, escaped_character, place_in};

/// The escape to the extension table.
pub const ESCAPE: u8 = 0x1B;

/// In the escape's place stands U+FFFF, which no name that is written has.
const DEFAULT_ALPHABET: [char; 128] = [
    '@', '£', '$', '¥', 'è', 'é', 'ù', 'ì', 'ò', 'Ç', '\n', 'Ø', 'ø', '\r', 'Å', 'å', // 00
    'Δ', '_', 'Φ', 'Γ', 'Λ', 'Ω', 'Π', 'Ψ', 'Σ', 'Θ', 'Ξ', '\u{FFFF}', 'Æ', 'æ', 'ß', 'É', // 10
    ' ', '!', '"', '#', '¤', '%', '&', '\'', '(', ')', '*', '+', ',', '-', '.', '/', // 20
    '0', '1', '2', '3', '4', '5', '6', '7', '8', '9', ':', ';', '<', '=', '>', '?', // 30
    '¡', 'A', 'B', 'C', 'D', 'E', 'F', 'G', 'H', 'I', 'J', 'K', 'L', 'M', 'N', 'O', // 40
    'P', 'Q', 'R', 'S', 'T', 'U', 'V', 'W', 'X', 'Y', 'Z', 'Ä', 'Ö', 'Ñ', 'Ü', '§', // 50
    '¿', 'a', 'b', 'c', 'd', 'e', 'f', 'g', 'h', 'i', 'j', 'k', 'l', 'm', 'n', 'o', // 60
    'p', 'q', 'r', 's', 't', 'u', 'v', 'w', 'x', 'y', 'z', 'ä', 'ö', 'ñ', 'ü', 'à', // 70
];

/// A place of the extension table without a character.
const BLANK: char = ' ';

const EXTENSION_TABLE: [char; 128] = [
    ' ', ' ', ' ', ' ', ' ', ' ', ' ', ' ', ' ', ' ', '\u{C}', ' ', ' ', ' ', ' ', ' ', // 00
    ' ', ' ', ' ', ' ', '^', ' ', ' ', ' ', ' ', ' ', ' ', ' ', ' ', ' ', ' ', ' ', // 10
    ' ', ' ', ' ', ' ', ' ', ' ', ' ', ' ', '{', '}', ' ', ' ', ' ', ' ', ' ', '\\', // 20
    ' ', ' ', ' ', ' ', ' ', ' ', ' ', ' ', ' ', ' ', ' ', ' ', '[', '~', ']', ' ', // 30
    '|', ' ', ' ', ' ', ' ', ' ', ' ', ' ', ' ', ' ', ' ', ' ', ' ', ' ', ' ', ' ', // 40
    ' ', ' ', ' ', ' ', ' ', ' ', ' ', ' ', ' ', ' ', ' ', ' ', ' ', ' ', ' ', ' ', // 50
    ' ', ' ', ' ', ' ', ' ', '€', ' ', ' ', ' ', ' ', ' ', ' ', ' ', ' ', ' ', ' ', // 60
    ' ', ' ', ' ', ' ', ' ', ' ', ' ', ' ', ' ', ' ', ' ', ' ', ' ', ' ', ' ', ' ', // 70
];

/// The character of a byte in the default alphabet.
#[tactic(auto, unfolding(crate::specs::Alphabet::default_alphabet))]
pub fn default_character(byte: u8) -> char
    requires { byte < 128 }
    ensures { result ≡ default_character byte }
{
    DEFAULT_ALPHABET[usize::from(byte)]
}

/// The character of a byte behind an escape.
pub fn escaped_character(byte: u8) -> char
    requires { byte < 128 }
    ensures { result ≡ escaped_character byte }
{
    let character = extension_place(byte);
    if character != BLANK {
        character
    } else if byte == ESCAPE {
        ' '
    } else {
        default_character(byte)
    }
}

/// What stands in the extension table.
#[tactic(auto, unfolding(crate::specs::Alphabet::extension_table))]
fn extension_place(byte: u8) -> char
    requires { byte < 128 }
    ensures { result ≡ slice_index extension_table byte }
{
    EXTENSION_TABLE[usize::from(byte)]
}

/// The byte of a character in the default alphabet.
#[tactic(auto, unfolding(crate::specs::Alphabet::default_alphabet))]
pub fn default_byte(character: char) -> Option<u8>
    ensures { result ≡ place_in default_alphabet character }
{
    place_in(&DEFAULT_ALPHABET, character)
}

/// The byte of a character behind an escape.
#[tactic(auto, unfolding(crate::specs::Alphabet::extension_table))]
pub fn extension_byte(character: char) -> Option<u8>
    ensures { result ≡ place_in extension_table character }
{
    place_in(&EXTENSION_TABLE, character)
}

/// The first place of a character in a table.
fn place_in(table: &[char; 128], character: char) -> Option<u8>
    ensures { result ≡ place_in table.now character }
{
    let place = position_in(table, character)?;
    Some(place as u8)
}

/// The same, as an index.
fn position_in(table: &[char; 128], character: char) -> Option<usize>
    ensures place { result ≡ place_in table.now character }
    ensures within { IfSome result (λ place. place < 128) }
{
    table.iter().position(|c| *c == character)
}
