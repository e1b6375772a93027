// What a status word asks of the terminal, ETSI TS 102 221 clauses 7.3.1.1.4 and 10.2.1.
ghost use Rattle.std.specs.Prelude.{◌≡◌, ◌%◌, Some};
ghost use Rattle.apdu.specs.Apdu as words;
ghost use Rattle.apdu.specs.Values.{HasLe};

use apdu::Sw;

/// 61XX: XX bytes are to be fetched by GET RESPONSE.
pub fn has_more(sw: Sw) -> bool
    ensures { result ≡ words.has_more sw.0 }
{
    sw.0 / 256 == 0x61
}

/// 61XX or 6CXX, after which the terminal sends one command more.
pub fn wants_more(sw: Sw) -> bool
    ensures { result ≡ words.wants_more sw.0 }
{
    has_more(sw) || sw.0 / 256 == 0x6C
}

/// A status that is neither a success nor 61XX nor 6CXX.
pub fn is_refusal(sw: Sw) -> bool
    ensures { result ≡ words.is_refusal sw.0 }
{
    !(sw.is_success() || wants_more(sw))
}

/// The Le that 61XX or 6CXX names; XX of 00 is 256.
pub fn named_le(sw: Sw) -> u16
    ensures value { result ≡ words.le_of_byte (sw.0 % 256) }
    ensures le { HasLe (Some result) }
{
    let low = sw.0 % 256;
    if low == 0 { 256 } else { low }
}
