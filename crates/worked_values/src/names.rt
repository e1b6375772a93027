// Names of worked bytes.

use alpha::{decode_alpha, encode_alpha};
use apdu::Text;
use std::alloc::Global;
use std::test::Fail;

/// Bytes, and the name that they are read as and written from.
pub const BOTH_WAYS: &str = ":\n\
000102030405060708090B0C0E0F101112131415161718191A1C1D1E1F:@£$¥èéùìòÇØøÅåΔ_ΦΓΛΩΠΨΣΘΞÆæßÉ\n\
202122232425262728292A2B2C2D2E2F303132333435363738393A3B3C3D3E3F: !\"#¤%&'()*+,-./0123456789:;<=>?\n\
404142434445464748494A4B4C4D4E4F505152535455565758595A5B5C5D5E5F:¡ABCDEFGHIJKLMNOPQRSTUVWXYZÄÖÑÜ§\n\
606162636465666768696A6B6C6D6E6F707172737475767778797A7B7C7D7E7F:¿abcdefghijklmnopqrstuvwxyzäöñüà\n\
FFFF:\n\
411B28FF:A{\n\
1B0A:\u{C}\n\
1B14:^\n\
1B28:{\n\
1B29:}\n\
1B2F:\\\n\
1B3C:[\n\
1B3D:~\n\
1B3E:]\n\
1B40:|\n\
1B65:€\n\
09:Ç\n\
8000E7:ç\n\
80042F:Я\n\
80042FFF:Я\n\
80042F04300431FF:Яаб\n\
80004120AC042FFFFF:A€Я\n\
80001BFF:\u{1B}\n\
80FFFDFFFEFFFF:\u{FFFD}\u{FFFE}";

/// Other bytes, and the name that they are read as.
pub const READ: &str = "41FF42:A\n\
4180FE:A\u{FFFD}\u{FFFD}\n\
80042FFFFF0430:Я\n\
80D800DFFFE000:\u{FFFD}\u{FFFD}\u{E000}\n\
810308AF41B0:ЯAа\n\
8101084142:A\n\
81050841:A\n\
810208FF41:ѿA\n\
8103:\n\
82020530812D:Ա-\n\
8202FFFE8182:\u{FFFF}\u{FFFD}\n\
8202D7FF8081:\u{D7FF}\u{FFFD}\n\
820205:\n\
411B:A \n\
1BFF: \n\
1B80: \u{FFFD}\n\
1B1B: \n\
1B1B65: e\n\
1B1B1B65: €\n\
1B41:A\n\
8102081BAF: Я\n\
8101081B65: ";

/// The room for a name, the name, and why it cannot be written.
pub const REFUSED: &str = "0 A:the name needs 1 bytes and has room for 0
1 €:the name needs 2 bytes and has room for 1
2 Я:the name needs 3 bytes and has room for 2
10 \u{1F600}:UCS2 cannot write U+1F600
1 A\u{FFFF}\u{1F600}:UCS2 cannot write U+FFFF";

/// The name that the bytes are read as and written from.
pub fn both_ways(alloc: Global, bytes: &str) -> Result<String, Fail> {
    let bytes = hex::decode(alloc, bytes)?;
    let name = decode_alpha(alloc, &bytes)?;
    let written = encode_alpha(alloc, &name, bytes.len())?;
    if written.as_slice() != bytes.as_slice() {
        return Err("written otherwise".into());
    }
    Ok(String::from_str(alloc, name.as_str())?)
}

pub fn name_of(alloc: Global, bytes: &str) -> Result<String, Fail> {
    let bytes = hex::decode(alloc, bytes)?;
    let name = decode_alpha(alloc, &bytes)?;
    Ok(String::from_str(alloc, name.as_str())?)
}

/// Why a name cannot be written in this room.
pub fn refusal_of(alloc: Global, name: &str) -> Result<String, Fail> {
    let (room, name) = name.split_once(' ').ok_or("a room")?;
    let name = Text::from_str(alloc, name)?;
    let error = encode_alpha(alloc, &name, room.parse()?)
        .err()
        .ok_or("a refusal")?;
    Ok(format!(in alloc; "{error}")?)
}
