// Fields of worked bytes.

use apdu::Text;
use sim_codecs::{Ad, AppRow, FieldError, Spn, ad, dir_row, iccid, imsi, spn};
use std::alloc::{AllocError, Global};
use std::test::Fail;

/// A field, its bytes, and what they are read as, or where they are damaged.
pub const FIELDS: &str = "iccid 98101430121181157002:'89014103211118510720'
iccid 9810143012118115700299:'89014103211118510720'
iccid 9810143012118115F7AA:'89014103211118517'
iccid 98101430121181157FAA:'8901410321111851'
iccid 981014F3AAAAAAAAAAAA:'8901413'
iccid FFFFFFFFFFFFFFFFFFFF:''
iccid :damaged at byte 0
iccid 981014301211811570:damaged at byte 9
iccid 9A101430121181157002:damaged at byte 0
iccid 98A01430121181157002:damaged at byte 1
iccid 98101430121181157B0C:damaged at byte 8
iccid 981014301211811570E2:damaged at byte 9
imsi 083901141032547698:'310410123456789'
imsi 0831011410325476F8:'31041012345678'
imsi 0139:'3'
imsi 01F1:''
imsi 023921FF:'312'
imsi :damaged at byte 0
imsi 00:damaged at byte 0
imsi 093901141032547698:damaged at byte 0
imsi 08:damaged at byte 1
imsi 08F8:damaged at byte 1
imsi 08F9:damaged at byte 2
imsi 0839011410325476:damaged at byte 8
imsi 01A9:damaged at byte 1
imsi 0121:damaged at byte 1
imsi 02A9AA:damaged at byte 1
imsi 02391A:damaged at byte 2
imsi 0239F1:damaged at byte 2
imsi 0831A11410325476F8:damaged at byte 2
imsi 083101141032547618:damaged at byte 8
spn 0180042F04300431FFFFFFFFFFFFFFFFFF:1 'Яаб'
spn 004A697A67756C7420535020414243444546:0 'Jizgult SP ABCDE'
spn 02FFFFFFFFFFFFFFFFFFFFFFFFFFFFFFFF:2 ''
spn :damaged at byte 0
spn 0141FFFFFFFFFFFFFFFFFFFFFFFFFFFF:damaged at byte 16
ad 00000003:0 Some(3)
ad 800000F2FF:128 Some(2)
ad 00000001:0 None
ad 00000004:0 None
ad 000000:0 None
ad 01:1 None
ad :damaged at byte 0
dir 610E4F07A00000008710025003415050:a0000000871002 '415050'
dir 61094F01A04F01B0500141FFFF:a0 '41'
dir 61810C50014173014F4F02A0A1FFFF:a0a1 '41'
dir 610B500141730050004F02A0001F:a000 '41'
dir 61034F01A01F:a0 ''
dir :none
dir FFFF:none
dir 00610300:none
dir 6200:damaged at byte 0
dir 6100:damaged at byte 0
dir 6104FF4F01A0:damaged at byte 0
dir 61024F00:damaged at byte 0
dir 61134F1100112233445566778899AABBCCDDEEFF00:damaged at byte 0
dir 61054F004F01A0:damaged at byte 0
dir 61044F01A01F:damaged at byte 0
dir 61044F02A0:damaged at byte 0";

/// What the bytes of a field are read as.
fn field_text(alloc: Global, field: &str, bytes: &[u8]) -> Result<String, FieldError> {
    let text = match field {
        "iccid" => digits_text(alloc, &iccid(alloc, bytes)?),
        "imsi" => digits_text(alloc, &imsi(alloc, bytes)?),
        "spn" => name_text(alloc, &spn(alloc, bytes)?),
        "ad" => data_text(alloc, ad(bytes)?),
        _ => application_text(alloc, dir_row(alloc, bytes)?),
    };
    text.map_err(|_| FieldError::Memory)
}

fn digits_text(alloc: Global, digits: &Text) -> Result<String, AllocError> {
    format!(in alloc; "'{}'", digits.as_str())
}

fn name_text(alloc: Global, provider: &Spn) -> Result<String, AllocError> {
    format!(in alloc; "{} '{}'", provider.show, provider.name.as_str())
}

fn data_text(alloc: Global, data: Ad) -> Result<String, AllocError> {
    format!(in alloc; "{} {:?}", data.mode, data.mnc)
}

fn application_text(alloc: Global, row: Option<AppRow>) -> Result<String, AllocError> {
    let Some(row) = row else {
        return String::from_str(alloc, "none");
    };
    let aid = hex::encode(alloc, row.aid.as_slice())?;
    let label = hex::encode(alloc, row.label.as_slice())?;
    format!(in alloc; "{} '{}'", aid.as_str(), label.as_str())
}

pub fn field_of(alloc: Global, field: &str) -> Result<String, Fail> {
    let (field, bytes) = field.split_once(' ').ok_or("a field")?;
    let bytes = hex::decode(alloc, bytes)?;
    match field_text(alloc, field, &bytes) {
        Ok(text) => Ok(text),
        Err(error) => Ok(format!(in alloc; "{error}")?),
    }
}
