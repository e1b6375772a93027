// Digits of worked bytes.

use bcd::{read_digits, write_digits};
use std::alloc::Global;
use std::test::Fail;

/// Digits, and the bytes that they are written as or why they are refused.
pub const WRITTEN: &str = ":
7:f7
12:21
123:21f3
0123456789:1032547698
*#,N:badc
112*9#:11a2b9
1234567890123456789012345678901234567890:2143658709214365870921436587092143658709
12a:byte 2 is no digit
+12:byte 0 is no digit
n:byte 0 is no digit
12345678901234567890123456789012345678901:41 digits, more than 40
12345678901234567890123456789012345678901!:byte 41 is no digit";

/// Bytes, and the digits that they are read as.
pub const READ: &str = ":
f7:7
21:12
21f3:123
1032547698:0123456789
badc:*#,N
11a2b9:112*9#
2143658709214365870921436587092143658709:1234567890123456789012345678901234567890
ff12:
21e354:123
214e:12
21f3ff:123
21ffff:12";

pub fn written_of(alloc: Global, digits: &str) -> Result<String, Fail> {
    Ok(match write_digits(digits.as_bytes()) {
        Ok(bytes) => hex::encode(alloc, bytes.as_slice())?,
        Err(error) => format!(in alloc; "{error}")?,
    })
}

pub fn digits_of(alloc: Global, bytes: &str) -> Result<String, Fail> {
    let bytes = hex::decode(alloc, bytes)?;
    let digits = read_digits(alloc, &bytes)?;
    Ok(String::from_str(alloc, digits.as_str())?)
}
