// Objects of worked bytes.

use std::alloc::Global;
use std::test::Fail;
use tlv::{BerReader, SimpleReader};

/// A tag rule, bytes, and the objects that are read of them up to the end or an error.
pub const OBJECTS: &str = "ber 800105A4810206079000:80 05;a4 0607;90 ;
ber :
ber 001F:
ber 8000FF1F:80 ;
ber 1F01058000:byte 0 is no tag that is read
ber 80003F:80 ;byte 2 is no tag that is read
ber 80:the object at byte 0 passes the end
ber 8000800201:80 ;the object at byte 2 passes the end
ber 80008081:80 ;the object at byte 2 passes the end
ber 80810201:the object at byte 0 passes the end
ber 808000:the length at byte 1 is neither one byte below 80 nor 81 and a byte
ber 808101059082:80 05;the length at byte 5 is neither one byte below 80 nor 81 and a byte
simple 8101050200FE00:01 05;02 ;7e ;
simple 1F009F00:1f ;1f ;
simple 010000:01 ;byte 2 is no tag that is read
simple 7F00:byte 0 is no tag that is read
simple 8000:byte 0 is no tag that is read
simple FF00:byte 0 is no tag that is read";

/// The objects of bytes by a tag rule, and the error that ends the reading.
fn objects_text(alloc: Global, rule: &str, bytes: &[u8]) -> Result<String, Fail> {
    let mut text = String::new(alloc);
    let mut ber = BerReader::new(bytes);
    let mut simple = SimpleReader::new(bytes);
    'objects: loop {
        let object = if rule == "ber" {
            ber.next()
        } else {
            simple.next()
        };
        match object {
            Ok(Some((tag, value))) => {
                let value = hex::encode(alloc, value)?;
                text.push_str(format!(in alloc; "{:02x} {};", tag, value.as_str())?.as_str())?;
            }
            Ok(None) => return Ok(text),
            Err(error) => {
                text.push_str(format!(in alloc; "{error}")?.as_str())?;
                return Ok(text);
            }
        }
    }
}

pub fn objects_of(alloc: Global, objects: &str) -> Result<String, Fail> {
    let (rule, bytes) = objects.split_once(' ').ok_or("a tag rule")?;
    let bytes = hex::decode(alloc, bytes)?;
    objects_text(alloc, rule, &bytes)
}
