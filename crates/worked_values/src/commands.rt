// Worked proactive commands.

use refresh_cmd::{Proactive, read_proactive, write_terminal_response};
use std::alloc::Global;
use std::test::Fail;

/// Bytes, and the details and paths that are read of them. The last have tags without their bit 8, an object of another tag, two
/// objects of a tag, a file list of two paths, and bytes behind.
pub const READ: &str = "D0128103010101820281829207013F007FFF6F46:1 1 1 7FFF6F46
D009810301010482028182:1 1 4
D020120D023F002FE23F007FFF6F3A4F2205014101030201038103090909020281820000:2 1 3 2FE2 7FFF6F3A4F22";

/// Bytes, and why they are no proactive command: the tag; damage, which is told before anything that is missing; an object that is
/// missing or has another length; a list of no count, of another, of a path that does not begin with the master file, of that file
/// alone, of four further ids, and of a byte left over.
pub const REFUSED: &str = ":the tag 00 is not D0
8103:the tag 81 is not D0
D009810301010482:the objects cannot be read: the object at byte 0 passes the end
D0820000:the objects cannot be read: the length at byte 1 is neither one byte below 80 nor 81 and a byte
D0058202818200:the objects cannot be read: byte 4 is no tag that is read
D000:no object of tag 01 with its length
D0088102010182028182:no object of tag 01 with its length
D0058103010101:no object of tag 02 with its length
D00C810301010182038182839200:no object of tag 02 with its length
D00B8103010101820281829200:the file list is no count and as many paths from the master file
D0128103010101820281829207023F007FFF6F46:the file list is no count and as many paths from the master file
D00C810301010182028182920101:the file list is no count and as many paths from the master file
D0108103010101820281829205017FFF6F46:the file list is no count and as many paths from the master file
D00E8103010101820281829203013F00:the file list is no count and as many paths from the master file
D016810301010182028182920B013F007FFF5F3A4F226F46:the file list is no count and as many paths from the master file
D0118103010101820281829206013F007FFF6F:the file list is no count and as many paths from the master file";

/// The details, and the ids of each path.
fn command_text(alloc: Global, p: &Proactive) -> Result<String, Fail> {
    let mut text = format!(in alloc; "{} {} {}", p.number, p.kind, p.qualifier)?;
    for path in p.list.as_slice() {
        text.push(' ')?;
        for id in path.ids() {
            text.push_str(format!(in alloc; "{id:04X}")?.as_str())?;
        }
    }
    Ok(text)
}

pub fn command_of(alloc: Global, bytes: &str) -> Result<String, Fail> {
    let bytes = hex::decode(alloc, bytes)?;
    match read_proactive(&bytes) {
        Ok(command) => command_text(alloc, &command),
        Err(error) => Ok(format!(in alloc; "{error}")?),
    }
}

/// The body of a TERMINAL RESPONSE with this number, kind, qualifier and general result, a byte each.
pub fn terminal_response_of(alloc: Global, bytes: &str) -> Result<String, Fail> {
    match hex::decode(alloc, bytes)?.as_slice() {
        [number, kind, qualifier, result] => {
            let response = write_terminal_response(*number, *kind, *qualifier, *result);
            Ok(hex::encode(alloc, response.as_slice())?)
        }
        _ => Err("four bytes".into()),
    }
}

pub const TERMINAL_RESPONSES: &str = "01010100:810301010182028281830100";
