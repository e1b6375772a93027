// Control parameters and access rules of worked bytes.

use fcp::{read_fcp, read_rule};
use std::alloc::Global;
use std::test::Fail;

/// Bytes, and the parameters that they are read as: the kind, the size, the id, the width and the count of rows, whether it is active, its rule.
/// Then bytes of other cards: any order, other tags, a second object of a tag, a size of four bytes, a reference of one byte, bytes behind the
/// template; a directory of which no life cycle is told, and whose size is not read. Then bytes that are refused.
pub const PARAMETERS: &str =
    "620F8202412183022FE28A01058002000A:Transparent 10 Some(12258) 0 0 true None
621782054221001CFA83026F3A8A01048B036F060380021B58:Linear 7000 Some(28474) 28 250 false Some(ArrRef { file_id: 28422, row: 3 })
620B8202782183027F108A0105:Directory 0 Some(32528) 0 0 true None
6210820278218407A00000008710028A0105:Directory 0 None 0 0 true None
62811980040000010588008B01068A010683026F078A0109820201211F:Transparent 261 Some(28423) 0 0 false None
62068202B8218000:Directory 0 None 0 0 true None
:no object of tag 62
6F00:no object of tag 62
620582:the objects cannot be read: the object at byte 0 passes the end
62038A0205:the objects cannot be read: the object at byte 0 passes the end
62058A01051F00:the objects cannot be read: byte 3 is no tag that is read
6200:no object of tag 82
620482024121:no object of tag 83
620482024221:no object of tag 83
62088202412183022FE2:no object of tag 80
620482024621:the value of tag 82 is none that is read
6203820178:the value of tag 82 is none that is read
620B8205422101000183026F3A:the value of tag 82 is none that is read
62078202782183017F:the value of tag 83 is none that is read
6207820278218A0101:the value of tag 8A is none that is read
620C8202412183022FE280028000:the value of tag 80 is none that is read
620A8202412183022FE28000:the value of tag 80 is none that is read";

/// A rule, and what reading and updating ask for.
pub const RULES: &str = ":Never Never
800101A406830101950108:Key(1) Never
800101A406830101950108800102A406830181950108:Key(1) Key(129)
8081010390008001029700:Always Always
840090008001029000800101:Never Always
80010190001F8001029000:Always Never
90008001039000:Never Never";

pub fn parameters_of(alloc: Global, bytes: &str) -> Result<String, Fail> {
    let bytes = hex::decode(alloc, bytes)?;
    Ok(match read_fcp(&bytes) {
        Ok(fcp) => {
            format!(in alloc;
                "{:?} {} {:?} {} {} {} {:?}",
                fcp.kind, fcp.size, fcp.file_id, fcp.width, fcp.count, fcp.active, fcp.arr
            )?
        }
        Err(error) => format!(in alloc; "{error}")?,
    })
}

pub fn rule_of(alloc: Global, bytes: &str) -> Result<String, Fail> {
    let bytes = hex::decode(alloc, bytes)?;
    let rule = read_rule(&bytes);
    Ok(format!(in alloc; "{:?} {:?}", rule.read, rule.update)?)
}
