// A script is read and written in one spelling.
use crate::{read_script, write_script};
use std::alloc::Global;
use std::process::Abort;
use std::test::Fail;

/// A script with each operation, and with each field that may be left out.
const WHOLE: &str =
    r#"{"actors":[[{"card":0,"op":"in"},{"op":"out"},{"change":0,"op":"arm"},{"family":"records","op":"load"},{"at":1,"family":"phonebook","name":"A\"\\\u0000я","number":"+1","op":"set"},{"family":"fixed","name":"","number":"","op":"set"},{"at":255,"family":"fixed","op":"clear"},{"aid":"A000000087","op":"open","ref":15},{"apdu":"00A40804022FE200","op":"raw","ref":15},{"op":"close","ref":15},{"key":"01","op":"verify","pin":"31323334FFFFFFFF"},{"key":"01","op":"end"},{"op":"poll"},{"op":"look"},{"mask":130,"op":"watch"},{"op":"notices"}],[]],"budget":20000000,"cards":[{"aids":["A0000000871002"],"channels":2,"files":[{"active":false,"arr":"2F0601","data":"0102","endless":true,"fcp":"62","kind":"transparent","path":"7FFF6F07"},{"kind":"linear","len":2,"path":"7F106F3A","records":["0304","ABCD"]}],"get_response":true,"keys":[{"key":"81","max":3,"pin":"3132333435363738","tries":2}]},{"files":[]}],"changes":[{"files":[{"data":"07","kind":"transparent","path":"7FFF6F07"}],"list":["7FFF6F07","7F106F3A"],"qualifier":1},{"qualifier":0,"type":2}],"faults":[{"acted":true,"at":3},{"acted":false,"at":4294967295}],"schedule":[2,0,1],"version":1}"#;

/// The script of this text is written as that text.
fn check_written(rt: &impl Abort, alloc: Global, text: &str, wanted: &str) -> Result<(), Fail> {
    let script = read_script(alloc, text.as_bytes()).map_err(|_| "refused")?;
    let written = write_script(alloc, &script)?;
    assert_eq!(rt; written.as_str(), wanted);
    Ok(())
}

#[test]
fn scripts_are_written_in_one_spelling(rt: HostRuntime) -> Result<(), Fail> {
    check_written(&rt, rt.alloc(), WHOLE, WHOLE)?;
    check_written(
        &rt,
        rt.alloc(),
        r#" { "version": 1, "schedule": [], "faults": [], "changes": [ {"type": 1, "qualifier": 0, "list": [], "files": []} ],
            "cards": [ {"files": [ {"path": "2fe2", "kind": "transparent", "data": "0a", "active": true, "endless": false} ],
                "aids": [], "keys": [], "channels": 3, "get_response": false} ],
            "actors": [[]] } "#,
        r#"{"actors":[[]],"cards":[{"files":[{"data":"0A","kind":"transparent","path":"2FE2"}]}],"changes":[{"qualifier":0}],"version":1}"#,
    )
}
