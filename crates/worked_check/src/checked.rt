// A report of one load, as other programs write it, is legal; and with some of its lines changed it breaks a rule at a line.

use report_reader::read_report;
use std::alloc::Global;
use std::test::Fail;
use trace_check::{CheckError, check};

const FRONT: &str =
    r#"script {"actors":[[{"card":0,"op":"in"},{"family":"records","op":"load"}]],"cards":[{"files":[{"data":"98101430121181157002","kind":"transparent","path":"2FE2"}]}],"schedule":[1,0,0,1],"version":1}
mode replay
t 1
b 1 0
w 1 in 0
a 1 0 moved
t 0
x 0 8010000003010080 9000
t 0
x 0 00A4040C07A0000000871002 6A82
t 1
"#;

const BEGIN: &str = "b 1 1\n";

const SELECT: &str = "x 1 00A40804022FE200 620F8202412183022FE28A01058002000A9000\n";

const READ: &str = "x 1 00B000000A 981014301211811570029000\n";

const MISSING: &str = r#"t 0
t 1
x 1 00A40804047FFF6F0700 6A82
t 0
t 1
x 1 00A40804047FFF6FAD00 6A82
t 0
t 1
x 1 00A40804047FFF6F4600 6A82
t 0
t 1
x 1 00A40804047FFF6F4000 6A82
t 0
t 1
x 1 00A40804047FFF6F4E00 6A82
t 0
t 1
x 1 00A40804022F0000 6A82
"#;

const PUBLICATION: &str =
    r#"p 1 records 1 11 {"ad":null,"apps":[],"iccid":"89014103211118510720","imsi":null,"msisdn":[],"spn":null}
"#;

/// The same, one event too early.
const EARLY: &str =
    r#"p 1 records 1 10 {"ad":null,"apps":[],"iccid":"89014103211118510720","imsi":null,"msisdn":[],"spn":null}
"#;

const END: &str = "a 1 1 loaded 1\nend\n";

/// The first broken line of the report with these lines, and its lowest rule; none where the report is legal.
fn broken(
    alloc: Global,
    begin: &str,
    read: &str,
    publication: &str,
) -> Result<Option<(u64, u8)>, Fail> {
    let text = format!(in alloc; "{FRONT}{begin}{SELECT}{read}{MISSING}{publication}{END}")?;
    let report = read_report(alloc, text.as_bytes())?;
    match check(alloc, &report) {
        Ok(()) => Ok(None),
        Err(CheckError::Illegal { line, rule }) => Ok(Some((line, rule))),
        Err(error) => Err(error.into()),
    }
}

#[test]
fn reports_are_checked(rt: HostRuntime) -> Result<(), Fail> {
    let alloc = rt.alloc();
    assert_eq!(&rt; broken(alloc, BEGIN, READ, PUBLICATION)?, None);
    assert_eq!(&rt; broken(alloc, "", READ, PUBLICATION)?, Some((12, 8)));
    let lost = "f 1 00B000000A 0\n";
    assert_eq!(&rt; broken(alloc, BEGIN, lost, PUBLICATION)?, Some((14, 10)));
    let other = "x 1 00B000000A 981014301211811570019000\n";
    assert_eq!(&rt; broken(alloc, BEGIN, other, PUBLICATION)?, Some((14, 1)));
    assert_eq!(&rt; broken(alloc, BEGIN, READ, EARLY)?, Some((33, 2)));
    assert_eq!(&rt; broken(alloc, BEGIN, READ, "")?, Some((33, 6)));
    Ok(())
}
