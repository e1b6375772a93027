// An open sends one command where MANAGE CHANNEL gives no number, and a verification one VERIFY whatever is answered.

use crate::nodding::Nodding;
use apdu::{Memory, Sw};
use card_model::Trail;
use channel_table::{OpenError, Table};
use hub::Hub;
use pin_session::{VerifyError, verify};
use report::{Line, write_line};
use script::read_script;
use std::alloc::Global;
use std::test::Fail;
use watched_tracker::mask_watches;
use watchers::MaskFilter;

const AID: [u8; 7] = [0xA0, 0, 0, 0, 0x87, 0x10, 0x02];

const PIN: [u8; 8] = [0x31, 0x32, 0x33, 0x34, 0xFF, 0xFF, 0xFF, 0xFF];

/// A card is put in; then a channel is opened and closed, and a session begun and ended.
const SCRIPT: &str =
    r#"{"actors":[[{"card":0,"op":"in"},{"aid":"A0000000871002","op":"open","ref":0},{"op":"close","ref":0},{"key":"01","op":"verify","pin":"31323334FFFFFFFF"},{"key":"01","op":"end"}]],"cards":[{"files":[]}],"version":1}"#;

/// What its operations answer, where MANAGE CHANNEL is the fourth event and VERIFY the fifth.
const ANSWERS: &str =
    "a 1 0 moved\na 1 1 status 9000 4\na 1 2 not-held 0\na 1 3 status 6C08 5\na 1 4 not-held 01\n";

#[test]
fn an_open_without_a_number_sends_one_command(rt: HostRuntime) -> Result<(), Fail> {
    let mut slot = Nodding::new();
    let mut table = Table::new();
    let mut trail = Trail::new();
    match table.open_channel(&mut slot, &AID, 1, &mut trail) {
        Ok(channel) => {
            channel.abandon();
            return Err("no channel".into());
        }
        Err(refusal) => assert_eq!(rt; refusal, OpenError::Status(Sw(0x9000))),
    }
    assert_eq!(rt; trail.len(), 1);
    Ok(())
}

#[test]
fn a_verification_sends_one_command(rt: HostRuntime) -> Result<(), Fail> {
    let mut slot = Nodding::new();
    let mut trail = Trail::new();
    match verify(&mut slot, 1, &PIN, 1, &mut trail) {
        Ok(session) => {
            session.end();
            return Err("no session".into());
        }
        Err(refusal) => assert_eq!(rt; refusal, VerifyError::Status(Sw(0x6C08))),
    }
    assert_eq!(rt; trail.len(), 1);
    Ok(())
}

/// The texts of the answers in the first lines of a hub.
fn answers(alloc: Global, hub: &Hub<Nodding, MaskFilter>) -> Result<String, Memory> {
    let mut texts = String::new(alloc);
    for at in 0..40 {
        if let Some(line) = hub.line(at)? {
            if let Line::Answered { .. } = line {
                texts.push_str(write_line(alloc, &line)?.as_str())?;
            }
        }
    }
    Ok(texts)
}

/// The insertion, two commands of start-up, MANAGE CHANNEL and VERIFY are all that happens, and the answers name the last two.
#[test]
fn a_hub_sends_no_further_command(rt: HostRuntime) -> Result<(), Fail> {
    let script = read_script(rt.alloc(), SCRIPT.as_bytes()).map_err(|_| "a script")?;
    let watches = mask_watches(rt.alloc(), &script)?;
    let mut hub = Hub::new(rt.alloc(), Nodding::new(), script, watches)?;
    for turn in 0..20 {
        let actor = turn % 2;
        if usize::from(actor) <= hub.script().actors.len() {
            let _ = hub.turn(actor)?;
        }
    }
    assert!(rt; !hub.pending());
    assert_eq!(rt; hub.events(), 5);
    let answers = answers(rt.alloc(), &hub)?;
    assert_eq!(rt; answers.as_str(), ANSWERS);
    Ok(())
}
