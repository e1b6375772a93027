// A hub decodes a phonebook once, however often it is edited behind its load.
ghost use Rattle.std.specs.Prelude.{◌≡◌, true};
ghost use Rattle.script_reader.specs.Rules.{keeps_rules};

use apdu::Memory;
use hub::Hub;
use script::{Script, read_script};
use sim_card::SimSlot;
use std::alloc::Global;
use std::test::Fail;
use watched_tracker::mask_watches;
use watchers::MaskFilter;

/// A phonebook of two rows is loaded, and its first row written three times.
const SCRIPT: &str =
    r#"{"actors":[[{"card":0,"op":"in"},{"family":"phonebook","op":"load"},{"at":1,"family":"phonebook","name":"A","number":"1","op":"set"},{"at":1,"family":"phonebook","name":"B","number":"1","op":"set"},{"at":1,"family":"phonebook","name":"C","number":"1","op":"set"}]],"cards":[{"files":[{"kind":"linear","len":24,"path":"7F106F3A","records":["FFFFFFFFFFFFFFFFFFFFFFFFFFFFFFFFFFFFFFFFFFFFFFFF","FFFFFFFFFFFFFFFFFFFFFFFFFFFFFFFFFFFFFFFFFFFFFFFF"]}]}],"version":1}"#;

/// A hub over a simulated slot with the script's cards.
fn hub_of(alloc: Global, script: Script) -> Result<Hub<SimSlot, MaskFilter>, Memory>
    requires { keeps_rules script ≡ true }
{
    let images = script.images(alloc)?;
    let changes = script.changes(alloc)?;
    let faults = script.faults(alloc)?;
    let slot = SimSlot::new(alloc, images, changes, faults)?;
    let watches = mask_watches(alloc, &script)?;
    Hub::new(alloc, slot, script, watches)
}

/// The load is published, and each edit.
#[test]
fn three_edits_behind_a_load_decode_once(rt: HostRuntime) -> Result<(), Fail> {
    let script = read_script(rt.alloc(), SCRIPT.as_bytes()).map_err(|_| "a script")?;
    let mut hub = hub_of(rt.alloc(), script)?;
    for turn in 0..60 {
        let actor = turn % 2;
        if usize::from(actor) <= hub.script().actors.len() {
            let _ = hub.turn(actor)?;
        }
    }
    assert!(rt; !hub.pending());
    assert_eq!(rt; hub.publications(), 4);
    assert_eq!(rt; hub.decodings(), 1);
    Ok(())
}
