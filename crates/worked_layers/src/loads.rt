// Whole loads from simulated cards.
use apdu::{Command, Text};
use card_model::{ScriptedSlot, Slot, Trail, WorldEvent};
use epoch_cache::{Cache, Touch, Written};
use families::{ContentText, Families, Standard};
use link::{Selection, transmit};
use loader::{LoadError, LoadJob, LoadTurn};
use script::read_script;
use sim_card::SimSlot;
use std::alloc::Global;
use std::test::Fail;

/// A family, the card that it is loaded from, and what it comes to.
const CASES: &str =
    r#"0 {"aids":["A0000000871002"],"files":[{"path":"2FE2","kind":"transparent","data":"98101430121181157002"},{"path":"7FFF6F07","kind":"transparent","data":"083901141032547698"},{"path":"7FFF6FAD","kind":"transparent","data":"00000003"},{"path":"7FFF6F46","kind":"transparent","data":"0180042F04300431FFFFFFFFFFFFFFFFFF"},{"path":"7FFF6F40","kind":"linear","len":16,"records":["FFFF0B9121436587092143658709FF01"]},{"path":"7FFF6F4E","kind":"linear","len":13,"records":["020134FFFFFFFFFFFFFFFFFFFF"]},{"path":"2F00","kind":"linear","len":16,"records":["610E4F07A00000008710025003415050","FFFFFFFFFFFFFFFFFFFFFFFFFFFFFFFF","6200FFFFFFFFFFFFFFFFFFFFFFFFFFFF"]}]} {"ad":{"mnc":3,"mode":0},"apps":[{"aid":"A0000000871002","label":"415050"},null,{"bad":0}],"iccid":"89014103211118510720","imsi":"310410123456789","msisdn":[{"name":"","number":"+1234567890123456789043"}],"spn":{"name":"Яаб","show":1}}
0 {"files":[{"path":"2FE2","kind":"transparent","data":"98101430121181157002"}],"get_response":true} {"ad":null,"apps":[],"iccid":"89014103211118510720","imsi":null,"msisdn":[],"spn":null}
1 {"files":[{"path":"7F106F3A","kind":"linear","len":24,"records":["426F62FFFFFFFFFFFFFF059151552143FFFFFFFFFFFFFFFF","FFFFFFFFFFFFFFFFFFFFFFFFFFFFFFFFFFFFFFFFFFFFFFFF"]}],"get_response":true} {"entries":[{"name":"Bob","number":"+15551234"},null]}
2 {"aids":["A0000000871002"],"files":[{"path":"7FFF6F3B","kind":"linear","len":16,"records":["41FF0B8121436587092143658709FF01"]},{"path":"7FFF6F4B","kind":"linear","len":13,"records":["02012134FFFFFFFFFFFFFFFFFF"]}]} {"entries":[{"name":"A","number":"1234567890123456789012"}]}
0 {"files":[{"path":"2FE2","kind":"transparent","data":"98101430121181157002","fcp":"6200"}]} bad-fcp
0 {"files":[{"path":"2FE2","kind":"transparent","data":"00000000000000000000","endless":true}]} loop 6C01
0 {"files":[{"path":"2FE2","kind":"transparent","data":"98101430121181157002","active":false}]} status 6985"#;

/// A card with a phonebook of two rows.
const BOOK: &str =
    r#"{"files":[{"path":"7F106F3A","kind":"linear","len":24,"records":["426F62FFFFFFFFFFFFFF059151552143FFFFFFFFFFFFFFFF","FFFFFFFFFFFFFFFFFFFFFFFFFFFFFFFFFFFFFFFFFFFFFFFF"]}]}"#;

/// A slot that holds the card.
fn slot_with(alloc: Global, card: &str) -> Result<SimSlot, Fail> {
    let text = format!(in alloc; "{{\"actors\":[[]],\"cards\":[{card}],\"version\":1}}")?;
    let script = read_script(alloc, text.as_bytes()).map_err(|_| "a script")?;
    let images = script.images(alloc)?;
    let changes = script.changes(alloc)?;
    let faults = script.faults(alloc)?;
    let mut slot = SimSlot::new(alloc, images, changes, faults)?;
    slot.world(&WorldEvent::Insert(0)).map_err(|_| "a card")?;
    Ok(slot)
}

fn command(alloc: Global, text: &str) -> Result<Command, Fail> {
    let bytes = hex::decode(alloc, text)?;
    Ok(Command::read(&bytes).map_err(|_| "a command")?)
}

/// A phone that has selected the USIM, where the card has one.
#[derive(Drop)]
struct Phone {
    slot: SimSlot,
    selection: Selection,
    cache: Cache,
}

impl Phone {
    fn begin(alloc: Global, card: &str) -> Result<Phone, Fail> {
        let mut slot = slot_with(alloc, card)?;
        let mut trail = Trail::new();
        let select = command(alloc, "00A4040C07A0000000871002")?;
        let _ = transmit(&mut slot, &select, &mut trail);
        Ok(Phone {
            slot,
            selection: Selection::none(),
            cache: Cache::new(alloc),
        })
    }

    fn turn(&mut self, job: &mut LoadJob) -> Result<LoadTurn, LoadError> {
        let mut trail = Trail::new();
        job.turn(
            &mut self.slot,
            &mut self.selection,
            &mut self.cache,
            0,
            &mut trail,
        )
    }

    /// Turns until the load is ready.
    fn load(&mut self, job: &mut LoadJob) -> Result<LoadTurn, LoadError> {
        for _ in 0..50 {
            if self.turn(job)? == LoadTurn::Ready {
                return Ok(LoadTurn::Ready);
            }
        }
        Ok(LoadTurn::Going)
    }
}

fn job_of(alloc: Global, family: u8) -> Result<LoadJob, Fail> {
    if family >= Standard.count() {
        return Err("a family".into());
    }
    Ok(LoadJob::begin(alloc, Standard.paths(family)))
}

fn shown(alloc: Global, family: u8, phone: &Phone) -> Result<Text, Fail> {
    if family >= Standard.count() {
        return Err("a family".into());
    }
    Ok(Standard.decode(alloc, family, &phone.cache)?.text(alloc)?)
}

/// What the load of a family comes to.
fn loaded(alloc: Global, family: u8, card: &str) -> Result<String, Fail> {
    let mut phone = Phone::begin(alloc, card)?;
    let mut job = job_of(alloc, family)?;
    match phone.load(&mut job) {
        Ok(LoadTurn::Ready) => Ok(format!(in alloc; "{}", shown(alloc, family, &phone)?.as_str())?),
        Ok(LoadTurn::Going) => Err("a load without an end".into()),
        Err(LoadError::Status(sw)) => Ok(format!(in alloc; "status {:04X}", sw.0)?),
        Err(LoadError::Loop(sw)) => Ok(format!(in alloc; "loop {:04X}", sw.0)?),
        Err(LoadError::BadFcp(_)) => Ok(format!(in alloc; "bad-fcp")?),
        Err(LoadError::Slot | LoadError::Memory) => Err("a fault".into()),
    }
}

#[test]
fn families_are_loaded(rt: HostRuntime) -> Result<(), Fail> {
    for case in CASES.lines() {
        let (family, rest) = case.split_once(' ').ok_or("a family")?;
        let (card, want) = rest.split_once(' ').ok_or("a card")?;
        let found = loaded(rt.alloc(), family.parse()?, card)?;
        assert_eq!(rt; found.as_str(), want, "at {case}");
    }
    Ok(())
}

/// Another writes a row that the load has read, and the load reads it again.
#[test]
fn a_row_that_moved_is_read_again(rt: HostRuntime) -> Result<(), Fail> {
    let alloc = rt.alloc();
    let mut phone = Phone::begin(alloc, BOOK)?;
    let mut job = job_of(alloc, 1)?;
    let first = phone.turn(&mut job).map_err(|_| "a first row")?;
    assert_eq!(rt; first, LoadTurn::Going);
    let update = command(
        alloc,
        "00DC010418526F62FFFFFFFFFFFFFF059151552143FFFFFFFFFFFFFFFF",
    )?;
    let _ = phone.slot.exchange(&update);
    let touch = Touch {
        begins: false,
        written: Written::Raw,
        refresh: None,
    };
    job.forget(&touch, phone.selection.path());
    let last = phone.load(&mut job).map_err(|_| "the rows")?;
    assert_eq!(rt; last, LoadTurn::Ready);
    let found = shown(alloc, 1, &phone)?;
    assert_eq!(rt;
        found.as_str(),
        r#"{"entries":[{"name":"Rob","number":"+15551234"},null]}"#
    );
    Ok(())
}
