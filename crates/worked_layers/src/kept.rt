// The calls that may want memory, where there is enough.

use apdu::{Command, Path, Response, Sw};
use arrayvec::ArrayVec;
use card_model::{Step, WorldEvent};
use epoch_cache::{Cache, Event, History};
use fcp::Rows;
use std::process::Abort;
use std::test::Fail;

fn adn(rt: &impl Abort) -> Path {
    Path::from_ids(&[0x7F10, 0x6F3A]).expect(rt, "a path")
}

#[test]
fn a_file_is_put_patched_and_touched(rt: HostRuntime) -> Result<(), Fail> {
    let path = adn(&rt);
    let mut rows = Rows::linear(rt.alloc(), 2);
    rows.push(&[1, 2])?;
    let mut cache = Cache::new(rt.alloc());
    cache.track(&path)?;
    cache.put(&path, rows, None)?;
    cache.patch(&path, 1, &[3, 4]);
    assert!(rt; cache.take(&path).is_some());
    cache.touch(&path);
    assert!(rt; cache.take(&path).is_none());
    assert!(rt; cache.version(&path) == 2);
    Ok(())
}

#[test]
fn events_are_pushed_within_the_room(rt: HostRuntime) -> Result<(), Fail> {
    let status = Command {
        class: 0x80,
        ins: 0xF2,
        p1: 0,
        p2: 0x0C,
        body: ArrayVec::new(),
        le: None,
    };
    let step = Step {
        command: status,
        outcome: Ok(Response {
            body: ArrayVec::new(),
            sw: Sw(0x9112),
        }),
    };
    let mut history = History::new(rt.alloc());
    history.reserve(2, 6)?;
    history.push(&Event::World {
        actor: 1,
        event: WorldEvent::Insert(0),
    });
    history.push(&Event::Exchange { actor: 0, step });
    assert!(rt; history.len() == 2 && history.epoch() == 1 && history.living());
    assert!(rt; history.announced() == Some(Sw(0x9112)));
    Ok(())
}
