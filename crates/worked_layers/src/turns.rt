// What a load sends to a slot that tells nothing of itself, and what it keeps of the answers.
ghost use Rattle.std.specs.Prelude.{None};

use apdu::{Command, Path, Response, Sw};
use arrayvec::ArrayVec;
use card_model::{Slot, SlotFault, Trail};
use epoch_cache::{Cache, Touch, Written};
use fcp::{Fcp, FileKind, write_fcp};
use link::Selection;
use loader::{LoadJob, LoadTurn};
use std::test::Fail;

// A transparent file 2FE2 of 300 bytes, a linear one 6F06 of two rows of one byte, a directory
// 7F10, and no other. A READ gives P1 twice.
#[derive(Drop)]
struct Terse {
    faults: u64,
}

fn described(kind: FileKind, id: u16, size: u16, count: u8) -> Fcp {
    Fcp {
        kind,
        size,
        file_id: Some(id),
        width: count.min(1) as u16,
        count,
        active: true,
        arr: None,
    }
}

fn parameters(id: u16) -> Option<Fcp> {
    match id {
        0x2FE2 => Some(described(FileKind::Transparent, id, 300, 0)),
        0x6F06 => Some(described(FileKind::Linear, id, 2, 2)),
        0x7F10 => Some(described(FileKind::Directory, id, 0, 0)),
        _ => None,
    }
}

fn selected(body: &[u8]) -> Response {
    let id = match body {
        [.., high, low] => *high as u16 * 256 + *low as u16,
        _ => 0,
    };
    let mut template = ArrayVec::new();
    let Some(fcp) = parameters(id) else {
        return Response {
            body: template,
            sw: Sw(0x6A82),
        };
    };
    let _ = template.try_extend_from_slice(write_fcp(&fcp, &[]).as_slice());
    Response {
        body: template,
        sw: Sw(0x9000),
    }
}

impl Slot for Terse {
    ghost world = { λ _. None };

    ghost faults = { λ s. s.faults };

    fn exchange(&mut self, command: &Command) -> Result<Response, SlotFault> {
        if command.ins == 0xA4 {
            return Ok(selected(command.body.as_slice()));
        }
        let mut body = ArrayVec::new();
        let _ = body.try_extend_from_slice(&[command.p1, command.p1]);
        Ok(Response {
            body,
            sw: Sw(0x9000),
        })
    }

    fn reset(&mut self) -> Result<(), SlotFault> {
        Ok(())
    }
}

fn row<'a>(cache: &'a Cache, id: u16, i: usize) -> Result<&'a [u8], Fail> {
    let path = Path::from_ids(&[id]).ok_or("an id")?;
    let rows = cache.take(&path).ok_or("the file")?;
    Ok(rows.row(i).ok_or("the row")?)
}

#[test]
fn reads_one_file_after_another(rt: HostRuntime) -> Result<(), Fail> {
    let mut slot = Terse { faults: 0 };
    let mut selection = Selection::none();
    let mut cache = Cache::new(rt.alloc());
    let mut paths = ArrayVec::new_in(());
    for id in [0x2FE2, 0x6F06, 0x7F10, 0x6F07] {
        let _ = paths.try_push(Path::from_ids(&[id]).ok_or("an id")?);
    }
    let mut job = LoadJob::begin(rt.alloc(), paths);
    let begins = Touch {
        begins: true,
        written: Written::Nothing,
        refresh: None,
    };
    // the steps of each turn; of 2FE2 the first READ comes twice
    let mut last = Trail::new();
    for (turn, steps) in [2, 2, 1, 2, 1, 1, 1].iter().enumerate() {
        let mut trail = Trail::new();
        let came = job.turn(&mut slot, &mut selection, &mut cache, 0, &mut trail);
        let expected = if turn == 6 {
            LoadTurn::Ready
        } else {
            LoadTurn::Going
        };
        assert!(rt; came == Ok(expected));
        assert_eq!(rt; trail.len(), *steps);
        if turn == 0 {
            job.forget(&begins, None);
        }
        if turn == 2 {
            last = trail;
        }
    }
    let read = [0x00, 0xB0, 0x00, 0xFF, 0x2D];
    let sent = last.last().ok_or("the last READ")?.command.write();
    assert_eq!(rt; sent.as_slice(), read.as_slice());
    let whole = row(&cache, 0x2FE2, 0)?;
    assert_eq!(rt; whole.len(), 300);
    assert!(rt; matches!(whole, [0, 0, 0xFF, ..]));
    assert_eq!(rt; row(&cache, 0x6F06, 1)?, [2].as_slice());
    Ok(())
}
