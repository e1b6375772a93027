// Streams that fail at a given call.

use apdu::{Failed, MemorySink, MemorySource, Sink, Source, WriterSink};
use arrayvec::ArrayVec;
use std::io;
use std::io::Write;
use std::test::Fail;

// Takes at most three bytes a write. The write of the first number, from 1, fails, and that of the
// second takes nothing.
#[derive(Drop)]
struct Narrow {
    taken: ArrayVec<u8, 16>,
    calls: u64,
    fails: u64,
    stops: u64,
}

impl Write for Narrow {
    fn write(&mut self, bytes: &[u8]) -> io::Result<usize> {
        self.calls = self.calls.saturating_add(1);
        if self.calls == self.fails {
            return Err(io::Error::from(io::ErrorKind::Other));
        }
        if self.calls == self.stops {
            return Ok(0);
        }
        let count = bytes.len().min(3).min(self.taken.remaining_capacity());
        let _ = self.taken.try_extend_from_slice(&bytes[..count]);
        Ok(count)
    }

    fn flush(&mut self) -> io::Result<()> {
        Ok(())
    }
}

#[test]
fn writes_in_parts_or_fails(rt: HostRuntime) {
    let piece = [1, 2, 3, 4, 5, 6, 7];
    // the call that fails, the call that takes nothing, and how much is written
    let cases = [
        (0, 0, Ok(()), 7),
        (1, 0, Err(Failed), 0),
        (3, 0, Err(Failed), 6),
        (0, 2, Err(Failed), 3),
    ];
    for (fails, stops, wanted, count) in cases {
        let mut narrow = Narrow {
            taken: ArrayVec::new(),
            calls: 0,
            fails,
            stops,
        };
        let written = WriterSink::new(&mut narrow).write(&piece);
        assert_eq!(rt; written, wanted);
        assert!(rt; piece.starts_with(narrow.taken.as_slice()));
        assert_eq!(rt; narrow.taken.len(), count);
    }
}

#[test]
fn fails_as_planned_in_memory(rt: HostRuntime) -> Result<(), Fail> {
    let bytes = [1, 2, 3].to_vec(rt.alloc())?;
    let mut source = MemorySource::new(bytes, [2].to_vec(rt.alloc())?);
    let mut into = [0; 2];
    assert_eq!(rt; source.read(&mut into), Ok(2));
    assert_eq!(rt; into, [1, 2]);
    assert_eq!(rt; source.read(&mut into), Err(Failed));
    assert_eq!(rt; source.read(&mut into), Ok(1));
    assert_eq!(rt; into[0], 3);
    assert_eq!(rt; source.read(&mut into), Ok(0));

    let mut sink = MemorySink::new(rt.alloc(), [2].to_vec(rt.alloc())?);
    assert_eq!(rt; sink.write(&[1, 2]), Ok(()));
    assert_eq!(rt; sink.write(&[3]), Err(Failed));
    assert_eq!(rt; sink.write(&[4]), Ok(()));
    assert_eq!(rt; sink.bytes(), [1, 2, 4].as_slice());
    Ok(())
}
