// All that a source gives, up to a limit.
ghost use Rattle.std.specs.Prelude.{◌≡◌, IfOk};
ghost use Rattle.streams.specs.Streams.{IsInput};

use crate::streams::Streams;
use apdu::{Memory, Sink, Source};
use std::alloc::Global;

/// What a source gave.
#[derive(Drop)]
pub enum Input {
    /// All its bytes.
    All(Vec<u8>),
    /// More bytes than the limit.
    TooLong,
    /// A failure.
    Fault,
}

/// Reads to the end of the source, or until it gave more bytes than the limit.
pub fn read_all<S: Source, K: Sink>(
    alloc: Global,
    limit: usize,
    streams: &mut Streams<S, K>,
) -> Result<Input, Memory>
    ensures input { IfOk result (IsInput limit streams.old.source streams.new.source) }
    ensures sink { streams.new.sink ≡ streams.old.sink }
{
    let mut bytes = Vec::new(alloc);
    let mut buffer = [0u8; 4096];
    'reads: while bytes.len() <= limit {
        match streams.source.read(&mut buffer) {
            Ok(count) => {
                if count == 0 {
                    return Ok(Input::All(bytes));
                }
                bytes.extend_from_slice(&buffer[..count])?;
            }
            Err(_) => return Ok(Input::Fault),
        }
    }
    Ok(Input::TooLong)
}
