//! Plays a conversation with a simulated card: the first line is a script, whose cards, changes and faults are taken, and each further line a
//! call of the slot. The conversation is written anew, each call with its answer.
#![tactic(auto)]

mod lines;
mod play;
mod text;
mod top;

use apdu::{ReaderSource, WriterSink};
use std::io;
use std::process::ExitCode;
use streams::Streams;

fn main(rt: HostRuntime) -> io::Result<ExitCode> {
    let mut streams = Streams {
        source: ReaderSource::new(rt.stdin()),
        sink: WriterSink::new(rt.stdout()),
    };
    let status = top::top(rt.alloc(), &mut streams);
    Ok(ExitCode::from(status))
}
