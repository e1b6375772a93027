//! Replays a script of a card and its users through the framework, and writes the report; and checks reports.
#![tactic(auto)]

mod bulk;
mod check;
mod text;
mod top;

use apdu::{ReaderSource, WriterSink};
use std::process::ExitCode;
use std::{env, io};
use streams::Streams;

fn main(rt: HostRuntime) -> io::Result<ExitCode> {
    let mut words = Vec::new(rt.alloc());
    for word in env::args(&rt)?.skip(1) {
        words.push(word)?;
    }
    let mut streams = Streams {
        source: ReaderSource::new(rt.stdin()),
        sink: WriterSink::new(rt.stdout()),
    };
    let outcome = top::top(rt.alloc(), words.as_slice(), &mut streams);
    Ok(ExitCode::from(outcome.status))
}
