// The adapters over the readers and writers of the standard library. They tell no content.
ghost use Rattle.std.specs.Prelude.{◌≡◌, None, false};

use crate::{Failed, Sink, Source};
use std::io::{Read, Write};

/// A source over a reader, such as standard input.
#[derive(Drop)]
pub struct ReaderSource<R> {
    reader: R,
    ended: bool,
    given: u64,
    faults: u64,
}

impl<R: Read> ReaderSource<R> {
    pub fn new(reader: R) -> ReaderSource<R>
        ensures left { ⟦<ReaderSource<R> as Source>⟧.left result ≡ None }
        ensures ended { ⟦<ReaderSource<R> as Source>⟧.ended result ≡ false }
        ensures given { ⟦<ReaderSource<R> as Source>⟧.given result ≡ 0 }
        ensures faults { ⟦<ReaderSource<R> as Source>⟧.faults result ≡ 0 }
    {
        ReaderSource {
            reader,
            ended: false,
            given: 0,
            faults: 0,
        }
    }
}

impl<R: Read> Source for ReaderSource<R> {
    ghost left = { λ _. None };

    ghost ended = { λ s. s.ended };

    ghost given = { λ s. s.given };

    ghost faults = { λ s. s.faults };

    fn read(&mut self, into: &mut [u8]) -> Result<usize, Failed> {
        let Ok(count) = self.reader.read(into) else {
            self.faults = self.faults.saturating_add(1);
            return Err(Failed);
        };
        self.given = self.given.saturating_add(count as u64);
        if !into.is_empty() {
            self.ended = count == 0;
        }
        Ok(count)
    }
}

/// A sink into a writer, such as standard output.
#[derive(Drop)]
pub struct WriterSink<W> {
    writer: W,
    faults: u64,
}

impl<W: Write> WriterSink<W> {
    pub fn new(writer: W) -> WriterSink<W>
        ensures written { ⟦<WriterSink<W> as Sink>⟧.written result ≡ None }
        ensures faults { ⟦<WriterSink<W> as Sink>⟧.faults result ≡ 0 }
    {
        WriterSink { writer, faults: 0 }
    }
}

impl<W: Write> Sink for WriterSink<W> {
    ghost written = { λ _. None };

    ghost faults = { λ s. s.faults };

    fn write(&mut self, piece: &[u8]) -> Result<(), Failed> {
        let mut rest = piece;
        while !rest.is_empty() {
            let count = self.writer.write(rest).unwrap_or(0);
            if count == 0 {
                self.faults = self.faults.saturating_add(1);
                return Err(Failed);
            }
            rest = &rest[count..];
        }
        Ok(())
    }
}
