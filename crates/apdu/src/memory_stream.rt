// A source and a sink in memory, some calls of which fail as planned.
ghost use Rattle.std.specs.Prelude.{◌≡◌, ◌≤◌, ◌<◌, ◌+◌, ◌-◌, ◌^◌, min, ◌==◌, [], length, is_err, IsErr, IsTrue, IfOk, OnOk, OnErr, Some, false};
ghost use Rattle.apdu.specs.Stream.{HasCause, Reads, Appends, AppendsPart};
ghost use Rattle.apdu.specs.Words.{is_one_of};

use crate::{Failed, Sink, Source};
use std::alloc::Global;
use std::marker::Model;

/// A source over bytes in memory. The reads whose numbers, from 1, are listed fail.
#[derive(Drop)]
pub struct MemorySource {
    bytes: Vec<u8>,
    failing: Vec<u64>,
    at: usize,
    calls: u64,
    faults: u64,
    ended: bool,
}

impl Model for MemorySource {
    ghost use Rattle.std.specs.Prelude.{◌≤◌, length, drop};
    ghost use Rattle.apdu.specs.MemoryStream.{SourceState};

    ghost Value = { SourceState };

    ghost view = { λ s. record { left = drop s.at s.bytes.items; given = s.at; ended = s.ended; failing = s.failing.items; calls = s.calls; faults = s.faults } };

    ghost invariant = { λ s. s.at ≤ length s.bytes.items };
}

impl MemorySource {
    pub fn new(bytes: Vec<u8>, failing: Vec<u64>) -> MemorySource
        ensures { result ≡ record {
          left = bytes.items;
          given = 0;
          ended = false;
          failing = failing.items;
          calls = 0;
          faults = 0;
        } }
    {
        MemorySource {
            bytes,
            failing,
            at: 0,
            calls: 0,
            faults: 0,
            ended: false,
        }
    }
}

impl Source for MemorySource {
    ghost left = { λ s. Some s.left };

    ghost ended = { λ s. s.ended };

    ghost given = { λ s. min s.given (2 ^ 64 - 1) };

    ghost faults = { λ s. s.faults };

    fn read(&mut self, into: &mut [u8]) -> Result<usize, Failed>
        ensures room { IfOk result (λ n. n ≤ length into.new) }
        ensures bytes { IfOk result (λ n. Reads (Some self.old.left)
            (Some self.new.left) n into.new) }
        ensures ended { IfOk result (λ n. 0 < length into.new → self.new.ended ≡ (n == 0)) }
        ensures given { IfOk result (λ n. min self.new.given (2 ^ 64 - 1)
            ≡ min (min self.old.given (2 ^ 64 - 1) + n) (2 ^ 64 - 1)) }
        ensures cause { HasCause self.old.faults self.new.faults result }
        ensures fails { is_err result ≡ is_one_of self.new.calls self.old.failing }
        ensures counts { self.new.calls ≡ min (self.old.calls + 1) (2 ^ 64 - 1) }
        ensures plan { self.new.failing ≡ self.old.failing }
        ensures no_fault { OnOk result (self.new.faults ≡ self.old.faults) }
        ensures kept { OnErr result (self.new.left ≡ self.old.left) }
    {
        self.calls = self.calls.saturating_add(1);
        if self.failing.contains(&self.calls) {
            self.faults = self.faults.saturating_add(1);
            return Err(Failed);
        }
        let count = into.len().min(self.bytes.len() - self.at);
        into[..count].copy_from_slice(&self.bytes[self.at..self.at + count]);
        self.at += count;
        if !into.is_empty() {
            self.ended = count == 0;
        }
        Ok(count)
    }
}

/// A sink into memory. The writes whose numbers, from 1, are listed fail and keep nothing.
#[derive(Drop)]
pub struct MemorySink {
    bytes: Vec<u8>,
    failing: Vec<u64>,
    calls: u64,
    faults: u64,
}

impl Model for MemorySink {
    ghost use Rattle.apdu.specs.MemoryStream.{SinkState};

    ghost Value = { SinkState };

    ghost view = { λ s. record { written = s.bytes.items; failing = s.failing.items; calls = s.calls; faults = s.faults } };
}

impl MemorySink {
    pub fn new(alloc: Global, failing: Vec<u64>) -> MemorySink
        ensures { result ≡ record { written = []; failing = failing.items; calls = 0; faults = 0 } }
    {
        MemorySink {
            bytes: Vec::new(alloc),
            failing,
            calls: 0,
            faults: 0,
        }
    }

    /// What was written.
    pub fn bytes(&self) -> &[u8]
        ensures { result.now ≡ self.now.written }
    {
        self.bytes.as_slice()
    }
}

impl Sink for MemorySink {
    ghost written = { λ s. Some s.written };

    ghost faults = { λ s. s.faults };

    fn write(&mut self, piece: &[u8]) -> Result<(), Failed>
        ensures ok { OnOk result (Appends (Some self.old.written)
            (Some self.new.written) piece.now) }
        ensures err { OnErr result (AppendsPart (Some self.old.written)
            (Some self.new.written) piece.now) }
        ensures cause { HasCause self.old.faults self.new.faults result }
        ensures fails { IsTrue (is_one_of self.new.calls self.old.failing) → IsErr result }
        ensures counts { self.new.calls ≡ min (self.old.calls + 1) (2 ^ 64 - 1) }
        ensures plan { self.new.failing ≡ self.old.failing }
        ensures no_fault { OnOk result (self.new.faults ≡ self.old.faults) }
        ensures kept { OnErr result (self.new.written ≡ self.old.written) }
    {
        self.calls = self.calls.saturating_add(1);
        if self.failing.contains(&self.calls) || self.bytes.extend_from_slice(piece).is_err() {
            self.faults = self.faults.saturating_add(1);
            return Err(Failed);
        }
        Ok(())
    }
}
