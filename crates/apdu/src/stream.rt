// The streams of the outside: a source and a sink, each with a count of faults that never falls.
ghost use Rattle.std.specs.Prelude.{◌≡◌, ◌≤◌, ◌<◌, ◌+◌, ◌-◌, ◌^◌, min, ◌==◌, List, ℕ, Option, Bool, length, IfOk, OnOk, OnErr};
ghost use Rattle.apdu.specs.Stream.{HasCause, Reads, Appends, AppendsPart};

use thiserror::Error;

/// A read or a write failed.
#[derive(Clone, Copy, Debug, PartialEq, Eq, Error)]
#[error("a read or a write failed")]
pub struct Failed;

/// Bytes that come in.
pub trait Source {
    /// What is left, where the source tells it.
    ghost left: { Self → Option (List ℕ) };

    /// Whether the last read of a buffer with room answered 0.
    ghost ended: { Self → Bool };

    /// How many bytes it gave, up to the last value of a u64.
    ghost given: { Self → ℕ };

    /// How often it failed, up to the last value of a u64.
    ghost faults: { Self → ℕ };

    /// Puts the next bytes into the front of the buffer, and answers how many. 0 for a buffer with
    /// room is the end.
    fn read(&mut self, into: &mut [u8]) -> Result<usize, Failed>
        ensures room { IfOk result (λ n. n ≤ length into.new) }
        ensures bytes { IfOk result (λ n. Reads (left self.old) (left self.new) n into.new) }
        ensures ended { IfOk result (λ n. 0 < length into.new → ended self.new ≡ (n == 0)) }
        ensures given { IfOk result (λ n. given self.new ≡ min (given self.old + n) (2 ^ 64 - 1)) }
        ensures cause { HasCause (faults self.old) (faults self.new) result };
}

/// Bytes that go out.
pub trait Sink {
    /// What was written, where the sink tells it.
    ghost written: { Self → Option (List ℕ) };

    /// How often it failed, up to the last value of a u64.
    ghost faults: { Self → ℕ };

    /// Writes the whole piece, or fails with a part of it written.
    fn write(&mut self, piece: &[u8]) -> Result<(), Failed>
        ensures ok { OnOk result (Appends (written self.old) (written self.new) piece.now) }
        ensures err { OnErr result (AppendsPart (written self.old) (written self.new) piece.now) }
        ensures cause { HasCause (faults self.old) (faults self.new) result };
}
