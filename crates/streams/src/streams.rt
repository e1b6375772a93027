// The outside of a call of a program: a source and a sink.
ghost use Rattle.std.specs.Prelude.{◌≡◌, OnErr, OnOk};
ghost use Rattle.streams.specs.Streams.{WritesFront, WritesWhole};

use apdu::{Failed, Sink, Source};
use std::marker::Model;

/// What a call reads from and writes to. Contracts see what the two tell of themselves.
#[derive(Drop)]
pub struct Streams<S: Source, K: Sink> {
    pub source: S,
    pub sink: K,
}

impl<S: Source, K: Sink> Model for Streams<S, K> {
    ghost use Rattle.streams.specs.Streams.{StreamsValue};

    ghost Value = { StreamsValue };

    ghost view = { λ s. record {
      source = record {
        left = S.left s.source;
        ended = S.ended s.source;
        given = S.given s.source;
        faults = S.faults s.source;
      };
      sink = record { written = K.written s.sink; faults = K.faults s.sink };
    } };
}

/// Writes the piece to the sink.
pub fn write_piece<S: Source, K: Sink>(
    streams: &mut Streams<S, K>,
    piece: &[u8],
) -> Result<(), Failed>
    ensures whole { OnOk result (WritesWhole streams.old.sink streams.new.sink piece.now) }
    ensures front { OnErr result (WritesFront streams.old.sink streams.new.sink piece.now) }
    ensures source { streams.new.source ≡ streams.old.source }
{
    streams.sink.write(piece)
}
