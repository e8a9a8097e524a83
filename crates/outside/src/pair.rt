//! A connection made of an end that reads and an end that writes.
ghost use Rattle.std.specs.Prelude.{◌≡◌, [], ◌∷◌};

use crate::{Failed, Link, Sink, Source};

/// A `Link` that reads from a `Source` and writes to a `Sink`, by their references.
#[derive(Drop)]
pub struct PairLink<'a, I: Source, O: Sink> {
    pub source: &'a mut I,
    pub sink: &'a mut O,
}

impl<'a, I: Source, O: Sink> PairLink<'a, I, O> {
    pub fn new(source: &'a mut I, sink: &'a mut O) -> PairLink<'a, I, O>
        ensures source { result.source.ghost_name ≡ source.entry.ghost_name }
        ensures source_now { result.source.now ≡ source.old }
        ensures sink { result.sink.ghost_name ≡ sink.entry.ghost_name }
        ensures sink_now { result.sink.now ≡ sink.old }
    {
        PairLink { source, sink }
    }
}

impl<'a, I: Source, O: Sink> Link for PairLink<'a, I, O> {
    ghost use Rattle.std.specs.Prelude.{[], ◌∷◌};

    ghost ends = { λ p. record { incoming = I.ends p.source.now; outgoing = O.ends p.sink.now } };

    ghost holds = { λ p. p.source.ghost_name ∷ p.sink.ghost_name ∷ [] };

    fn read(&mut self, room: &mut [u8]) -> Result<usize, Failed> {
        self.source.read(room)
    }

    fn write(&mut self, piece: &[u8]) -> Result<usize, Failed> {
        self.sink.write(piece)
    }
}
