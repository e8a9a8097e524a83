//! An end that is one of two.

use crate::{Failed, Sink, Source};
use either::Either;

/// One source or another, as a file or standard input. It tells what the one that is there tells.
impl<A: Source, B: Source> Source for Either<A, B> {
    ghost use Rattle.either.specs.Either.{either};

    ghost ends = { either A.ends B.ends };

    fn read(&mut self, room: &mut [u8]) -> Result<usize, Failed> {
        match self {
            Either::Left(source) => source.read(room),
            Either::Right(source) => source.read(room),
        }
    }
}

/// One sink or another, as standard output or standard error. It tells what the one that is there
/// tells.
impl<A: Sink, B: Sink> Sink for Either<A, B> {
    ghost use Rattle.either.specs.Either.{either};

    ghost ends = { either A.ends B.ends };

    fn write(&mut self, piece: &[u8]) -> Result<usize, Failed> {
        match self {
            Either::Left(sink) => sink.write(piece),
            Either::Right(sink) => sink.write(piece),
        }
    }
}
