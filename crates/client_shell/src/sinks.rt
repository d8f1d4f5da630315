//! Two kinds of sinks as one, since a command takes one kind for its texts and its faults.
ghost use Rattle.std.specs.Prelude.{◌≡◌, ◌<◌, length};

use disk_base::{Sink, Wrote};

/// A sink of one of two kinds.
#[derive(Drop)]
pub enum Either<A: Sink + Drop, B: Sink + Drop> {
    First(A),
    Second(B),
}

impl<A: Sink + Drop, B: Sink + Drop> Sink for Either<A, B> {
    ghost use Rattle.client_shell.specs.Sinks.{by_kind};

    ghost written = { by_kind A.written B.written };

    ghost faults = { by_kind A.faults B.faults };

    fn write(&mut self, bytes: &[u8]) -> Wrote {
        match self {
            Either::First(sink) => sink.write(bytes),
            Either::Second(sink) => sink.write(bytes),
        }
    }
}
