//! The clock by which a bench goes.
ghost use Rattle.std.specs.Prelude.{ℕ};
ghost use Rattle.std.proofs.Props.{props};
ghost use Rattle.ubik_types.specs.Moment.{IsMoment};
ghost use Rattle.server_rounds.specs.Clock.{IsOfClock};

use crate::Bench;
use io_base::Clock;
use std::marker::PhantomData;
use std::sync::Mutex;

/// What gives the moments at which the turns of a bench are made.
pub(crate) trait Times<B: Bench>: Sync {
    /// A moment in seconds.
    fn now(&self) -> u32
        ensures moment { IsMoment result }
        ensures clocked { IsOfClock B.gave result };
}

/// A clock each moment of which is one of a bench. The bench itself stands under its lock.
pub(crate) struct BenchClock<'a, B: Bench, C: Clock> {
    pub(crate) clock: &'a C,
    pub(crate) of: PhantomData<Mutex<B>>,
    ghost timed: { (moment : ℕ) → C.gave clock.now moment → IsOfClock B.gave moment } by { Prim.hlevel props },
}

impl<'a, B: Bench, C: Clock> Drop for BenchClock<'a, B, C> {
    fn drop(self) {
        let Self { clock: _, of: _ } = self;
    }
}

impl<'a, B: Bench + Send, C: Clock> Times<B> for BenchClock<'a, B, C> {
    fn now(&self) -> u32 {
        self.clock.now()
    }
}
