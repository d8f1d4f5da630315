//! What the workers of a server share.
ghost use Rattle.std.specs.Prelude.{◌≡◌, true, []};
ghost use Rattle.ubik_types.specs.Moment.{IsMoment};
ghost use Rattle.server_rounds.specs.Clock.{IsOfClock};

use server_rounds::{Sendings, Turn, TurnEnd};

/// The one state of a server, at which a worker makes a turn at a time, from a seat of its own.
pub trait Bench {
    ghost use Rattle.std.specs.Prelude.{Bool, ℕ};
    ghost use Rattle.server_rounds.specs.declared.turns.TurnEnd.{TurnEnd};

    /// Whether a turn may have ended so: what caused it is still seen in the state.
    ghost caused: { Self → TurnEnd → Bool };

    /// The clock by which the server goes gave this moment.
    ghost gave: { ℕ → Type 0 };

    type Seat: Drop;

    /// Makes a turn at a moment in seconds, and leaves in `out` what it sends.
    fn turn(&mut self, seat: &mut Self::Seat, now: u32, turn: Turn, out: &mut Sendings) -> TurnEnd
        requires moment { IsMoment now }
        requires clocked { IsOfClock gave now }
        requires empty { out.old ≡ [] }
        ensures caused { caused self.new result ≡ true }
        ensures stays { (end : TurnEnd) → caused self.old end ≡ true → caused self.new end ≡ true };

    /// Takes back the seat of a worker that ends.
    fn take_back(&mut self, seat: Self::Seat)
        ensures { (end : TurnEnd) → caused self.old end ≡ true → caused self.new end ≡ true };
}

/// A seat for each worker.
#[derive(Drop)]
pub struct Seats<T> {
    pub beacons: T,
    pub recovery: T,
    pub first: T,
    pub second: T,
    pub third: T,
    pub fourth: T,
}
