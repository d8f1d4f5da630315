//! What lies under the lock that all workers share.
ghost use Rattle.std.specs.Prelude.{◌≡◌, ◌≢◌, Bool, Some, None, true, []};
ghost use Rattle.ubik_types.specs.Moment.{IsMoment};
ghost use Rattle.server_rounds.specs.Clock.{IsOfClock};
ghost use Rattle.server_rounds.specs.declared.turns.TurnEnd.{TurnEnd};
ghost use Rattle.server_crew.specs.Causes.{cause_of, is_noted};

use crate::Bench;
use server_rounds::{Sendings, Turn, TurnEnd};
use std::sync::{Mutex, Wait};

/// Why the workers ended before the net did.
#[derive(Clone, Copy, Debug, PartialEq, Eq)]
pub(crate) enum Cause {
    NoMemory,
    NoThread,
    JournalFull { entries: u64, bytes: u64 },
    Halted,
}

impl Cause {
    /// Why a worker ends after a turn that ended so.
    pub(crate) fn of(end: TurnEnd) -> Option<Cause>
        ensures { result ≡ cause_of end }
    {
        match end {
            TurnEnd::Done => None,
            TurnEnd::Halted => Some(Cause::Halted),
            TurnEnd::JournalFull { entries, bytes } => Some(Cause::JournalFull { entries, bytes }),
            TurnEnd::Cut | TurnEnd::NoMemory => Some(Cause::NoMemory),
        }
    }
}

/// The bench, and the first cause for which a worker is to end: it is still seen at the bench.
pub(crate) struct Desk<B: Bench> {
    pub(crate) bench: B,
    pub(crate) first: Option<Cause>,
    ghost noted: { is_noted (B.caused bench) first ≡ true },
}

impl<B: Bench> Desk<B> {
    /// Makes a turn of the bench, and notes why a worker is to end after it, where no cause was noted before.
    pub(crate) fn turn(
        &mut self,
        seat: &mut B::Seat,
        now: u32,
        turn: Turn,
        out: &mut Sendings,
    ) -> TurnEnd
        requires moment { IsMoment now }
        requires clocked { IsOfClock B.gave now }
        requires empty { out.old ≡ [] }
    {
        let Desk { bench, first } = self;
        let end = bench.turn(seat, now, turn, out);
        if first.is_none() {
            *first = Cause::of(end);
        }
        end
    }

    /// Takes a worker's seat back.
    fn take_seat(&mut self, seat: B::Seat) {
        let Desk { bench, .. } = self;
        bench.take_back(seat);
    }

    /// Notes a cause that lies outside of the bench, where none was noted before; whether it did.
    pub(crate) fn note(&mut self, cause: Cause) -> bool
        requires { (caused : TurnEnd → Bool) → is_noted caused (Some cause) ≡ true }
    {
        if self.first.is_some() {
            return false;
        }
        self.first = Some(cause);
        true
    }
}

/// Takes a worker's seat back, and notes that memory ran out, where it ends for that.
pub(crate) fn take_back<B: Bench, R: Wait>(
    rt: &R,
    desk: &Mutex<Desk<B>>,
    seat: B::Seat,
    short: bool,
) {
    let mut desk = desk.lock(rt);
    desk.take_seat(seat);
    if short {
        let _ = desk.note(Cause::NoMemory);
    }
}
