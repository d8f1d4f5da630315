//! Clocks that several threads read: the real one, and one whose moments are given.
ghost use Rattle.std.specs.Prelude.{◌≡◌, ◌≢◌, ◌+◌, ◌-◌, ◌<◌, ℕ, [], length, slice_index, min, max};
ghost use Rattle.std.specs.List.{All};
ghost use Rattle.ubik_types.specs.Moment.{IsMoment};
ghost use Rattle.io_base.specs.Clock.{NeverFalls};
ghost use Rattle.ubik_types.specs.declared.limits.TheConstants.{MAX_MOMENT};

use std::sync::{Mutex, Wait};
use std::time;
use std::time::{SystemTime, UNIX_EPOCH};
use ubik_types::MAX_MOMENT;

/// What tells the moment.
pub trait Clock: Sync {
    /// That it gave this moment. Code that is generic in the clock learns it from `now` alone, so a moment of which it is
    /// known was not made up.
    ghost gave: { Self → ℕ → Type 0 };

    /// A whole second, from 1 to 2^31 - 1. It is never refused.
    fn now(&self) -> u32
        ensures moment { IsMoment result }
        ensures gave { gave self.now result };
}

/// The clock of the machine.
#[derive(Drop)]
pub struct WallClock<R: time::Clock + Drop> {
    rt: R,
}

impl<R: time::Clock + Drop> WallClock<R> {
    pub fn new(rt: R) -> WallClock<R> {
        WallClock { rt }
    }
}

impl<R: time::Clock + Drop + Sync> Clock for WallClock<R> {
    ghost gave = { λ clock moment. Unit {0} };

    /// The Unix second, but at least 1 and at most 2^31 - 1; 1 where the machine does not tell it.
    fn now(&self) -> u32 {
        let since = match SystemTime::now(&self.rt) {
            Ok(now) => now
                .duration_since(UNIX_EPOCH)
                .map_or(0, |since| since.as_secs()),
            Err(_) => 0,
        };
        moment_of(since)
    }
}

/// The moment that is nearest to a second.
fn moment_of(second: u64) -> u32
    ensures moment { IsMoment result }
    ensures nearest { result ≡ max 1 (min second MAX_MOMENT) }
{
    if second == 0 {
        1
    } else if second > MAX_MOMENT as u64 {
        MAX_MOMENT
    } else {
        second as u32
    }
}

/// Moments that never fall, and which is the next.
#[derive(Drop)]
struct Moments {
    moments: Vec<u32>,
    next: usize,
    ghost within: { next < length moments.items },
    ghost are_moments: { All IsMoment moments.items },
    ghost never_fall: { NeverFalls moments.items },
}

impl Moments {
    /// The next moment, or the last one again.
    fn take(&mut self) -> u32
        ensures moment { IsMoment result }
        ensures taken { result ≡ slice_index self.old.moments.items self.old.next }
        ensures next { self.new.next ≡ min (self.old.next + 1) (length self.old.moments.items - 1) }
        ensures same { self.new.moments ≡ self.old.moments }
    {
        let moment = self.moments[self.next];
        if self.next + 1 < self.moments.len() {
            self.next += 1;
        }
        moment
    }
}

/// A clock that gives the moments of a list in their order, and then the last one again and again.
#[derive(Drop)]
pub struct ListClock<R: Wait + Drop> {
    rt: R,
    moments: Mutex<Moments>,
}

impl<R: Wait + Drop> ListClock<R> {
    /// A clock that has given no moment yet.
    pub fn new(rt: R, moments: Vec<u32>) -> ListClock<R>
        requires some { moments.items ≢ [] }
        requires moments { All IsMoment moments.items }
        requires never_fall { NeverFalls moments.items }
    {
        let moments = Moments { moments, next: 0 };
        ListClock {
            rt,
            moments: Mutex::new(moments),
        }
    }
}

impl<R: Wait + Drop + Sync> Clock for ListClock<R> {
    ghost gave = { λ clock moment. Unit {0} };

    fn now(&self) -> u32 {
        self.moments.lock(&self.rt).take()
    }
}
