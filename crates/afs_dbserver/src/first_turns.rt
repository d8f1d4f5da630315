//! When the servers of a cell make their first turns.
use io_base::Gate;
use std::thread;
use std::time::{Clock, Duration};
use ubik_types::POLLTIME;

/// The worker that makes the beacon turns.
const BEACONS: u32 = 0;

/// The worker that makes the recovery turns.
const RECOVERY: u32 = 1;

/// Holds up the first turns of a server by its place in the cell: so servers that start together do not all ask at the same second, vote
/// for themselves, and refuse each other until that vote is too old. The first beacon turn of the server at place r, counted from 0,
/// comes 1 + (2r mod 15) seconds after the start, and the first recovery turn one second later.
#[derive(Drop)]
pub struct FirstTurns<R: Clock + Drop> {
    pub rt: R,
    pub place: u64,
}

impl<R: Clock + Drop> FirstTurns<R> {
    /// After how many seconds a worker makes its first turn.
    fn seconds(&self, worker: u32) -> u64 {
        let pace = u64::from(POLLTIME);
        let beacon = 1 + self.place % pace * 2 % pace;
        match worker {
            BEACONS => beacon,
            RECOVERY => beacon + 1,
            _ => 0,
        }
    }
}

impl<R: Clock + Drop + Sync> Gate for FirstTurns<R> {
    fn pass(&self, worker: u32, turn: u64) {
        let seconds = self.seconds(worker);
        if turn == 0 && seconds > 0 {
            thread::sleep(&self.rt, Duration::from_secs(seconds));
        }
    }
}
