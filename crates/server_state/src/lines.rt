//! The line of those that wait for the write in flight, and their turns.
ghost use Rattle.std.specs.Prelude.{◌≡◌, ◌≤◌, ◌<◌, ◌+◌, Bool, None, length, IfSome, IsSome};
ghost use Rattle.cell_model.specs.Asks.{put_into_line};
ghost use Rattle.cell_model.specs.Writes.{is_free, last_counter};
ghost use Rattle.server_state.specs.Writing.{own_of, waiting_of};

use crate::outputs::Outputs;
use crate::state::State;
use cell_model::Output;
use site_writes::{Asked, WaitFault};
use ubik_calls::Reply;
use ubik_types::{Applied, Phase};

impl State {
    ghost use Rattle.server_state.specs.State.{server_of, member_of, Keeps, ShowsBehind};
    ghost use Rattle.server_state.specs.Writing.{IsFirstOf, without_first};

    /// A call waits behind the write in flight, where the line has room.
    pub fn put_in_line(&mut self, id: u32, call: &[u8], out: &mut Outputs)
        requires few { length out.old ≤ 180 }
        requires writing { IsSome (own_of self.old.writes) }
        ensures shows { (short : Bool) × IfSome (server_of self.old).flight
            (λ f. ShowsBehind (put_into_line (server_of self.old) id call.now short f) (server_of self.new) out.old out.new) }
        ensures kept { Keeps self.old self.new }
    {
        let Some(writes) = &mut self.writes else {
            return;
        };
        let reply = match writes.wait(id, call) {
            Ok(()) => return,
            Err(WaitFault::LineFull { holder }) => Reply::LineFull { holder },
            Err(WaitFault::NoMemory) => Reply::NoMemory,
        };
        out.put(Output::Reply { id, reply });
    }

    /// Whether calls are served, and no write is in flight.
    pub fn is_free(&self) -> bool
        ensures { result ≡ is_free (server_of self.now) }
    {
        self.recovery.phase() == Phase::Ready && !self.is_writing()
    }

    /// Takes the first of those that wait.
    pub fn next_asked(&mut self) -> Option<Asked>
        ensures first { IsFirstOf result (waiting_of self.old.writes) }
        ensures after { server_of self.new ≡ without_first (server_of self.old) }
        ensures kept { Keeps self.old self.new }
    {
        match &mut self.writes {
            Some(writes) => writes.next(),
            None => None,
        }
    }

    /// The counter is at its end: a new poll begins, and neither this call nor one that waits is served.
    pub fn last_counter(&mut self, now: u32, id: u32, out: &mut Outputs)
        requires few { length out.old + length (waiting_of self.old.writes) < 190 }
        requires free { own_of self.old.writes ≡ None }
        ensures shows { ShowsBehind (last_counter (member_of self.old) (server_of self.old) now id) (server_of self.new) out.old out.new }
        ensures kept { Keeps self.old self.new }
    {
        let reply = self.no_quorum(now, Phase::Poll, Applied::No);
        out.put(Output::Reply { id, reply });
        while let Some(asked) = self.next_asked() {
            let reply = self.no_quorum(now, Phase::Poll, Applied::No);
            out.put(Output::Reply {
                id: asked.id,
                reply,
            });
        }
        self.begin_poll(now);
    }
}
