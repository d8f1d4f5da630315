//! The place at which a worker stands.
ghost use Rattle.std.specs.Prelude.{◌≡◌, [], IfSome, option_map};
ghost use Rattle.ubik_types.specs.Moment.{IsMoment};
ghost use Rattle.server_rounds.specs.Clock.{IsOfClock};
ghost use Rattle.server_rounds.specs.Round.{AwaitsTurn, HasMore, IsClocked, IsTimely, after_next, after_turn, after_hand};

use crate::{Sending, Sendings, Turn, TurnEnd};
use io_base::NetPut;

/// What a worker is to do next.
#[derive(Drop)]
pub enum Next {
    /// A turn, at a moment in seconds.
    Turn { now: u32, turn: Turn },
    /// Nothing more.
    Ended,
    /// Memory ran out.
    NoMemory,
}

/// A worker's place: where its turns come from, the server that makes them, and the net to which it hands what they leave. A post
/// can tell its rounds, as the record of what was given, made and handed over in each.
pub trait Post {
    ghost use Rattle.std.specs.Prelude.{Option, ℕ};
    ghost use Rattle.server_rounds.specs.declared.records.Record.{Record};

    /// What the post has on record, where it tells it.
    ghost record_of: { Self → Option Record };

    /// The clock by which it goes gave this moment.
    ghost gave: { ℕ → Type 0 };

    /// What is to be done next. A turn begins a round.
    fn next(&mut self) -> Next
        ensures timely { IsTimely result }
        ensures clocked { IsClocked gave result }
        ensures told { record_of self.new ≡ option_map (after_next result) (record_of self.old) };

    /// Makes a turn, and leaves in `out` what it sends. A round has one turn.
    fn turn(&mut self, now: u32, turn: Turn, out: &mut Sendings) -> TurnEnd
        requires empty { out.old ≡ [] }
        requires moment { IsMoment now }
        requires clocked { IsOfClock gave now }
        requires awaits { IfSome (record_of self.old) AwaitsTurn }
        ensures told { record_of self.new ≡ option_map (after_turn now turn result out.new) (record_of self.old) };

    /// Hands one frame to the net. A frame that could not be sent is a lost one.
    fn hand(&mut self, sending: Sending) -> NetPut
        requires more { IfSome (record_of self.old) HasMore }
        ensures told { record_of self.new ≡ option_map (after_hand sending) (record_of self.old) };
}
