//! A post whose rounds are given.
ghost use Rattle.std.specs.Prelude.{◌≡◌, ◌+◌, ◌^◌, ◌<◌, ◌≤◌, [], Some, vec_len, vec_capacity};
ghost use Rattle.server_rounds.specs.Round.{after_next, after_turn, after_hand, handed_in, left_to_hand};

use crate::{Next, Post, Record, Sending, Sendings, Turn, TurnEnd};
use ghost_values::{Ghost, Says};
use io_base::NetPut;
use std::mem::swap;

/// A round that a post in memory gives: a turn at a moment in seconds, how that ends, and what it leaves.
#[derive(Drop)]
pub struct MemRound {
    pub now: u32,
    pub turn: Turn,
    pub end: TurnEnd,
    pub gives: Sendings,
    ghost begun: { 0 < now },
    ghost is_moment: { now < 2 ^ 31 },
}

/// How the turn of the round that was given last is to end.
#[derive(Drop)]
struct Given {
    end: TurnEnd,
    gives: Sendings,
}

/// A post that gives its rounds one after the other, and then has ended. It keeps what it is handed.
#[derive(Drop)]
pub struct MemPost {
    rounds: Vec<MemRound>,
    given: Option<Given>,
    handed: Vec<Sending>,
    told: Ghost<Record>,
    ghost all_kept: { handed.items ≡ handed_in told.value.rounds },
    ghost has_room: { left_to_hand told.value.rounds + vec_len handed ≤ vec_capacity handed },
}

struct Nothing;

impl Says<(), Record> for Nothing {
    ghost use Rattle.std.specs.Prelude.{None};

    ghost says = { λ _. record { last = None; rounds = [] } };
}

struct AfterNext;

impl<'a> Says<(&'a Ghost<Record>, &'a Next), Record> for AfterNext {
    ghost says = { λ now. after_next now.1.now now.0.now.value };
}

struct AfterTurn;

impl<'a> Says<(&'a Ghost<Record>, u32, &'a Turn, TurnEnd, &'a Sendings), Record> for AfterTurn {
    ghost says = { λ now. after_turn now.1 now.2.now now.3 now.4.now now.0.now.value };
}

struct AfterHand;

impl<'a> Says<(&'a Ghost<Record>, &'a Sending), Record> for AfterHand {
    ghost says = { λ now. after_hand now.1.now now.0.now.value };
}

impl MemPost {
    ghost use Rattle.std.specs.Prelude.{IfSome, length};
    ghost use Rattle.server_rounds.specs.Round.{IsTimely};
    ghost use Rattle.server_rounds.specs.MemPost.{given_by, given_of, IsGiven, later_than, next_of, rounds_left, told_by};

    /// A post that gives these rounds.
    pub fn new(rounds: Vec<MemRound>) -> MemPost
        ensures rounds { rounds_left result ≡ rounds.items }
        ensures told { (told_by result).rounds ≡ [] }
    {
        let handed = Vec::new(*rounds.allocator());
        MemPost {
            rounds,
            given: None,
            handed,
            told: Ghost::of::<(), Nothing>(&()),
        }
    }

    /// All that it was handed, in its order.
    pub fn handed(self) -> Vec<Sending>
        ensures { result.items ≡ handed_in (told_by self).rounds }
    {
        self.handed
    }

    /// The next round that it has to give.
    fn give(&mut self) -> Next
        ensures timely { IsTimely result }
        ensures next { result ≡ next_of (rounds_left self.old) }
        ensures left { rounds_left self.new ≡ later_than (rounds_left self.old) }
        ensures turn { given_by self.new ≡ given_of (rounds_left self.old) }
        ensures told { told_by self.new ≡ told_by self.old }
        ensures handed { self.new.handed ≡ self.old.handed }
    {
        if self.rounds.is_empty() {
            self.given = None;
            return Next::Ended;
        }
        let MemRound {
            now,
            turn,
            end,
            gives,
        } = self.rounds.remove(0);
        self.given = Some(Given { end, gives });
        Next::Turn { now, turn }
    }

    /// Leaves what the turn of the round gives, and takes memory for it.
    fn make(&mut self, out: &mut Sendings) -> TurnEnd
        requires { out.old ≡ [] }
        ensures given { IfSome (given_by self.old) (IsGiven result out.new) }
        ensures left { rounds_left self.new ≡ rounds_left self.old }
        ensures told { told_by self.new ≡ told_by self.old }
        ensures handed { self.new.handed.items ≡ self.old.handed.items }
        ensures room { length out.new + vec_len self.new.handed ≤ vec_capacity self.new.handed }
    {
        let Some(Given { end, mut gives }) = self.given.take() else {
            return TurnEnd::NoMemory;
        };
        if self.handed.reserve(gives.len()).is_err() {
            return TurnEnd::NoMemory;
        }
        swap(out, &mut gives);
        end
    }
}

impl Post for MemPost {
    ghost use Rattle.std.specs.Prelude.{IfSome, option_map};
    ghost use Rattle.server_rounds.specs.MemPost.{given_by, given_of, IsGiven, later_than, next_of, rounds_left, told_by};
    ghost use Rattle.ubik_types.specs.Moment.{IsMoment};
    ghost use Rattle.server_rounds.specs.Round.{AwaitsTurn, HasMore, IsClocked, IsTimely};

    ghost record_of = { λ post. Some (told_by post) };

    ghost gave = { λ moment. Unit {0} };

    fn next(&mut self) -> Next
        ensures timely { IsTimely result }
        ensures clocked { IsClocked (λ moment. Unit {0}) result }
        ensures told { Some (told_by self.new) ≡ option_map (after_next result) (Some (told_by self.old)) }
        ensures given { result ≡ next_of (rounds_left self.old) }
        ensures left { rounds_left self.new ≡ later_than (rounds_left self.old) }
        ensures turn { given_by self.new ≡ given_of (rounds_left self.old) }
    {
        let answer = self.give();
        self.told = Ghost::of::<(&Ghost<Record>, &Next), AfterNext>(&(&self.told, &answer));
        answer
    }

    /// It takes memory for what is then handed to the post. Without it nothing is left to be handed.
    fn turn(&mut self, now: u32, turn: Turn, out: &mut Sendings) -> TurnEnd
        requires empty { out.old ≡ [] }
        requires moment { IsMoment now }
        requires awaits { IfSome (Some (told_by self.old)) AwaitsTurn }
        ensures told { Some (told_by self.new) ≡ option_map (after_turn now turn result out.new) (Some (told_by self.old)) }
        ensures given { IfSome (given_by self.old) (IsGiven result out.new) }
        ensures left { rounds_left self.new ≡ rounds_left self.old }
    {
        let end = self.make(out);
        self.told = Ghost::of::<(&Ghost<Record>, u32, &Turn, TurnEnd, &Sendings), AfterTurn>(&(
            &self.told, now, &turn, end, &*out,
        ));
        end
    }

    fn hand(&mut self, sending: Sending) -> NetPut
        requires more { IfSome (Some (told_by self.old)) HasMore }
        ensures told { Some (told_by self.new) ≡ option_map (after_hand sending) (Some (told_by self.old)) }
        ensures left { rounds_left self.new ≡ rounds_left self.old }
    {
        let told = Ghost::of::<(&Ghost<Record>, &Sending), AfterHand>(&(&self.told, &sending));
        // There is room for it.
        let _ = self.handed.push(sending);
        self.told = told;
        NetPut::Sent
    }
}
