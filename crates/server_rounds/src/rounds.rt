//! One round of a worker.
ghost use Rattle.std.specs.Prelude.{◌≡◌, [], None, IfSome, MatchOption, option_map};
ghost use Rattle.server_rounds.specs.Round.{HasLeft, IsAfter, after_hands};

use crate::{Next, Post, Sendings, TurnEnd};

/// How a round ended.
#[derive(Clone, Copy, Debug, PartialEq, Eq)]
pub enum RoundEnd {
    /// The turn was made, and what it left was handed over.
    Done,
    /// There was nothing more to do.
    Ended,
    /// Memory ran out before there was a turn.
    NoMemory,
    /// The turn ended otherwise than with `Done`; what it left was handed over.
    Stopped { end: TurnEnd },
}

/// Takes up what the post gives, has that turn made at that moment, and hands over exactly what it left, in its order. Where the post
/// gives no turn, no round is added.
pub fn work_round<P: Post>(post: &mut P, out: &mut Sendings) -> RoundEnd
    requires { out.old ≡ [] }
    ensures rounds { MatchOption (P.record_of post.old) (P.record_of post.new ≡ None)
        (λ before. IfSome (P.record_of post.new) (IsAfter result before)) }
    ensures empty { out.new ≡ [] }
{
    let (now, turn) = match post.next() {
        Next::Turn { now, turn } => (now, turn),
        Next::Ended => return RoundEnd::Ended,
        Next::NoMemory => return RoundEnd::NoMemory,
    };
    let end = post.turn(now, turn, out);
    hand_over(post, out);
    match end {
        TurnEnd::Done => RoundEnd::Done,
        end => RoundEnd::Stopped { end },
    }
}

/// Hands over all that is in the list, one after the other.
fn hand_over<P: Post>(post: &mut P, out: &mut Sendings)
    requires { IfSome (P.record_of post.old) (HasLeft out.old) }
    ensures handed { P.record_of post.new ≡ option_map (after_hands out.old) (P.record_of post.old) }
    ensures empty { out.new ≡ [] }
{
    while let Some(sending) = out.take() {
        let _ = post.hand(sending);
    }
}
