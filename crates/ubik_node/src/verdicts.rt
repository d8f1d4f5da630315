//! What becomes of a writing call at its turn, once the database has evaluated it.
ghost use Rattle.std.specs.Prelude.{◌≡◌, ℕ, List, ◌<◌, ◌≤◌, length};
ghost use Rattle.db_image.specs.Blocks.{LeadSome, PutSome};
ghost use Rattle.db_image.specs.Database.{changes_of};
ghost use Rattle.cell_model.specs.Step.{Member};
ghost use Rattle.cell_model.specs.Writes.{turned, written};
ghost use Rattle.server_state.specs.State.{server_of};
ghost use Rattle.server_state.specs.Plain.{IsAnswer};
ghost use Rattle.ubik_node.specs.Evaluation.{IsShortReply};
ghost use Rattle.state_laws.specs.Over.{over};
ghost use Rattle.ubik_node.specs.Verdict.{CanBeMade, Judges, JudgesSome};

use crate::evaluations::Evaluation;
use crate::serving::reply_of;
use db_image::{CallReply, DraftService, too_large};
use server_state::State;
use ubik_calls::Reply;
use ubik_types::{Bytes, Changes, MAX_COUNTER};

/// What a sync site does about a writing call.
#[derive(Drop)]
pub enum Verdict {
    /// It replies, and nothing changes.
    Reply(Reply),
    /// The counter is at its end: a new poll begins, and the call is refused.
    NewPoll,
    /// The changes are committed under the next counter, and then the call is answered.
    Commit { answer: Bytes, changes: Changes },
}

/// The verdict on what the database made of a call over the image.
pub fn verdict_of<V: DraftService>(state: &State, made: Evaluation) -> Verdict
    requires len { made.len ≡ length state.now.image }
    requires short { IsShortReply made.reply }
    requires puts { PutSome made.changes }
    requires lead { (len : ℕ) × LeadSome V.standing.database.head V.standing.database.block (length state.now.image) len made.changes }
    requires block { 0 < V.standing.database.block }
    ensures judged { (old image : List ℕ) → length old ≡ length state.now.image → length old ≤ length image
        → made.changes ≡ changes_of V.standing.database old image → (m : Member) (now id : ℕ) (call : List ℕ)
        → Judges m (over (server_of state.now) old) now id call image result
        (turned V.standing.database m (over (server_of state.now) old) now id call image made.reply) }
    ensures some { (m : Member) (now id : ℕ) (call : List ℕ)
        → JudgesSome V.standing.database m (server_of state.now) now id call made.reply result }
    ensures can { CanBeMade (server_of state.now) result }
{
    let Evaluation {
        reply,
        changes,
        len,
    } = made;
    match reply {
        CallReply::Done(answer) => verdict_of_write::<V>(state, len, answer, changes),
        refusal => Verdict::Reply(reply_of(refusal)),
    }
}

/// The verdict on a call with its answer and the changes that lead to the image after it.
fn verdict_of_write<V: DraftService>(
    state: &State,
    len: u32,
    answer: Bytes,
    changes: Changes,
) -> Verdict
    requires len { len ≡ length state.now.image }
    requires answer { IsAnswer answer }
    requires puts { PutSome changes }
    requires lead { (len : ℕ) × LeadSome V.standing.database.head V.standing.database.block (length state.now.image) len changes }
    requires block { 0 < V.standing.database.block }
    ensures judged { (old image : List ℕ) → length old ≡ length state.now.image → length old ≤ length image
        → changes ≡ changes_of V.standing.database old image → (m : Member) (now id : ℕ) (call : List ℕ)
        → Judges m (over (server_of state.now) old) now id call image result
        (written V.standing.database m (over (server_of state.now) old) now id call answer image) }
    ensures some { (m : Member) (now id : ℕ) (call : List ℕ)
        → JudgesSome V.standing.database m (server_of state.now) now id call (CallReply.Done answer) result }
    ensures can { CanBeMade (server_of state.now) result }
{
    if let Some(bytes) = too_large(len as usize, &changes) {
        Verdict::Reply(Reply::TooLarge { bytes })
    } else if changes.as_slice().is_empty() {
        Verdict::Reply(Reply::Ok(answer))
    } else if state.version.counter == MAX_COUNTER {
        Verdict::NewPoll
    } else {
        Verdict::Commit { answer, changes }
    }
}
