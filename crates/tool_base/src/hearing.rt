//! What a client hears of a call.
ghost use Rattle.std.specs.Prelude.{◌≡◌, ◌≢◌, IfOk, IsOk};
ghost use Rattle.tool_base.specs.Hearing.{after_silence, heard_answer, heard_frame, heard_of, heard_reply};

use crate::stops::{Refusal, Stop};
use io_base::Answer;
use std::alloc::Global;
use ubik_calls::{Frame, FrameFault, Reply, decode};
use ubik_types::{Applied, Bytes, NoMemory};

/// What one host gave to a call.
#[derive(Drop)]
pub enum Heard {
    /// The call took place; its answer fields.
    Answer(Bytes),
    /// The call is refused, here and elsewhere.
    Refusal(Refusal),
    /// The call did not take place here, and may elsewhere.
    Elsewhere,
    /// Nothing that tells whether the call took place.
    Silence,
}

/// What a reply tells of its call.
fn heard_reply(reply: Reply) -> Heard
    ensures { result ≡ heard_reply reply }
{
    match reply {
        Reply::Ok(answer) => Heard::Answer(answer),
        Reply::Rule(number) => Heard::Refusal(Refusal::Rule(number)),
        Reply::LineFull { .. } => Heard::Refusal(Refusal::LineFull),
        Reply::TooLarge { .. } => Heard::Refusal(Refusal::TooLarge),
        Reply::Malformed => Heard::Refusal(Refusal::Malformed),
        Reply::BadRecord { .. } => Heard::Refusal(Refusal::BadRecord),
        Reply::NoQuorum { applied, .. } => heard_of(applied),
        Reply::NotSync { .. } | Reply::NoMemory => Heard::Elsewhere,
        Reply::DiskFault => Heard::Silence,
    }
}

fn heard_of(applied: Applied) -> Heard
    ensures { result ≡ heard_of applied }
{
    match applied {
        Applied::No => Heard::Elsewhere,
        Applied::Unknown => Heard::Silence,
    }
}

fn heard_frame(number: u32, frame: Frame) -> Heard
    ensures { result ≡ heard_frame number frame }
{
    match frame {
        Frame::Reply { number: of, reply } => {
            if of == number {
                heard_reply(reply)
            } else {
                Heard::Silence
            }
        }
        _ => Heard::Silence,
    }
}

/// What the end of an ask tells of the call of this number.
pub(crate) fn heard_answer(
    alloc: Global,
    number: u32,
    answer: Answer,
    reply: &[u8],
) -> Result<Heard, NoMemory>
    ensures heard { IfOk result (λ heard. heard ≡ heard_answer number answer reply.now) }
    ensures short { IsOk result → answer ≢ Answer.NoMemory }
{
    match answer {
        Answer::NotSent => Ok(Heard::Elsewhere),
        Answer::NoAnswer => Ok(Heard::Silence),
        Answer::NoMemory => Err(NoMemory),
        Answer::Got => match decode(alloc, reply) {
            Ok(frame) => Ok(heard_frame(number, frame)),
            Err(FrameFault::NoMemory) => Err(NoMemory),
            Err(_) => Ok(Heard::Silence),
        },
    }
}

/// What follows from silence: a call that only reads is asked elsewhere, and of one that writes nothing is known.
pub fn after_silence<A>(writes: bool) -> Result<Option<A>, Stop>
    ensures { result ≡ after_silence writes }
{
    if writes {
        Err(Stop::OutcomeUnknown)
    } else {
        Ok(None)
    }
}
