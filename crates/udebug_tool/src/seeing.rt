//! What came of a question about a server.
ghost use Rattle.std.specs.Prelude.{◌≡◌, ◌≢◌, IfOk, IsOk};
ghost use Rattle.udebug_tool.specs.Seen.{seen_answer, seen_frame};

use io_base::Answer;
use std::alloc::Global;
use ubik_calls::{DebugIs, Frame, FrameFault, decode};
use ubik_types::NoMemory;

/// What a server says of itself; none where the answer is not one, or not to the question of this number.
pub(crate) fn seen_answer(
    alloc: Global,
    number: u32,
    answer: Answer,
    reply: &[u8],
) -> Result<Option<DebugIs>, NoMemory>
    ensures seen { IfOk result (λ seen. seen ≡ seen_answer number answer reply.now) }
    ensures short { IsOk result → answer ≢ Answer.NoMemory }
{
    match answer {
        Answer::NotSent | Answer::NoAnswer => Ok(None),
        Answer::NoMemory => Err(NoMemory),
        Answer::Got => match decode(alloc, reply) {
            Ok(frame) => Ok(seen_frame(number, frame)),
            Err(FrameFault::NoMemory) => Err(NoMemory),
            Err(_) => Ok(None),
        },
    }
}

/// What a frame says of its server, where it answers the question of this number.
fn seen_frame(number: u32, frame: Frame) -> Option<DebugIs>
    ensures { result ≡ seen_frame number frame }
{
    match frame {
        Frame::DebugIs { number: of, is } => { if of == number { Some(is) } else { None } }
        _ => None,
    }
}
