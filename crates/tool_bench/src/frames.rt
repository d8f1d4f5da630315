//! The frames that come back, as answers of a link in memory.
ghost use Rattle.std.specs.Prelude.{◌≡◌, ◌≤◌, ◌++◌, IfOk, IfSome, length};
ghost use Rattle.tool_bench.specs.Frames.{replies_of};

use io_base::{Answer, MemAnswer};
use std::alloc::Global;
use ubik_types::{Host, NoMemory, bytes_of};

/// The host of each answer: 10.0.0.1.
pub const HOST: Host = Host(0x0a00_0001);

/// One page with one volume.
pub const ONE_VOLUME: &[u8] = b"\x00\x00\x00\x48\
    \x00\x00\x00\x02\x00\x00\x00\x01\x00\x00\x00\x00\x00\x00\x00\x01\
    \x00\x00\x00\x08volume.1\
    \x00\x00\x10\x00\x00\x00\x00\x01\x00\x00\x00\x00\x00\x00\x00\x00\x00\x00\x00\x00\
    \x00\x00\x00\x01\x0a\x00\x00\x01\x00\x00\x00\x00\x00\x00\x00\x04\
    \x00\x00\x00\x00\x00\x00\x00\x00";

/// One page with one user.
pub const ONE_USER: &[u8] = b"\x00\x00\x00\x34\
    \x00\x00\x00\x02\x00\x00\x00\x01\x00\x00\x00\x00\x00\x00\x00\x01\
    \x00\x00\x00\x00\x00\x00\x00\x01\xff\xff\xff\x34\xff\xff\xff\x34\
    \x00\x00\x00\x14\x00\x00\x00\x00\
    \x00\x00\x00\x05user1\x00\x00\x00";

/// The first frame of some bytes, with the length in front of it, and what stands behind it; none where it is not whole.
fn first_frame(bytes: &[u8]) -> Option<(&[u8], &[u8])>
    ensures parts { IfSome result (λ parts. parts.0.now ++ parts.1.now ≡ bytes.now) }
    ensures len { IfSome result (λ parts. 4 ≤ length parts.0.now) }
{
    let (head, _) = bytes.split_first_chunk::<4>()?;
    let len = u32::from_be_bytes(*head) as usize;
    bytes.split_at_checked(len.checked_add(4)?)
}

/// The frames of some bytes, one behind the other, as answers of the host; none where the last is not whole.
pub fn answers_in(alloc: Global, bytes: &[u8]) -> Result<Option<Vec<MemAnswer>>, NoMemory>
    ensures { IfOk result (λ found. IfSome found (λ answers. replies_of answers.items ≡ bytes.now)) }
{
    let mut answers = Vec::new(alloc);
    let mut rest = bytes;
    while !rest.is_empty() {
        let Some((frame, behind)) = first_frame(rest) else {
            return Ok(None);
        };
        answers.push(MemAnswer {
            host: HOST,
            answer: Answer::Got,
            reply: bytes_of(alloc, frame)?,
        })?;
        rest = behind;
    }
    Ok(Some(answers))
}
