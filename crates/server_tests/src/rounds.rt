//! A round of a worker.
use crate::stations::bytes_in;
use server_rounds::{MemPost, MemRound, RoundEnd, Sending, Sendings, Turn, TurnEnd, work_round};
use std::test::Fail;

/// nametoid smith under number 7
pub const ASK: [u32; 8] = [28, 1, 7, 3, 1, 5, 0x736d_6974, 0x6800_0000];

/// no quorum under number 7 at 1076, until 0, in no phase, and not applied
const REPLY: [u32; 8] = [28, 2, 7, 2, 1076, 0, 0, 0];

#[test]
fn one_round(rt: HostRuntime) -> Result<(), Fail> {
    let alloc = rt.alloc();
    let turn = Turn::Frame {
        peer: 5,
        frame: bytes_in(alloc, &ASK)?,
    };
    let mut gives = Sendings::make(alloc)?;
    gives.push(Sending::Answer {
        peer: 5,
        frame: bytes_in(alloc, &REPLY)?,
    })?;
    let mut rounds = Vec::new(alloc);
    rounds.push(MemRound {
        now: 1076,
        turn,
        end: TurnEnd::Done,
        gives,
    })?;
    let mut post = MemPost::new(rounds);
    let mut out = Sendings::make(alloc)?;
    assert_eq!(rt; work_round(&mut post, &mut out), RoundEnd::Done);
    assert_eq!(rt; work_round(&mut post, &mut out), RoundEnd::Ended);
    let reply = bytes_in(alloc, &REPLY)?;
    let handed = post.handed();
    assert_eq!(rt; handed.len(), 1);
    match &handed[0] {
        Sending::Answer { peer, frame } => {
            assert_eq!(rt; *peer, 5);
            assert_eq!(rt; frame.as_slice(), reply.as_slice());
        }
        Sending::Packet { .. } => panic!(rt; "another sending"),
    }
    Ok(())
}
