//! What goes out of a step.
ghost use Rattle.std.specs.Prelude.{◌≡◌, ◌∷◌, ◌++◌, [], OnOk, OnErr, IfOk, IfErr};
ghost use Rattle.ubik_calls.specs.WireGrammar.{HasSpelling};
ghost use Rattle.server_station.specs.Frames.{IsCut, askers_after, frames_of, left_by, sent_of};
ghost use Rattle.server_state.specs.Spelled.{IsSpelled};

use crate::askers::Askers;
use server_rounds::{Sending, Sendings};
use std::alloc::Global;
use ubik_calls::{Frame, encode};
use ubik_node::{Output, Outputs};
use ubik_types::NoMemory;

/// Sends what goes out of a step, in its order. For want of memory the front of it is sent.
#[tactic(auto, using(crate::proofs::Sending::frames_more, crate::proofs::Sending::askers_more))]
pub(crate) fn send_all(
    alloc: Global,
    askers: &mut Askers,
    outputs: &mut Outputs,
    out: &mut Sendings,
) -> Result<(), NoMemory>
    requires empty { out.old ≡ [] }
    ensures sent { OnOk result (out.new ≡ frames_of askers.old outputs.old) }
    ensures left { OnOk result (askers.new ≡ askers_after askers.old outputs.old) }
    ensures emptied { OnOk result (outputs.new ≡ []) }
    ensures cut { OnErr result (IsCut askers.old outputs.old out.new askers.new) }
{
    while let Some(output) = outputs.take() {
        send(alloc, askers, output, out)?;
    }
    Ok(())
}

/// Sends what goes out of one output: a packet to its host, a reply to the client that waits for it.
fn send(
    alloc: Global,
    askers: &mut Askers,
    output: Output,
    out: &mut Sendings,
) -> Result<(), NoMemory>
    requires spelled { IsSpelled output }
    ensures sent { OnOk result (out.new ≡ out.old ++ sent_of askers.old output) }
    ensures left { OnOk result (askers.new ≡ left_by askers.old output) }
    ensures same { OnErr result ((out.new ≡ out.old) × (askers.new ≡ askers.old)) }
{
    match output {
        Output::Send(packet) => {
            let to = packet.to;
            let frame = encode(alloc, &Frame::Packet(packet))?;
            out.push(Sending::Packet { to, frame })
        }
        Output::Reply { id, reply } => {
            let Some(asker) = askers.get(id) else {
                askers.remove(id);
                return Ok(());
            };
            let number = asker.number;
            let frame = encode(alloc, &Frame::Reply { number, reply })?;
            let peer = asker.peer;
            out.push(Sending::Answer { peer, frame })?;
            askers.remove(id);
            Ok(())
        }
        Output::Announce { .. } => Ok(()),
    }
}
