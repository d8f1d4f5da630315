//! What is seen of a step, told output by output.
ghost use Rattle.std.specs.Prelude.{◌≡◌, ◌≢◌, ◌<◌, ◌+◌, ◌++◌, ℕ, List, Some, None, All, [], MatchBool, OnOk, map, length, filter_map};
ghost use Rattle.std.specs.String.{string_bytes};
ghost use Rattle.cell_model.specs.Step.{Shown, outputs_of};
ghost use Rattle.cell_model.specs.World.{packet_in};
ghost use Rattle.cell_runs.specs.declared.endings.Which.{Which};
ghost use Rattle.cell_script.specs.declared.lines.Why.{Why};
ghost use Rattle.cell_runs.specs.declared.endings.Ending.TheVariants as ending;
ghost use Rattle.cell_runs.specs.ScriptDatabase.{script_database};
ghost use Rattle.cell_sites.specs.Calls.{AnswersOf, call_for};
ghost use Rattle.cell_sites.specs.Telling.{IsNotShort, MayBeTold, passed_after, passed_in, told_of, with_shown};
ghost use Rattle.cell_sites.specs.Traffic.{sent_all, sent_maybe};

use crate::calls::Calls;
use crate::faults::LineFault;
use crate::packets::Packets;
use cell_model::Output;
use cell_runs::tell_output;
use db_image::DraftWords;
use ubik_calls::Reply;
use ubik_node::Outputs;
use ubik_types::{Host, NoMemory};

/// Whether some reply among these is for want of memory.
pub fn lacks_memory(out: &Outputs) -> bool
    ensures { MatchBool result (¬ All IsNotShort out.now) (All IsNotShort out.now) }
{
    for place in 0..out.len() {
        if let Some(output) = out.get(place) {
            if is_short(output) {
                return true;
            }
        }
    }
    false
}

/// Whether an output is a reply for want of memory.
fn is_short(output: &Output) -> bool
    ensures { MatchBool result (¬ IsNotShort output.now) (IsNotShort output.now) }
{
    matches!(
        output,
        Output::Reply {
            reply: Reply::NoMemory,
            ..
        }
    )
}

/// Tells what a server puts out, where these are the calls that were asked, each under its id from 1; packets are sent. Where a packet
/// passes a limit, what stands before it was told.
pub fn tell_outputs<V: DraftWords>(
    text: &mut String,
    hosts: &[Host],
    server: u32,
    calls: &Calls,
    out: &mut Outputs,
    packets: &mut Packets,
) -> Result<(), LineFault>
    requires server { server < 20 }
    requires short { All MayBeTold out.old }
    ensures told { OnOk result ((shown : List Shown) → outputs_of shown ≡ out.old → All (AnswersOf calls.now) shown →
        told_of (script_database V.standing.database V.words) hosts.now server (record { text = string_bytes text.old; sent = packets.old.sent }) shown
        ≡ record { after = record { text = string_bytes text.new; sent = packets.new.sent }; ending = None }) }
    ensures limit { (which : Which) → result ≡ Err (LineFault.Limit which) →
        (shown : List Shown) → outputs_of shown ≡ out.old → All (AnswersOf calls.now) shown →
        told_of (script_database V.standing.database V.words) hosts.now server (record { text = string_bytes text.old; sent = packets.old.sent }) shown
        ≡ record { after = record { text = string_bytes text.new; sent = packets.new.sent }; ending = Some (ending.Limit which) } }
    ensures refused { (why : Why) → result ≢ Err (LineFault.Refused why) }
    ensures sends { OnOk result (packets.new ≡ sent_all packets.old (filter_map packet_in out.old)) }
    ensures emptied { OnOk result (out.new ≡ []) }
{
    while let Some(output) = out.take() {
        tell_one::<V>(text, hosts, server, calls, output, packets)?;
    }
    Ok(())
}

/// Tells one output, and sends the packet that it may be.
fn tell_one<V: DraftWords>(
    text: &mut String,
    hosts: &[Host],
    server: u32,
    calls: &Calls,
    output: Output,
    packets: &mut Packets,
) -> Result<(), LineFault>
    requires server { server < 20 }
    requires short { MayBeTold output }
    ensures told { OnOk result ((one : Shown) → one.output ≡ output → AnswersOf calls.now one →
        (passed_in (record { text = string_bytes text.old; sent = packets.old.sent }) (packet_in output) ≡ None)
        × (record { text = string_bytes text.new; sent = packets.new.sent }
        ≡ with_shown (script_database V.standing.database V.words) hosts.now server (record { text = string_bytes text.old; sent = packets.old.sent }) one)) }
    ensures limit { (which : Which) → result ≡ Err (LineFault.Limit which) →
        (passed_in (record { text = string_bytes text.old; sent = packets.old.sent }) (packet_in output) ≡ Some (ending.Limit which))
        × (string_bytes text.new ≡ string_bytes text.old) × (packets.new ≡ packets.old) }
    ensures refused { (why : Why) → result ≢ Err (LineFault.Refused why) }
    ensures sends { OnOk result (packets.new ≡ sent_maybe packets.old (packet_in output)) }
{
    may_be_told(&output, packets)?;
    let number = packets.count() + 1;
    let call = call_for(calls, &output);
    tell_output::<V>(text, hosts, server, number, &output, call)?;
    send(output, packets)?;
    Ok(())
}

/// The call that an output answers; no bytes where it is no reply.
fn call_for<'a>(calls: &'a Calls, output: &Output) -> &'a [u8]
    ensures { result.now ≡ call_for calls.now output.now }
{
    let Output::Reply { id, .. } = output else {
        return &[];
    };
    calls.call(*id)
}

/// Whether an output may be told: its packet passes no limit.
fn may_be_told(output: &Output, packets: &Packets) -> Result<(), LineFault>
    requires { MayBeTold output.now }
    ensures passes { OnOk result (passed_after packets.now.sent (packet_in output.now) ≡ None) }
    ensures limit { (which : Which) → result ≡ Err (LineFault.Limit which) → passed_after packets.now.sent (packet_in output.now) ≡ Some (ending.Limit which) }
    ensures refused { (why : Why) → result ≢ Err (LineFault.Refused why) }
    ensures memory { result ≢ Err LineFault.NoMemory }
{
    let Output::Send(packet) = output else {
        return Ok(());
    };
    match packets.limit_at(packet) {
        Some(which) => Err(LineFault::Limit(which)),
        None => Ok(()),
    }
}

/// Sends the packet that an output may be.
fn send(output: Output, packets: &mut Packets) -> Result<(), NoMemory>
    requires short { MayBeTold output }
    requires passes { passed_after packets.old.sent (packet_in output) ≡ None }
    ensures sends { OnOk result (packets.new ≡ sent_maybe packets.old (packet_in output)) }
{
    match output {
        Output::Send(packet) => packets.push(packet),
        _ => Ok(()),
    }
}
