//! The packets that the servers of a cell send one another.
ghost use Rattle.std.specs.Prelude.{◌≡◌, ◌<◌, ◌≤◌, ◌+◌, ◌-◌, ◌++◌, ◌∷◌, [], true, false, length};
ghost use Rattle.std.specs.Prelude.{set, slice_get, slice_index_or, OnOk, OnErr, Some, None, IfOk, map, ℕ, Bool, List};
ghost use Rattle.std.specs.Option.{option_map};
ghost use Rattle.cell_model.specs.declared.events.NodeEvent.TheVariants as event;
ghost use Rattle.cell_sites.specs.Sent.{packet_under};
ghost use Rattle.cell_sites.specs.Swept.{HasSwept};
ghost use Rattle.cell_sites.specs.SweptTo.{swept_to, AreSwept, AreWithin};
ghost use Rattle.ubik_calls.specs.Length.{HasShortBytes, packet_length};
ghost use Rattle.cell_runs.specs.declared.endings.Ending.TheVariants.{Limit};
ghost use Rattle.ubik_calls.specs.declared.packets.Packet.{Packet};
ghost use Rattle.cell_runs.specs.Script.{bytes_of, dropped_of, first_waiting, is_of_host, passed_by};

use crate::sent::Sent;
use cell_runs::{MAX_PACKET_BYTES, MAX_PACKETS, Which};
use std::alloc::Global;
use std::marker::Model;
use ubik_calls::{Packet, packet_len};
use ubik_node::NodeEvent;
use ubik_types::{Host, NoMemory};

/// Up to which place no packet to or from a host waits.
#[derive(Clone, Copy)]
pub struct Swept {
    host: Host,
    below: usize,
}

/// All packets that were ever sent, numbered from 1, and which of them were handed over or dropped. Contracts see these
/// two lists. A packet of the past is not looked at again: `low` is the place below which no packet waits, and `swept` has for each
/// host the place below which none of its packets waits.
#[derive(Drop)]
pub struct Packets {
    sent: Vec<Sent>,
    handed: Vec<bool>,
    bytes: u64,
    low: usize,
    swept: Vec<Swept>,
}

impl Model for Packets {
    ghost use Rattle.cell_sites.specs.Traffic.{Traffic};

    ghost Value = { Traffic };

    ghost use Rattle.cell_sites.specs.Packets.{IsKept};

    ghost view = { λ p. record { sent = p.sent.items; handed = p.handed.items } };

    ghost invariant = { IsKept };
}

impl Packets {
    ghost use Rattle.cell_sites.specs.Traffic.{no_traffic, sent_more, handed_over, dropped_all};

    /// No packets yet, between these hosts.
    pub fn new(alloc: Global, hosts: &[Host]) -> Result<Packets, NoMemory>
        ensures { IfOk result (λ packets. packets ≡ no_traffic) }
    {
        let mut swept = Vec::new(alloc);
        for host in hosts {
            let host = *host;
            swept.push(Swept { host, below: 0 })?;
        }
        Ok(Packets {
            sent: Vec::new(alloc),
            handed: Vec::new(alloc),
            bytes: 0,
            low: 0,
            swept,
        })
    }

    /// How many packets were sent.
    pub fn count(&self) -> u32
        ensures count { result ≡ length self.now.sent }
        ensures few { result ≤ MAX_PACKETS }
    {
        self.sent.len() as u32
    }

    /// The limit that one more packet passes, if it passes one.
    pub fn limit_at(&self, packet: &Packet) -> Option<Which>
        requires { HasShortBytes packet.now.body }
        ensures { option_map Limit result ≡ passed_by (length self.now.sent + 1) (bytes_of self.now.sent + packet_length packet.now) }
    {
        if self.sent.len() >= MAX_PACKETS as usize {
            return Some(Which::Packets);
        }
        if packet_len(packet) > MAX_PACKET_BYTES - self.bytes {
            return Some(Which::PacketBytes);
        }
        None
    }

    /// One more packet, which waits.
    pub fn push(&mut self, packet: Packet) -> Result<(), NoMemory>
        requires short { HasShortBytes packet.body }
        requires room { passed_by (length self.old.sent + 1) (bytes_of self.old.sent + packet_length packet) ≡ None }
        ensures ok { OnOk result (self.new ≡ sent_more self.old packet) }
        ensures err { OnErr result (self.new ≡ self.old) }
    {
        let bytes = self.bytes + packet_len(&packet);
        self.handed.push(false)?;
        if self.sent.push(Sent::new(packet)).is_err() {
            let _ = self.handed.pop();
            return Err(NoMemory);
        }
        self.bytes = bytes;
        Ok(())
    }

    /// The packet of a number.
    pub fn packet(&self, number: u32) -> &Packet
        requires some { 0 < number }
        requires sent { number ≤ length self.now.sent }
        ensures { slice_get self.now.sent (number - 1) ≡ Some result.now }
    {
        self.sent[number as usize - 1].packet()
    }

    /// The same packet as the event that it is where it arrives.
    pub fn event(&self, number: u32) -> &NodeEvent
        requires some { 0 < number }
        requires sent { number ≤ length self.now.sent }
        ensures { result.now ≡ event.Packet (packet_under self.now.sent number) }
    {
        self.sent[number as usize - 1].event()
    }

    /// The packet of a number waits no longer.
    pub fn hand_over(&mut self, number: u32)
        requires some { 0 < number }
        requires sent { number ≤ length self.old.sent }
        ensures { self.new ≡ handed_over self.old number }
    {
        self.handed[number as usize - 1] = true;
    }

    /// The lowest number of a packet that waits.
    pub fn first_waiting(&mut self) -> Option<u32>
        ensures first { result ≡ first_waiting 1 self.old.handed }
        ensures each { length self.old.handed ≡ length self.old.sent }
        ensures same { self.new ≡ self.old }
    {
        let place = next_waiting(&self.handed, self.low);
        self.low = place;
        if place < self.handed.len() {
            Some(place as u32 + 1)
        } else {
            None
        }
    }

    /// The packets to and from a host wait no longer.
    pub fn drop_all(&mut self, host: Host)
        ensures { self.new ≡ dropped_all self.old host }
    {
        let from = swept_below(&self.swept, host).max(self.low);
        drop_from(&self.sent, &mut self.handed, host, from);
        sweep(&mut self.swept, host, self.sent.len());
    }
}

/// The place of the next packet that waits, from a place on; the end where none does.
fn next_waiting(handed: &[bool], low: usize) -> usize
    requires { low ≤ length handed.now }
    ensures end { result ≤ length handed.now }
    ensures from { low ≤ result }
    ensures none { (k : ℕ) → low ≤ k → k < result → slice_index_or handed.now k false ≡ true }
    ensures waits { result < length handed.now → slice_index_or handed.now result true ≡ false }
{
    for k in low..handed.len() {
        if !handed[k] {
            return k;
        }
    }
    handed.len()
}

/// Up to which place no packet to or from a host waits.
fn swept_below(swept: &[Swept], host: Host) -> usize
    ensures swept { (sent : List Packet) (handed : List Bool) → AreSwept sent handed swept.now → HasSwept sent handed host result }
    ensures within { (n : ℕ) → AreWithin n swept.now → result ≤ n }
{
    for one in swept {
        if one.host.0 == host.0 {
            return one.below;
        }
    }
    0
}

/// Packets to and from a host wait no longer, from a place on.
fn drop_from(sent: &[Sent], handed: &mut [bool], host: Host, from: usize)
    requires each { length handed.old ≡ length sent.now }
    requires within { from ≤ length sent.now }
    requires before { HasSwept sent.now handed.old host from }
    ensures { handed.new ≡ dropped_of host sent.now handed.old }
{
    for k in from..sent.len() {
        let packet = sent[k].packet();
        if packet.from.0 == host.0 || packet.to.0 == host.0 {
            handed[k] = true;
        }
    }
}

/// No packet to or from a host waits below a place.
fn sweep(swept: &mut [Swept], host: Host, end: usize)
    ensures { swept.new ≡ map (swept_to host end) swept.old }
{
    for one in swept.iter_mut() {
        if one.host.0 == host.0 {
            one.below = end;
        }
    }
}
