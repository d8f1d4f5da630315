//! What lies between the servers of a cell and their clients, and what is seen of it.
ghost use Rattle.std.specs.Prelude.{◌<◌};

use crate::faults::Fault;
use crate::servers::HOSTS;
use cell_model::Output;
use cell_runs::tell_output;
use db_image::DraftWords;
use server_rounds::{Sending, Sendings};
use std::alloc::Global;
use ubik_calls::{Frame, decode, encode};
use ubik_types::{Bytes, Host, bytes_of};

/// The most bytes of a call.
const MOST_CALL: usize = 1_000_000;

/// A packet that was sent, from the server at one place to that at another, and whether it neither came there nor was lost yet.
#[derive(Drop)]
struct Sent {
    from: u32,
    to: u32,
    frame: Bytes,
    waits: bool,
}

/// A frame that comes to the server at a place.
#[derive(Drop)]
pub struct Landed {
    pub to: u32,
    pub frame: Bytes,
}

/// The packets between three servers, numbered from 1 in the order in which they were sent; the calls that were asked, numbered so too; and
/// what was seen of both.
#[derive(Drop)]
pub struct Wire {
    alloc: Global,
    packets: Vec<Sent>,
    calls: Vec<Bytes>,
    text: String,
}

/// The place of the server that has this host.
fn place_of(host: Host) -> Result<u32, Fault> {
    match HOSTS.iter().position(|other| other.0 == host.0) {
        Some(0) => Ok(0),
        Some(1) => Ok(1),
        Some(2) => Ok(2),
        _ => Err(Fault::Sending),
    }
}

/// A number of packets or calls, which are few.
fn number_of(len: usize) -> Result<u32, Fault> {
    u32::try_from(len).map_err(|_| Fault::Line)
}

impl Wire {
    /// Nothing was sent or asked yet.
    pub fn new(alloc: Global) -> Wire {
        Wire {
            alloc,
            packets: Vec::new(alloc),
            calls: Vec::new(alloc),
            text: String::new(alloc),
        }
    }

    /// Where memory for what goes out of a turn comes from.
    pub fn alloc(&self) -> Global {
        self.alloc
    }

    /// What was seen.
    pub fn into_text(self) -> String {
        let Self {
            alloc: _,
            packets: _,
            calls: _,
            text,
        } = self;
        text
    }

    /// The packet of a number comes to its server, and waits no longer. It may come again.
    pub fn land(&mut self, number: u64) -> Result<Landed, Fault> {
        let alloc = self.alloc;
        let packet = self.packet(number)?;
        packet.waits = false;
        let frame = bytes_of(alloc, packet.frame.as_slice())?;
        Ok(Landed {
            to: packet.to,
            frame,
        })
    }

    /// The packet of a number waits no longer.
    pub fn lose(&mut self, number: u64) -> Result<(), Fault> {
        let packet = self.packet(number)?;
        packet.waits = false;
        Ok(())
    }

    /// The packets to and from the server at a place wait no longer.
    pub fn lose_all(&mut self, place: u32) {
        for packet in self.packets.iter_mut() {
            if packet.from == place || packet.to == place {
                packet.waits = false;
            }
        }
    }

    /// The lowest number of a packet that waits.
    pub fn first_waiting(&self) -> Option<u64> {
        let at = self.packets.iter().position(|packet| packet.waits)?;
        Some((at as u64).saturating_add(1))
    }

    fn packet(&mut self, number: u64) -> Result<&mut Sent, Fault> {
        let at = usize::try_from(number).map_err(|_| Fault::Line)?;
        let at = at.checked_sub(1).ok_or(Fault::Line)?;
        self.packets.get_mut(at).ok_or(Fault::Line)
    }

    /// The frame of a call, under the next number of calls.
    pub fn asked(&mut self, call: Bytes) -> Result<(u32, Bytes), Fault> {
        if call.as_slice().len() > MOST_CALL {
            return Err(Fault::Line);
        }
        let copy = bytes_of(self.alloc, call.as_slice())?;
        self.calls.push(copy)?;
        let number = number_of(self.calls.len())?;
        let frame = encode(self.alloc, &Frame::Ask { number, call })?;
        Ok((number, frame))
    }

    /// Takes what goes out of a turn of the server at a place, one frame after the other.
    pub fn take_all<V: DraftWords>(&mut self, place: u32, mut out: Sendings) -> Result<(), Fault>
        requires { place < 3 }
    {
        while let Some(sending) = out.take() {
            match sending {
                Sending::Packet { to, frame } => self.take_packet::<V>(place, to, frame)?,
                Sending::Answer { peer, frame } => self.take_answer::<V>(place, peer, &frame)?,
            }
        }
        Ok(())
    }

    /// Sends a packet, and tells it.
    fn take_packet<V: DraftWords>(
        &mut self,
        place: u32,
        to: Host,
        frame: Bytes,
    ) -> Result<(), Fault>
        requires { place < 3 }
    {
        let Ok(Frame::Packet(packet)) = decode(self.alloc, frame.as_slice()) else {
            return Err(Fault::Sending);
        };
        if packet.to != to || place_of(packet.from)? != place {
            return Err(Fault::Sending);
        }
        self.packets.push(Sent {
            from: place,
            to: place_of(to)?,
            frame,
            waits: true,
        })?;
        let number = number_of(self.packets.len())?;
        let output = Output::Send(packet);
        tell_output::<V>(&mut self.text, &HOSTS, place, number, &output, &[])?;
        Ok(())
    }

    /// Tells a reply, which goes to the client that asked under this number.
    fn take_answer<V: DraftWords>(
        &mut self,
        place: u32,
        peer: u64,
        frame: &Bytes,
    ) -> Result<(), Fault>
        requires { place < 3 }
    {
        let Ok(Frame::Reply { number, reply }) = decode(self.alloc, frame.as_slice()) else {
            return Err(Fault::Sending);
        };
        if peer != u64::from(number) {
            return Err(Fault::Sending);
        }
        let output = Output::Reply { id: number, reply };
        let at = (number as usize).checked_sub(1).ok_or(Fault::Sending)?;
        let Wire { calls, text, .. } = self;
        let call = calls.get(at).ok_or(Fault::Sending)?;
        tell_output::<V>(text, &HOSTS, place, 0, &output, call.as_slice())?;
        Ok(())
    }
}
