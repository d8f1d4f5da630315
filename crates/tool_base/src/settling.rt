//! A call, asked of one host after the other.
ghost use Rattle.std.specs.Prelude.{◌≡◌, ◌≢◌, ◌≤◌, ℕ, List, Option, IfOk, IfSome, length};
ghost use Rattle.tool_base.specs.Asking.{asks_call, asks_hosts};
ghost use Rattle.tool_base.specs.Hearing.{verdict};
ghost use Rattle.tool_base.specs.Running.{Ran};

use crate::asking::{Client, MAX_CALL};
use crate::hearing::{Heard, after_silence};
use crate::stops::Stop;
use io_base::Link;
use std::alloc::Global;
use ubik_types::{Bytes, Host, NoMemory};

/// How the answers to a call are read.
pub trait Reads<A> {
    /// The answer that bytes spell.
    ghost reads: { Self → List ℕ → Option A };

    /// The limits that an answer has.
    ghost keeps: { Self → A → Type 0 };

    /// The answer that these bytes spell; none where they spell none, or one past its limits.
    fn read(&self, alloc: Global, bytes: &[u8]) -> Result<Option<A>, NoMemory>
        ensures exact { IfOk result (λ found. found ≡ reads self.now bytes.now) }
        ensures limits { IfOk result (λ found. IfSome found (keeps self.now)) };
}

impl<'a> Client<'a> {
    /// Asks the call that these bytes spell: of one host after the other, until one settles it. `writes`: the call may change the
    /// database, so that nobody asks it anew where no answer came. For want of memory nothing more is asked.
    pub fn ask<L: Link, A: Drop, R: Reads<A>>(
        &mut self,
        link: &mut L,
        writes: bool,
        call: Bytes,
        reader: &R,
    ) -> Result<A, Stop>
        requires { length call ≤ MAX_CALL }
        ensures ran { Ran (asks_call writes (R.reads reader.now) call) self.old self.new (L.exchanges link.old) (L.exchanges link.new) result }
        ensures limits { IfOk result (R.keeps reader.now) }
    {
        self.count();
        let frame = self.frame(call)?;
        let hosts = self.hosts();
        ask_hosts(self, link, writes, hosts, frame.as_slice(), reader)
    }
}

/// Sends a frame to one host after the other, until one settles the call.
fn ask_hosts<L: Link, A: Drop, R: Reads<A>>(
    client: &Client<'_>,
    link: &mut L,
    writes: bool,
    hosts: &[Host],
    frame: &[u8],
    reader: &R,
) -> Result<A, Stop>
    ensures ran { Ran (asks_hosts writes (R.reads reader.now) frame.now hosts.now) client.now client.now (L.exchanges link.old) (L.exchanges link.new) result }
    ensures limits { IfOk result (R.keeps reader.now) }
{
    let alloc = client.alloc();
    let mut reply = Vec::new(alloc);
    for host in hosts {
        let heard = client.hear(link, *host, frame, &mut reply)?;
        match settled(alloc, writes, heard, reader)? {
            Some(answer) => return Ok(answer),
            None => {}
        }
    }
    Err(Stop::NoServer)
}

/// What follows from what a host gave: the answer, an end, or that the next host is asked.
fn settled<A: Drop, R: Reads<A>>(
    alloc: Global,
    writes: bool,
    heard: Heard,
    reader: &R,
) -> Result<Option<A>, Stop>
    ensures verdict { result ≢ Err Stop.NoMemory → result ≡ verdict writes (R.reads reader.now) heard }
    ensures limits { IfOk result (λ found. IfSome found (R.keeps reader.now)) }
{
    match heard {
        Heard::Answer(bytes) => match reader.read(alloc, bytes.as_slice())? {
            Some(answer) => Ok(Some(answer)),
            None => after_silence(writes),
        },
        Heard::Refusal(refusal) => Err(Stop::Refused(refusal)),
        Heard::Elsewhere => Ok(None),
        Heard::Silence => after_silence(writes),
    }
}
