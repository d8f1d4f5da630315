//! A whole command.
ghost use Rattle.std.specs.Prelude.{◌≡◌, false, Err};
ghost use Rattle.disk_base.specs.Count.{HasCause};
ghost use Rattle.tool_base.specs.Course.{Asker};
ghost use Rattle.tool_base.specs.Running.{ToldSome};
ghost use Rattle.udebug_tool.specs.Kinds.{kind_port};
ghost use Rattle.udebug_tool.specs.Looking.{looks};

use crate::hearing::look_at;
use crate::kinds::ServerKind;
use crate::texts::seen_text;
use disk_base::Sink;
use io_base::Link;
use std::alloc::Global;
use tool_base::{Client, Stop, say};
use ubik_types::Host;

/// Asks each host of itself, in their order, and prints to `out` what its server says: four lines a host, or that no answer came.
/// Ends with `NoServer` exactly where no host answered; what was printed before an end stays.
pub fn run_udebug<L: Link, K: Sink>(
    alloc: Global,
    kind: ServerKind,
    hosts: &[Host],
    link: &mut L,
    out: &mut K,
) -> Result<(), Stop>
    ensures told { let asker : Asker = record { hosts = hosts.now; port = kind_port kind; number = 0 } in
        ToldSome (looks false hosts.now) asker (L.exchanges link.old) (L.exchanges link.new) (K.written out.old) (K.written out.new) result }
    ensures cause { HasCause (K.faults out.old) (K.faults out.new) (result ≡ Err Stop.WriteFault) }
{
    let mut client = Client::new(alloc, hosts, kind.port());
    let mut any = false;
    for host in hosts {
        let seen = look_at(&mut client, link, *host)?;
        let text = seen_text(alloc, *host, &seen)?;
        say(out, text.as_bytes())?;
        any = any || seen.is_some();
    }
    if any { Ok(()) } else { Err(Stop::NoServer) }
}
