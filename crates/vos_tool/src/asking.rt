//! Calls of the location database, asked of the hosts.
ghost use Rattle.std.specs.Prelude.{IfOk};
ghost use Rattle.tool_base.specs.Running.{Ran};
ghost use Rattle.vl_calls.specs.Calls.{HasSpelling};
ghost use Rattle.vos_tool.specs.Asking.{asks};

use io_base::Link;
use tool_base::{Client, Reads, Stop};
use vl_calls::{VlCall, spell_call};

/// Asks a call, whose answers are read so.
pub fn ask<L: Link, A: Drop, R: Reads<A>>(
    client: &mut Client<'_>,
    link: &mut L,
    call: &VlCall,
    reader: &R,
) -> Result<A, Stop>
    requires { HasSpelling call.now }
    ensures ran { Ran (asks (R.reads reader.now) call.now) client.old client.new (L.exchanges link.old) (L.exchanges link.new) result }
    ensures limits { IfOk result (R.keeps reader.now) }
{
    let bytes = spell_call(client.alloc(), call)?;
    client.ask(link, call.kind().is_write(), bytes, reader)
}
