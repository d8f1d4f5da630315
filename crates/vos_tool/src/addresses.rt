//! `listaddrs`, `changeaddr`.
ghost use Rattle.std.specs.Prelude.{◌≡◌, IfOk};
ghost use Rattle.std.specs.List.{flat_map};
ghost use Rattle.tool_base.specs.Running.{Ran};
ghost use Rattle.vos_tool.specs.Addresses.{address_line, changeaddr_text, gone_text, listaddrs_text, moved_text};

use crate::answers::{Addresses, Done};
use crate::asking::ask;
use crate::texts::address_text;
use io_base::Link;
use std::alloc::Global;
use tool_base::{Client, Stop, joined};
use ubik_types::{Bytes, NoMemory};
use vl_calls::VlCall;

/// `listaddrs`: the addresses of the servers, one a line.
pub fn list_addresses<L: Link>(client: &mut Client<'_>, link: &mut L) -> Result<Bytes, Stop>
    ensures { Ran listaddrs_text client.old client.new (L.exchanges link.old) (L.exchanges link.new) result }
{
    let hosts = ask(client, link, &VlCall::GetAddrs, &Addresses)?;
    let found = hosts.as_slice();
    let text = address_lines(client.alloc(), found)?;
    Ok(text)
}

fn address_lines(alloc: Global, hosts: &[u32]) -> Result<Bytes, NoMemory>
    ensures { IfOk result (λ text. text ≡ flat_map address_line hosts.now) }
{
    let mut text = Vec::new(alloc);
    for host in hosts {
        text.extend_from_slice(address_text(alloc, *host)?.as_bytes())?;
        text.push(b'\n')?;
    }
    Ok(Bytes::new(text))
}

/// `changeaddr`: the text, once a server has another address, or none.
pub fn change_address<L: Link>(
    client: &mut Client<'_>,
    link: &mut L,
    from: u32,
    to: Option<u32>,
) -> Result<Bytes, Stop>
    ensures { Ran (changeaddr_text from to) client.old client.new (L.exchanges link.old) (L.exchanges link.new) result }
{
    match to {
        Some(to) => replace_address(client, link, from, to),
        None => remove_address(client, link, from),
    }
}

fn replace_address<L: Link>(
    client: &mut Client<'_>,
    link: &mut L,
    from: u32,
    to: u32,
) -> Result<Bytes, Stop>
    ensures { Ran (changeaddr_text from (Some to)) client.old client.new (L.exchanges link.old) (L.exchanges link.new) result }
{
    ask(client, link, &VlCall::ChangeAddr { from, to }, &Done)?;
    let text = moved_text(client.alloc(), from, to)?;
    Ok(text)
}

/// What is told of a server that has another address.
fn moved_text(alloc: Global, from: u32, to: u32) -> Result<Bytes, NoMemory>
    ensures { IfOk result (λ text. text ≡ moved_text from to) }
{
    let from = address_text(alloc, from)?;
    let to = address_text(alloc, to)?;
    joined(
        alloc,
        &[
            b"Changed address ",
            from.as_bytes(),
            b" to ",
            to.as_bytes(),
            b"\n",
        ],
    )
}

fn remove_address<L: Link>(client: &mut Client<'_>, link: &mut L, from: u32) -> Result<Bytes, Stop>
    ensures { Ran (changeaddr_text from None) client.old client.new (L.exchanges link.old) (L.exchanges link.new) result }
{
    ask(client, link, &VlCall::ChangeAddr { from, to: 0 }, &Done)?;
    let text = gone_text(client.alloc(), from)?;
    Ok(text)
}

/// What is told of an address that was taken away.
fn gone_text(alloc: Global, from: u32) -> Result<Bytes, NoMemory>
    ensures { IfOk result (λ text. text ≡ gone_text from) }
{
    let from = address_text(alloc, from)?;
    joined(alloc, &[b"Removed address ", from.as_bytes(), b"\n"])
}
