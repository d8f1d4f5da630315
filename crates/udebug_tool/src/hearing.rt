//! What a server says of itself.
ghost use Rattle.tool_base.specs.Running.{Ran};
ghost use Rattle.udebug_tool.specs.Looking.{looks_at};

use crate::seeing::seen_answer;
use io_base::Link;
use tool_base::{Client, Stop};
use ubik_calls::{DebugIs, Frame, encode};
use ubik_types::Host;

/// Asks a host of itself, under the next number; none where no answer came to that.
pub(crate) fn look_at<L: Link>(
    client: &mut Client<'_>,
    link: &mut L,
    host: Host,
) -> Result<Option<DebugIs>, Stop>
    ensures { Ran (looks_at host) client.old client.new (L.exchanges link.old) (L.exchanges link.new) result }
{
    client.count();
    let number = client.number();
    let frame = encode(client.alloc(), &Frame::Debug { number })?;
    let mut reply = Vec::new(client.alloc());
    let answer = link.ask(host, client.port(), frame.as_slice(), &mut reply);
    let seen = seen_answer(client.alloc(), number, answer, reply.as_slice())?;
    Ok(seen)
}
