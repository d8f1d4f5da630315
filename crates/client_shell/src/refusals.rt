//! Words and lines that ask for nothing, and why.
ghost use Rattle.std.specs.Prelude.{◌≡◌, ◌≢◌, IfOk, string_bytes};
ghost use Rattle.afs_client.specs.Client.{Declines};
ghost use Rattle.disk_base.specs.Count.{HasCause};
ghost use Rattle.tool_help.specs.Answers.{Says, line_of};

use crate::sayings::say_line;
use afs_words::Tool;
use client_plans::refused;
use disk_base::Sink;
use std::alloc::Global;
use tool_base::Stop;
use ubik_types::NoMemory;

/// What is said of hosts that are none.
pub(crate) const BAD_HOSTS: &str = "the hosts are not 1 to 20 distinct addresses, joined by commas";

/// What is said of a line that is longer than the reader takes.
pub(crate) const LONG_LINE: &str = "the line has more than 65536 bytes";

/// What is said of a line in which a quote begins and does not end.
pub(crate) const OPEN_QUOTE: &str = "a quote does not end";

/// What is said of a line with a word that is not UTF-8.
pub(crate) const NO_TEXT: &str = "a word is no text";

/// What is said of `source` in a file of commands.
pub(crate) const NESTED: &str = "'source' stands in no file of commands";

/// What is said where a read failed.
pub(crate) const NO_READ: &str = "the file cannot be read";

/// What is said of a file that is not there, or is not for this user.
pub(crate) const NO_OPEN: &str = "the file cannot be opened";

/// Says why words are refused: 2, or 4 where the sink failed, or 5 where memory ran out.
pub(crate) fn say_refused<K: Sink>(alloc: Global, tool: Tool, why: &str, err: &mut K) -> u8
    ensures said { Declines (line_of tool why.now) result (K.written err.old) (K.written err.new) }
    ensures cause { HasCause (K.faults err.old) (K.faults err.new) (result ≡ 4) }
{
    match refused(alloc, tool, why) {
        Ok(said) => say_line(said.text.as_str(), 2, err),
        Err(NoMemory) => Stop::NoMemory.status(),
    }
}
