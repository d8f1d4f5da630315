//! What a command writes.
ghost use Rattle.std.specs.Prelude.{◌≡◌, ◌≢◌, ◌++◌, ℕ, Some, Err, IfSome, IfOk};
ghost use Rattle.disk_base.specs.Count.{HasCause};
ghost use Rattle.std.specs.String.{string_bytes};
ghost use Rattle.tool_base.specs.Ending.{Appended, FrontOf};
ghost use Rattle.tool_base.specs.Stops.{line_of, stop_line, end_line};
ghost use Rattle.tool_base.specs.Writing.{Says, SaysEnd};

use crate::stops::Stop;
use cell_script::write_whole;
use disk_base::Sink;
use std::alloc::Global;
use ubik_types::NoMemory;

/// Writes a text to a sink.
pub fn say<K: Sink>(out: &mut K, text: &[u8]) -> Result<(), Stop>
    ensures said { Says result (K.written out.old) (K.written out.new) text.now }
    ensures cause { HasCause (K.faults out.old) (K.faults out.new) (result ≡ Err Stop.WriteFault) }
{
    match write_whole(out, text) {
        Ok(()) => Ok(()),
        Err(_) => Err(Stop::WriteFault),
    }
}

/// A line of the tool, with its end.
fn line(alloc: Global, tool: &str, said: &str) -> Result<String, NoMemory>
    ensures { IfOk result (λ text. string_bytes text ≡ line_of tool.now said.now) }
{
    let mut text = String::new(alloc);
    writeln!(text, "{}: {}", tool, said)?;
    Ok(text)
}

/// What a tool says of its end to who reads errors.
fn stop_line(alloc: Global, tool: &str, stop: Stop) -> Result<String, NoMemory>
    ensures { IfOk result (λ text. string_bytes text ≡ stop_line tool.now stop) }
{
    match stop {
        Stop::Refused(refusal) => {
            let mut said = String::new(alloc);
            write!(said, "refused {}", refusal)?;
            line(alloc, tool, said.as_str())
        }
        Stop::NoServer => line(alloc, tool, "no server"),
        Stop::OutcomeUnknown => line(alloc, tool, "outcome unknown"),
        Stop::WriteFault | Stop::NoMemory => Ok(String::new(alloc)),
    }
}

/// Writes what a tool says of its end, and is that end, or what came of the writing.
pub fn say_end<K: Sink>(
    alloc: Global,
    tool: &str,
    err: &mut K,
    end: Result<(), Stop>,
) -> Result<(), Stop>
    ensures said { SaysEnd tool.now end result (K.written err.old) (K.written err.new) }
    ensures cause { HasCause (K.faults err.old) (K.faults err.new) ((end ≢ Err Stop.WriteFault) × (result ≡ Err Stop.WriteFault)) }
{
    if let Err(stop) = end {
        let text = stop_line(alloc, tool, stop)?;
        say(err, text.as_bytes())?;
    }
    end
}
