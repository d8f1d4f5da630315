//! Texts that go to a sink, with their status.
ghost use Rattle.std.specs.Prelude.{◌≡◌, ◌≢◌, ◌+◌, ◌⊎◌, string_bytes};
ghost use Rattle.disk_base.specs.Count.{HasCause};
ghost use Rattle.client_shell.specs.Runs.{Told};

use disk_base::Sink;
use tool_base::{Stop, say};
use tool_help::Said;

/// Says a text to a sink: this status, or 4 where the sink failed.
pub(crate) fn say_line<K: Sink>(text: &str, status: u8, sink: &mut K) -> u8
    ensures told { Told text.now status result (K.written sink.old) (K.written sink.new) }
    ensures cause { HasCause (K.faults sink.old) (K.faults sink.new) ((status ≢ 4) × (result ≡ 4)) }
{
    match say(sink, text.as_bytes()) {
        Ok(()) => status,
        Err(_) => Stop::WriteFault.status(),
    }
}

/// Says a text: at status 0 to `out`, else to `err`. Its status, or 4 where the sink failed.
pub fn say_said<K: Sink>(said: &Said, out: &mut K, err: &mut K) -> u8
    ensures to_out { said.now.status ≡ 0 →
        (err.new ≡ err.old) × Told (string_bytes said.now.text) 0 result (K.written out.old) (K.written out.new) }
    ensures to_err { said.now.status ≢ 0 → (out.new ≡ out.old)
        × Told (string_bytes said.now.text) said.now.status result (K.written err.old) (K.written err.new) }
    ensures cause { HasCause (K.faults out.old + K.faults err.old) (K.faults out.new + K.faults err.new)
        ((said.now.status ≢ 4) × (result ≡ 4)) }
{
    if said.status == 0 {
        say_line(said.text.as_str(), 0, out)
    } else {
        say_line(said.text.as_str(), said.status, err)
    }
}
