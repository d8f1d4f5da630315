//! Laws of writes: each is the clause of a call that does nothing.
ghost use Rattle.write_laws.specs.Memory.{RepliesTellMemory};
ghost use Rattle.write_laws.specs.Spreads.{WritesSpread};
ghost use Rattle.write_laws.specs.Texts.{TextsFit};

use ubik_calls::packets_are_as_long_as_said;

/// A server of a cell of any size stays one that takes writes in each event that a cell brings: packets of all kinds, turns, and calls. It
/// sends packets from host to host of the cell, each of which has a spelling. It makes at most two durable calls in a step, which lead to
/// versions and fit an image. Its replies are answers to the calls that had none, from the front of the line, and each Ok answers the
/// call that stood under its id. A server that was just opened is one.
pub fn law_writes_spread()
    ensures { WritesSpread }
{
    packets_are_as_long_as_said();
}

/// At each server, whatever the event, and however many calls have their turns in it, a step is the one in which just those calls found no
/// memory whose replies tell it. Where no reply tells it the step is the one for which all memory was found.
pub fn law_replies_tell_memory()
    ensures { RepliesTellMemory }
{}

/// The changes of a write in flight have a spelling, and its text has at most 16,777,216 bytes, over each database that keeps its
/// images. Where the head and the blocks of the database have at least 64 bytes its text has at most 160 pieces, as many as another server takes.
pub fn law_texts_fit()
    ensures { TextsFit }
{}
