//! Laws of the log grammar: each is the clause of a call that does nothing.
ghost use Rattle.ubik_log.specs.Laws.{HasOneReading, NoneBeginsAnother, ClosedGateIsDiscarded, ZeroWordIsDiscarded, ShortLogIsDiscarded};
ghost use Rattle.ubik_log.specs.Laws.{OtherGateIsDiscarded, OpenGateDecides, ClosedLogDecides, OpenedLogIsCommitted};

/// A committed log says one list of changes and one version.
pub fn log_has_one_reading()
    ensures { HasOneReading }
{}

/// No committed log begins another: one that is cut off is discarded, and so is one with bytes behind its end.
pub fn no_log_begins_another()
    ensures { NoneBeginsAnother }
{}

/// A log with its gate closed is discarded, whatever stands behind the gate.
pub fn closed_gate_is_discarded()
    ensures { ClosedGateIsDiscarded }
{}

/// A log whose first word is zero is discarded.
pub fn zero_word_is_discarded()
    ensures { ZeroWordIsDiscarded }
{}

/// Fewer than sixteen bytes are discarded: LOGNEW and LOGEND do not stand there.
pub fn short_log_is_discarded()
    ensures { ShortLogIsDiscarded }
{}

/// The byte at the gate alone decides whether a log that was kept is committed. So where a crash tears the
/// write of that byte, it leaves the committed log or a discarded one.
pub fn gate_decides()
    ensures other { OtherGateIsDiscarded }
    ensures at_open { OpenGateDecides }
    ensures at_closed { ClosedLogDecides }
    ensures opened { OpenedLogIsCommitted }
{}
