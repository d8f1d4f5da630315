//! That the calls of a recovery are the steps of the rules.
ghost use Rattle.std.specs.Prelude.{◌≡◌};
ghost use Rattle.ubik_types.specs.declared.versions.Version.{Version};
ghost use Rattle.ubik_types.specs.Phase.{phase_of};
ghost use Rattle.ubik_recovery.specs.Record.{RecoveryRecord, phase_record};
ghost use Rattle.ubik_recovery.specs.Rules.{OfEach, PollBegins, AnswerCounts, PhaseLapses, FetchBegins, RelabellingWaits, SendBegins, ServingBegins, HolderIsAdded, WriteBegins, TextGoesOn, DatabaseIsTaken};

/// A recovery is the phase record of its server: its phase is that of the record, and each call that changes the one makes of
/// the server with the other what the rule does. The server's cell is the recovery's.
pub fn law_calls_are_steps()
    ensures phase { (announced : Version) (r : RecoveryRecord) → phase_of (phase_record announced r) ≡ r.phase }
    ensures poll { OfEach PollBegins }
    ensures answer { OfEach AnswerCounts }
    ensures lapse { OfEach PhaseLapses }
    ensures fetch { OfEach FetchBegins }
    ensures relabelling { OfEach RelabellingWaits }
    ensures send { OfEach SendBegins }
    ensures serving { OfEach ServingBegins }
    ensures holder { OfEach HolderIsAdded }
    ensures write { OfEach WriteBegins }
    ensures text { OfEach TextGoesOn }
    ensures database { OfEach DatabaseIsTaken }
{}
