//! What a journal is to the schedules of the model.
ghost use Rattle.server_station.specs.Replaying.{RecordedFits};

use db_image::DraftService;
use disk_base::Disk;

/// What a station's type says of its journal is what a schedule that fits asks of its server alone: the clause of a call that does nothing.
pub fn law_recorded_fits<D: Disk, V: DraftService>()
    ensures { RecordedFits D.Disk V.standing }
{}
