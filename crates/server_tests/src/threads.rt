//! Stations may be handed to another thread, over each disk that there is.
use disk_base::{FileDisk, MemDisk, Mirrored};
use pt_database::PtService;
use server_station::{Keeper, Opening, Station};

fn goes<T: Send>() {}

/// Calls nothing: that it is proved says it.
pub fn stations_go_to_threads<L: Opening + Send, J: Keeper + Send>() {
    goes::<Station<MemDisk, PtService, L, J>>();
    goes::<Station<FileDisk, PtService, L, J>>();
    goes::<Station<Mirrored<FileDisk>, PtService, L, J>>();
}
