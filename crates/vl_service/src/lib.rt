//! The calls of the location database over a draft: those that look for an entry or for the addresses, take volume ids, make, replace
//! and delete an entry, set and release locks, and give a server another address.
#![tactic(auto)]

mod changing;
mod deciding;
mod entering;
mod fitting;
mod given;
mod locking;
mod looks;
mod moving;
mod others;
mod pages;
mod placing;
mod rules;

pub use changing::{delete_entry, take_volume_ids};
pub use entering::{create_entry, replace_entry};
pub use locking::{release_lock, set_lock};
pub use looks::{all_addresses, entry_by_id, entry_by_name, probe};
pub use moving::change_address;
pub use pages::list_entries;
pub use rules::{
    BAD_BUMP, BAD_ENTRY, BAD_NAME, BAD_OPERATION, BAD_PARTITION, BAD_RELEASE, BAD_SERVER,
    BAD_VOLUME_TYPE, ENTRY_LOCKED, ID_EXISTS, NAME_EXISTS, NO_ENTRY, NO_REPLICA, REPEATED_REPLICA,
    REPLICAS_FULL, SIZE_EXCEEDED,
};
