//! The location database's records over a draft: its entries, found by chains of their names and ids, the addresses of the servers, and
//! the next volume id.
#![tactic(auto)]

mod changes;
mod finds;
mod heads;
mod inserts;
mod laws;
mod listings;
mod removes;
mod replaces;
mod sought;

pub use changes::{set_addresses, set_next_volume};
pub use finds::{find_id, find_name};
pub use heads::{addresses, next_volume};
pub use inserts::insert;
pub use laws::law_empty_image_holds_the_first;
pub use listings::{Listing, first_listed};
pub use removes::remove;
pub use replaces::replace;
pub use vldb_entries::{SiteList, VlEntry, VlSite, sites_of};
