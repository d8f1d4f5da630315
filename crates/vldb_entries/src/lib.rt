//! The entries of the location database: what one is, the state of the database apart from any layout, and the bytes of an entry's block and
//! of the head, without the words of chains.
#![tactic(auto)]

mod blocks;
mod checks;
mod entries;
mod forms;
mod layout;

pub use blocks::{entry_in, has_id, has_name, kind_of, name_in, site_in};
pub use checks::{has_equal_ids, is_name, repeats};
pub use entries::{SiteList, VlEntry, VlSite, sites_of};
pub use forms::{ENTRY, FIRST_VOLUME, address_words, block_of, first_head};
pub use layout::{
    ADDRESSES_AT, ADDRESSES_LEN, BACKUP_AT, COUNT_AT, FLAGS_AT, HEAD_LEN, LOCK_OP_AT, NAME_AT,
    NEXT_AT, PLACES, RO_AT, RW_AT, SITES_FIELD,
};
