//! Where the fields of the location database's image stand, format 1 (own).

/// The length of the head, in bytes.
pub const HEAD_LEN: usize = 3132;

/// Where the next volume id stands in the head.
pub const NEXT_AT: usize = 8;

/// Where the addresses of the servers begin in the head.
pub const ADDRESSES_AT: usize = 64;

/// The length of the addresses, in bytes.
pub const ADDRESSES_LEN: usize = 1020;

/// How many places there are for addresses.
pub const PLACES: usize = 255;

// Where the numbers of an entry stand in its block.
pub const FLAGS_AT: usize = 4;

pub const RW_AT: usize = 8;

pub const RO_AT: usize = 12;

pub const BACKUP_AT: usize = 16;

pub const CLONE_AT: usize = 20;

pub const LOCK_OP_AT: usize = 24;

pub const LOCK_MOMENT_AT: usize = 28;

/// Where the number of its sites stands.
pub const COUNT_AT: usize = 32;

/// Where the name's field begins in an entry's block, which has zero bytes behind it.
pub const NAME_AT: usize = 52;

/// The length of a name's field, in bytes.
pub const NAME_FIELD: usize = 64;

/// Where the places of the sites' servers begin, a byte each.
pub const PLACES_AT: usize = 116;

/// Where the sites' partitions begin, a byte each.
pub const PARTITIONS_AT: usize = 129;

/// Where the sites' flags begin, a byte each.
pub const SITE_FLAGS_AT: usize = 142;

/// The length of each of these three fields, which is the most sites that an entry has.
pub const SITES_FIELD: usize = 13;
